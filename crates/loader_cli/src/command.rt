//! The commands.
ghost use Rattle.std.specs.Prelude.{◌≡◌, ◌≢◌, ◌↔◌, ◌<◌, ◌≤◌, ◌+◌, ◌^◌, ℕ, ◌∷◌, codes, IsTrue};
ghost use Rattle.std.specs.Prelude.{IfSome};
ghost use Rattle.std.specs.Prelude.{IfNone};
ghost use Rattle.std.specs.Fmt.{decimal};
ghost use Rattle.disk_layout.specs.Offsets.{IsBankSize};
ghost use Rattle.disk_layout.specs.declared.identity.Identity.{Identity};
ghost use Rattle.shown_files.specs.Kinds.{IsNameOf};
ghost use Rattle.loader_cli.specs.Commands.CommandView.{show, check, build, make, replay, wire};
ghost use Rattle.loader_cli.specs.Commands.CommandView.{trial};
ghost use Rattle.loader_cli.specs.Commands.{CommandView, IsAny, IsCommand, IsNo, IsPlain, IsWord};
ghost use Rattle.loader_cli.specs.Commands.{IsFleetOf, LooksAfterUnit, NamesTarget};
ghost use Rattle.loader_cli.specs.Commands.{IsOfFleet, UsesDisks, asked_view, command_view};
ghost use Rattle.loader_cli.specs.Commands.{texts_of};

use disk_layout::Identity;
use disk_layout::offsets::{LARGEST_BANK, SMALLEST_BANK};
use itoa::Buffer;
use load_base::Ident;
use shown_files::ShownKind;

/// How many units there are.
const UNITS: u32 = 8;

/// A fleet has two units at least.
const FEWEST_OF_FLEET: u32 = 2;

/// What the program's arguments ask for, and of which units.
#[derive(Clone, Copy)]
pub(crate) enum Asked<'w> {
    /// Something of one unit, whose disk has this place, from 0.
    OfUnit {
        command: Command<'w>,
        disk: usize,
    },
    /// `fleet COUNT FOLDER SCRIPT`: run the sessions of a script with the first COUNT units, and
    /// print the report.
    OfFleet {
        count: usize,
        folder: &'w str,
        script: &'w str,
    },
}

impl<'w> Asked<'w> {
    /// The command, of the first unit or, after `on N`, of unit N, or of a fleet; `None` where the
    /// arguments are none.
    pub(crate) fn read(words: &'w [String]) -> Option<Asked<'w>>
        ensures some { IfSome result (λ asked.
            IsCommand (texts_of words.now) (asked_view asked)) }
        ensures disks { IfSome result (UsesDisks (texts_of words.now)) }
        ensures none { IfNone result (IsNo IsAny (texts_of words.now)) }
    {
        match words.split_first() {
            Some((word, after)) if is_text(word.as_str(), "on") => of_unit(after),
            Some((word, after)) if is_text(word.as_str(), "fleet") => of_fleet(after),
            _ => match Command::read(words) {
                Some(command) => Some(Asked::OfUnit { command, disk: 0 }),
                None => None,
            },
        }
    }
}

/// What the words after `on` ask for: the number of a unit, and a command that looks after one.
fn of_unit<'w>(words: &'w [String]) -> Option<Asked<'w>>
    ensures some { IfSome result (λ asked.
        IsCommand (codes "on" ∷ texts_of words.now) (asked_view asked)) }
    ensures disks { IfSome result (UsesDisks (codes "on" ∷ texts_of words.now)) }
    ensures none { IfNone result (IsNo IsAny (codes "on" ∷ texts_of words.now)) }
{
    let (number, own) = words.split_first()?;
    let disk = place_of(number.as_str())?;
    match Command::read(own) {
        Some(command) if command.looks_after_unit() => Some(Asked::OfUnit { command, disk }),
        _ => None,
    }
}

/// What the words after `fleet` ask for: how many units, a folder and a script.
fn of_fleet<'w>(words: &'w [String]) -> Option<Asked<'w>>
    ensures some { IfSome result (λ asked.
        IsCommand (codes "fleet" ∷ texts_of words.now) (asked_view asked)) }
    ensures disks { IfSome result (UsesDisks (codes "fleet" ∷ texts_of words.now)) }
    ensures none { IfNone result (IsNo IsAny (codes "fleet" ∷ texts_of words.now)) }
{
    match words {
        [count, folder, script] => fleet_of(count.as_str(), folder.as_str(), script.as_str()),
        _ => None,
    }
}

/// The command `fleet` for these words.
fn fleet_of<'w>(count: &str, folder: &'w str, script: &'w str) -> Option<Asked<'w>>
    ensures some { IfSome result (IsFleetOf count.now folder.now script.now) }
    ensures none { IfNone result ((n : ℕ) → count.now ≡ decimal n → 2 ≤ n → n ≤ 8
        → ¬ (IsWord folder.now × IsWord script.now)) }
{
    if !is_word(folder.as_bytes()) || !is_word(script.as_bytes()) {
        return None;
    }
    let count = count_of(count)?;
    Some(Asked::OfFleet {
        count,
        folder,
        script,
    })
}

/// How many units a fleet has: 2 to 8.
fn count_of(word: &str) -> Option<usize>
    ensures some { IfSome result (λ count. (word.now ≡ decimal count) × (2 ≤ count)
        × (count ≤ 8)) }
    ensures none { IfNone result ((n : ℕ) → 2 ≤ n → n ≤ 8 → word.now ≢ decimal n) }
{
    match number(word) {
        Some(count) if FEWEST_OF_FLEET <= count && count <= UNITS => Some(count as usize),
        _ => None,
    }
}

/// The place of the unit of this number, from 0.
fn place_of(word: &str) -> Option<usize>
    ensures some { IfSome result (λ place. (word.now ≡ decimal (place + 1)) × (place < 8)) }
    ensures none { IfNone result ((n : ℕ) → 1 ≤ n → n ≤ 8 → word.now ≢ decimal n) }
{
    match number(word) {
        Some(number) if 1 <= number && number <= UNITS => Some(number as usize - 1),
        _ => None,
    }
}

/// What one unit can be asked for, without the words `on N`.
#[derive(Clone, Copy)]
pub(crate) enum Command<'w> {
    /// `list`: recover the disk and print the configuration that it holds.
    List,
    /// `format HW POS SERIAL BANK`: initialise the disk for this target, with no loads.
    Format(Identity),
    /// `show FILE`: print the fields of a file of this kind, which the end of FILE tells.
    Show { kind: ShownKind, file: &'w str },
    /// `check FOLDER`: find all that is wrong with the media set in this folder.
    Check { folder: &'w str },
    /// `build RECIPE FOLDER`: build the media set that a recipe names into this folder.
    Build { recipe: &'w str, folder: &'w str },
    /// `make NUMBER FOLDER`: make the generated set of a number in this folder.
    Make { number: u32, folder: &'w str },
    /// `replay FOLDER SCRIPT`: run the sessions of a script, and print the report.
    Replay { folder: &'w str, script: &'w str },
    /// `wire FOLDER SCRIPT`: run the same sessions, and print the trace.
    Wire { folder: &'w str, script: &'w str },
    /// `trial NUMBER`: upload the generated set of a number in one session, and print the report.
    Trial { number: u32 },
    /// `rollback`: make the former configuration active again, and print it.
    Rollback,
}

impl<'w> Command<'w> {
    /// The command; `None` where the words are none.
    fn read(words: &'w [String]) -> Option<Command<'w>>
        ensures some { IfSome result (λ command.
            IsPlain (texts_of words.now) (command_view command)) }
        ensures none { IfNone result ((command : CommandView) → ¬ IsOfFleet command
            → ¬ IsPlain (texts_of words.now) command) }
    {
        match words {
            [word] if is_text(word.as_str(), "list") => Some(Command::List),
            [word, hw, pos, serial, bank] if is_text(word.as_str(), "format") => {
                match target(hw.as_str(), pos.as_str(), serial.as_str(), bank.as_str()) {
                    Some(identity) => Some(Command::Format(identity)),
                    None => None,
                }
            }
            [word, file] if is_text(word.as_str(), "show") => show_of(file.as_str()),
            [word, folder] if is_text(word.as_str(), "check") => check_of(folder.as_str()),
            [word, recipe, folder] if is_text(word.as_str(), "build") => {
                build_of(recipe.as_str(), folder.as_str())
            }
            [word, number, folder] if is_text(word.as_str(), "make") => {
                make_of(number.as_str(), folder.as_str())
            }
            [word, folder, script] if is_text(word.as_str(), "replay") => {
                replay_of(folder.as_str(), script.as_str())
            }
            [word, folder, script] if is_text(word.as_str(), "wire") => {
                wire_of(folder.as_str(), script.as_str())
            }
            [word, number] if is_text(word.as_str(), "trial") => trial_of(number.as_str()),
            [word] if is_text(word.as_str(), "rollback") => Some(Command::Rollback),
            _ => None,
        }
    }

    /// Whether it looks after one unit, so that `on N` may stand before it.
    fn looks_after_unit(&self) -> bool
        ensures { IsTrue result ↔ LooksAfterUnit (command_view self.now) }
    {
        matches!(self, Command::List | Command::Format(_) | Command::Rollback)
    }
}

/// The command `show` for a file of this name.
fn show_of(file: &str) -> Option<Command<'_>>
    ensures some { IfSome result (λ command. (kind : ShownKind)
        × (command_view command ≡ show kind file.now) × IsWord file.now × IsNameOf kind file.now) }
    ensures none { IfNone result
        ((kind : ShownKind) → ¬ (IsWord file.now × IsNameOf kind file.now)) }
{
    if !is_word(file.as_bytes()) {
        return None;
    }
    let kind = ShownKind::of_name(file.as_bytes())?;
    Some(Command::Show { kind, file })
}

/// The command `check` for this folder.
fn check_of(folder: &str) -> Option<Command<'_>>
    ensures some { IfSome result (λ command.
        (command_view command ≡ check folder.now) × IsWord folder.now) }
    ensures none { IfNone result (¬ IsWord folder.now) }
{
    if is_word(folder.as_bytes()) {
        Some(Command::Check { folder })
    } else {
        None
    }
}

/// The command `build` for this recipe and folder.
fn build_of<'w>(recipe: &'w str, folder: &'w str) -> Option<Command<'w>>
    ensures some { IfSome result (λ command.
        (command_view command ≡ build recipe.now folder.now)
        × IsWord recipe.now × IsWord folder.now) }
    ensures none { IfNone result (¬ (IsWord recipe.now × IsWord folder.now)) }
{
    if is_word(recipe.as_bytes()) && is_word(folder.as_bytes()) {
        Some(Command::Build { recipe, folder })
    } else {
        None
    }
}

/// The command `make` for this number and folder.
fn make_of<'w>(digits: &'w str, folder: &'w str) -> Option<Command<'w>>
    ensures some { IfSome result (λ command. (n : ℕ) × (command_view command ≡ make n folder.now)
        × (digits.now ≡ decimal n) × (n < 2 ^ 32) × IsWord folder.now) }
    ensures none { IfNone result
        ((n : ℕ) → ¬ ((digits.now ≡ decimal n) × (n < 2 ^ 32) × IsWord folder.now)) }
{
    if !is_word(folder.as_bytes()) {
        return None;
    }
    let number = number(digits)?;
    Some(Command::Make { number, folder })
}

/// The command `replay` for this folder and script.
fn replay_of<'w>(folder: &'w str, script: &'w str) -> Option<Command<'w>>
    ensures some { IfSome result (λ command.
        (command_view command ≡ replay folder.now script.now)
        × IsWord folder.now × IsWord script.now) }
    ensures none { IfNone result (¬ (IsWord folder.now × IsWord script.now)) }
{
    if is_word(folder.as_bytes()) && is_word(script.as_bytes()) {
        Some(Command::Replay { folder, script })
    } else {
        None
    }
}

/// The command `wire` for this folder and script.
fn wire_of<'w>(folder: &'w str, script: &'w str) -> Option<Command<'w>>
    ensures some { IfSome result (λ command.
        (command_view command ≡ wire folder.now script.now)
        × IsWord folder.now × IsWord script.now) }
    ensures none { IfNone result (¬ (IsWord folder.now × IsWord script.now)) }
{
    if is_word(folder.as_bytes()) && is_word(script.as_bytes()) {
        Some(Command::Wire { folder, script })
    } else {
        None
    }
}

/// The command `trial` for this number.
fn trial_of<'w>(digits: &str) -> Option<Command<'w>>
    ensures some { IfSome result (λ command. (n : ℕ) × (command_view command ≡ trial n)
        × (digits.now ≡ decimal n) × (n < 2 ^ 32)) }
    ensures none { IfNone result ((n : ℕ) → n < 2 ^ 32 → digits.now ≢ decimal n) }
{
    let number = number(digits)?;
    Some(Command::Trial { number })
}

/// The target that these arguments name.
fn target(hw: &str, pos: &str, serial: &str, bank: &str) -> Option<Identity>
    ensures some { IfSome result (λ id. NamesTarget hw.now pos.now serial.now bank.now id) }
    ensures none { IfNone result
        ((id : Identity) → ¬ NamesTarget hw.now pos.now serial.now bank.now id) }
{
    let Ok(hw) = Ident::read(hw.as_bytes()) else {
        return None;
    };
    let Ok(pos) = Ident::read(pos.as_bytes()) else {
        return None;
    };
    let Ok(serial) = Ident::read(serial.as_bytes()) else {
        return None;
    };
    let bank = bank_size(bank)?;
    Some(Identity {
        hw,
        pos,
        serial,
        bank,
    })
}

/// The size of a bank in decimal digits.
fn bank_size(word: &str) -> Option<u32>
    ensures some { IfSome result (λ size. (word.now ≡ decimal size) × IsBankSize size) }
    ensures none { IfNone result ((size : ℕ) → IsBankSize size → word.now ≢ decimal size) }
{
    match number(word) {
        Some(size) if SMALLEST_BANK <= size && size <= LARGEST_BANK => Some(size),
        _ => None,
    }
}

/// A number in decimal digits, without a sign or a leading zero.
fn number(word: &str) -> Option<u32>
    ensures some { IfSome result (λ n. (word.now ≡ decimal n) × (n < 2 ^ 32)) }
    ensures none { IfNone result ((n : ℕ) → n < 2 ^ 32 → word.now ≢ decimal n) }
{
    match word.parse::<u32>() {
        Ok(number) if is_decimal(word, number) => Some(number),
        _ => None,
    }
}

fn is_decimal(word: &str, number: u32) -> bool
    ensures { IsTrue result ↔ (word.now ≡ decimal number) }
{
    let mut digits = Buffer::new();
    is_text(word, digits.format(number))
}

fn is_text<'t>(word: &'t str, text: &'t str) -> bool
    ensures { IsTrue result ↔ (word.now ≡ text.now) }
{
    word == text
}

fn is_word(word: &[u8]) -> bool
    ensures { IsTrue result ↔ IsWord word.now }
{
    !word.is_empty() && word.len() <= 150 && word.iter().all(|byte| matches!(*byte, 0x21..=0x7E))
}
