//! Lines of a fleet's script.
ghost use Rattle.std.specs.Prelude.{◌≡◌, ◌≤◌, ◌==◌, IfOk, length, option_copied, option_map};
ghost use Rattle.std.specs.Prelude.{Some};
ghost use Rattle.std.specs.List.{slice_split};
ghost use Rattle.exchange_trace.specs.Scripts.{finish};
ghost use Rattle.exchange_trace.specs.declared.fault.ScriptFault.TheVariants.{Memory};
ghost use Rattle.field_grammar.specs.Answers.{AnswersAs};
ghost use Rattle.link_net.specs.Reading.{keyword_view, words_of};
ghost use Rattle.fleet_trace.specs.FleetLines.{Ask_next, Finish_batch};
ghost use Rattle.fleet_trace.specs.FleetScripts as scripts;
ghost use Rattle.fleet_link.specs.Lines.{fleet_line_view};

use exchange_trace::ScriptFault;
use link_net::line::{Keyword, Line, count_of, keyword_of, line_of};
use link_net::values::part_in;
use link_net::words::{only_word_in, word_count};
use load_base::PartText;
use std::alloc::Global;
use text_words::{cut, decimal_in};

/// What a line says (docs/FORMATS.md, "Script of a fleet").
#[derive(Drop)]
pub enum FleetLine {
    /// What this line says happens at this unit.
    At { unit: u8, line: Line },
    /// The datagram of this number over all units is delivered, if it was posted.
    Give(u32),
    /// The datagram of this number is lost, if it was posted and not delivered.
    Lose(u32),
    /// This many undelivered datagrams are delivered, the least numbers first.
    Next(u32),
    /// Datagrams are delivered, and timers expire, until nothing is undelivered and no side of a
    /// unit waits.
    Finish,
    /// The batch with this part number becomes the running one.
    Batch(PartText),
    /// The upload to the next target of the running batch is asked, if it may be.
    AskNext,
    /// Uploads are asked and finished in turn, until none may be asked any more.
    FinishBatch,
}

/// What the line of this number says in a script of so many units, or the first fault in it.
pub fn read_fleet_line(
    alloc: Global,
    line: u64,
    units: u8,
    text: &[u8],
) -> Result<FleetLine, ScriptFault>
    ensures { AnswersAs Memory fleet_line_view result (scripts.fleet_words_said line units
        (slice_split (λ byte. byte == 32) text.now)) }
{
    let (first, rest) = cut(text, b' ');
    if first == b"at".as_slice() {
        return line_at(alloc, line, units, rest);
    }
    if first == b"batch".as_slice() {
        return batch_of(line, rest);
    }
    if first == b"asknext".as_slice() {
        return ask_next_of(line, rest);
    }
    if first == b"finishbatch".as_slice() {
        return finish_batch_of(line, rest);
    }
    line_alone(line, keyword_of(first), rest)
}

/// What the words after `at` say.
fn line_at(
    alloc: Global,
    line: u64,
    units: u8,
    rest: Option<&[u8]>,
) -> Result<FleetLine, ScriptFault>
    ensures { AnswersAs Memory fleet_line_view result
        (scripts.at_said line units (words_of (option_copied rest.entry))) }
{
    let Some(text) = rest else {
        return Err(ScriptFault::Word(line));
    };
    let (unit, rest) = cut(text, b' ');
    let Some(text) = rest else {
        return Err(ScriptFault::Word(line));
    };
    let (first, rest) = cut(text, b' ');
    match keyword_of(first) {
        Some(keyword) => line_of_unit(alloc, line, units, unit, keyword, rest),
        None => Err(ScriptFault::Word(line)),
    }
}

/// The number of words is tested before any of them, and before the unit's word.
fn line_of_unit(
    alloc: Global,
    line: u64,
    units: u8,
    unit: &[u8],
    keyword: Keyword,
    rest: Option<&[u8]>,
) -> Result<FleetLine, ScriptFault>
    ensures { AnswersAs Memory fleet_line_view result (scripts.unit_line_said line units unit.now
        (Some (keyword_view keyword)) (words_of (option_copied rest.entry))) }
{
    if !takes(keyword, count_in(rest)) {
        return Err(ScriptFault::Word(line));
    }
    let unit = unit_in(line, units, unit)?;
    let line = line_of(alloc, line, keyword, rest)?;
    Ok(FleetLine::At { unit, line })
}

/// How many words are left of a line.
fn count_in(rest: Option<&[u8]>) -> usize
    ensures { result ≡ length (words_of (option_copied rest.entry)) }
{
    match rest {
        Some(text) => word_count(text),
        None => 0,
    }
}

/// Whether so many words may stand after this one, where the line is one of a unit.
fn takes(keyword: Keyword, count: usize) -> bool
    ensures { result ≡ scripts.takes (keyword_view keyword) count }
{
    match keyword {
        Keyword::Info => count == 2,
        Keyword::Upload => 3 <= count && count <= 66,
        Keyword::Tick => count == 1,
        Keyword::Inject => count == 4,
        Keyword::Power => count == 2,
        Keyword::Boot => count == 0,
        Keyword::Blksize => count == 1,
        Keyword::Give | Keyword::Lose | Keyword::Next | Keyword::Finish => false,
    }
}

/// A unit's number.
fn unit_in(line: u64, units: u8, word: &[u8]) -> Result<u8, ScriptFault>
    ensures said { result ≡ scripts.unit_word line units word.now }
    ensures within { IfOk result (λ unit. unit ≤ units) }
{
    match decimal_in(word, 1, u32::from(units)) {
        Some(unit) => Ok(unit as u8),
        None => Err(ScriptFault::Unit(line)),
    }
}

/// What the words of a line say that has no unit.
#[tactic(auto, using(crate::proofs::Words::give_number, crate::proofs::Words::lose_number, crate::proofs::Words::next_number))]
fn line_alone(
    line: u64,
    keyword: Option<Keyword>,
    rest: Option<&[u8]>,
) -> Result<FleetLine, ScriptFault>
    ensures { AnswersAs Memory fleet_line_view result (scripts.fleet_line_said line
        (option_map keyword_view keyword) (words_of (option_copied rest.entry))) }
{
    match keyword {
        Some(Keyword::Give) => Ok(FleetLine::Give(count_of(line, rest)?)),
        Some(Keyword::Lose) => Ok(FleetLine::Lose(count_of(line, rest)?)),
        Some(Keyword::Next) => Ok(FleetLine::Next(count_of(line, rest)?)),
        Some(Keyword::Finish) => finish_of(line, rest),
        _ => Err(ScriptFault::Word(line)),
    }
}

#[tactic(auto, using(crate::proofs::Words::finish_alone))]
fn finish_of(line: u64, rest: Option<&[u8]>) -> Result<FleetLine, ScriptFault>
    ensures { AnswersAs Memory fleet_line_view result (scripts.fleet_line_said line
        (Some finish) (words_of (option_copied rest.entry))) }
{
    match rest {
        Some(_) => Err(ScriptFault::Word(line)),
        None => Ok(FleetLine::Finish),
    }
}

/// What the words after `batch` say.
#[tactic(auto, using(crate::proofs::Words::batch_words))]
fn batch_of(line: u64, rest: Option<&[u8]>) -> Result<FleetLine, ScriptFault>
    ensures { AnswersAs Memory fleet_line_view result
        (scripts.batch_said line (words_of (option_copied rest.entry))) }
{
    match only_word_in(rest) {
        Some(word) => Ok(FleetLine::Batch(part_in(line, word)?)),
        None => Err(ScriptFault::Word(line)),
    }
}

#[tactic(auto, using(crate::proofs::Words::alone))]
fn ask_next_of(line: u64, rest: Option<&[u8]>) -> Result<FleetLine, ScriptFault>
    ensures { AnswersAs Memory fleet_line_view result
        (scripts.alone_said line Ask_next (words_of (option_copied rest.entry))) }
{
    match rest {
        Some(_) => Err(ScriptFault::Word(line)),
        None => Ok(FleetLine::AskNext),
    }
}

#[tactic(auto, using(crate::proofs::Words::alone))]
fn finish_batch_of(line: u64, rest: Option<&[u8]>) -> Result<FleetLine, ScriptFault>
    ensures { AnswersAs Memory fleet_line_view result
        (scripts.alone_said line Finish_batch (words_of (option_copied rest.entry))) }
{
    match rest {
        Some(_) => Err(ScriptFault::Word(line)),
        None => Ok(FleetLine::FinishBatch),
    }
}
