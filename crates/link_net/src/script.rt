//! Scripts as they are read.
ghost use Rattle.std.specs.Prelude.{◌≡◌, ◌≢◌, ◌⊎◌, ◌≤◌, ℕ, ◌∷◌, [], length, Ok, Err, IsOk, IsErr};
ghost use Rattle.std.specs.Prelude.{IfOk};
ghost use Rattle.std.specs.Prelude.{IfErr, OnOk};
ghost use Rattle.exchange_trace.specs.Lines.{Finish, Upload};
ghost use Rattle.exchange_trace.specs.declared.fault.ScriptFault.TheVariants.{Memory, Unit};
ghost use Rattle.exchange_trace.specs.Scripts.{script_said, lines_said};
ghost use Rattle.text_words.specs.Words.{written_lines};
ghost use Rattle.link_net.specs.Lines.{line_views};
ghost use Rattle.link_net.specs.Reading.{Said, and_later, and_said};

use crate::line::{Line, read_line};
use exchange_trace::ScriptFault;
use load_base::{Ident, List, NoMemory, PartText};
use std::alloc::Global;
use std::marker::Model;
use text_words::{cut, is_passed_over};

/// The most bytes that a script has.
const LONGEST_SCRIPT: usize = 1_000_000;

/// A script: what happens between loader and target, line by line.
///
/// A contract sees the lines that aren't passed over, in their order.
#[derive(Drop)]
pub struct Script {
    pub(crate) lines: List<Line>,
}

impl Model for Script {
    ghost use Rattle.std.specs.Prelude.{List};
    ghost use Rattle.exchange_trace.specs.Lines as spec;
    ghost use Rattle.link_net.specs.Lines.{line_views};

    ghost Value = { List spec.Line };

    ghost view = { λ script. line_views script.lines.items };
}

impl Script {
    /// Reads a whole text as a script. A text of more than 1,000,000 bytes is refused first, and
    /// then the first line that is wrong.
    #[tactic(auto, unfolding(exchange_trace::specs::Scripts::script_said))]
    pub fn read(alloc: Global, bytes: &[u8]) -> Result<Script, ScriptFault>
        // What is read is what the text says.
        ensures found { IfOk result (λ script. script_said bytes.now ≡ Ok script) }
        // A refusal is the text's first fault, or out of memory.
        ensures refused { IfErr result (λ fault. (fault ≡ Memory)
            ⊎ (script_said bytes.now ≡ Err fault)) }
        // So what the text says is read, unless it is out of memory, and a text with a fault isn't.
        ensures only { IsOk (script_said bytes.now) → IfErr result (λ fault. fault ≡ Memory) }
        ensures faulty { IsErr (script_said bytes.now) → IsErr result }
        // A script of one target has no word for a unit.
        ensures never_unit { IfErr result (λ fault. (line : ℕ) → fault ≢ Unit line) }
    {
        if bytes.len() > LONGEST_SCRIPT {
            return Err(ScriptFault::TooLong);
        }
        match read_lines(alloc, bytes) {
            Ok(lines) => Ok(Script { lines }),
            Err(fault) => Err(fault),
        }
    }

    /// The script of one upload that is left to finish: the lines `upload HW POS PART ..` and
    /// `finish`.
    pub fn of_upload(
        alloc: Global,
        hw: Ident,
        pos: Ident,
        parts: List<PartText>,
    ) -> Result<Script, NoMemory>
        ensures { IfOk result (λ script. script ≡ Upload hw pos parts.items ∷ Finish ∷ []) }
    {
        let mut lines = List::new(alloc);
        lines.push(Line::Upload { hw, pos, parts })?;
        lines.push(Line::Finish)?;
        Ok(Script { lines })
    }

    /// How many lines say something.
    pub fn line_count(&self) -> usize
        ensures { result ≡ length self.now }
    {
        self.lines.len()
    }
}

/// The lines of a text.
fn read_lines(alloc: Global, bytes: &[u8]) -> Result<List<Line>, ScriptFault>
    requires { length bytes.now ≤ 1000000 }
    ensures found { IfOk result (λ lines. lines_said (written_lines bytes.now)
        ≡ Ok (line_views lines.items)) }
    ensures refused { IfErr result (λ fault. (fault ≡ Memory)
        ⊎ (lines_said (written_lines bytes.now) ≡ Err fault)) }
{
    let mut lines = List::new(alloc);
    let mut number = 1;
    let mut left = Some(bytes);
    while let Some(text) = left {
        let (line, rest) = cut(text, b'\n');
        if let Err(fault) = take_line(alloc, &mut lines, number, line) {
            return Err(fault);
        }
        number += 1;
        left = rest;
    }
    Ok(lines)
}

/// Adds what a line says, unless it is passed over.
fn take_line(
    alloc: Global,
    lines: &mut List<Line>,
    number: u64,
    text: &[u8],
) -> Result<(), ScriptFault>
    ensures taken { OnOk result ((later : Said)
        → and_later (line_views lines.old.items) (and_said number text.now later)
        ≡ and_later (line_views lines.new.items) later) }
    ensures refused { IfErr result (λ fault. (fault ≡ Memory)
        ⊎ ((later : Said) → and_said number text.now later ≡ Err fault)) }
{
    if is_passed_over(text) {
        return Ok(());
    }
    let line = read_line(alloc, number, text)?;
    lines.push(line)?;
    Ok(())
}
