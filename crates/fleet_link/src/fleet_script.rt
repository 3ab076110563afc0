//! Scripts of fleets as they are read.
ghost use Rattle.std.specs.Prelude.{◌≡◌, ◌⊎◌, ◌≤◌, length, Ok, Err, IsOk, IsErr, IfOk, IfErr, OnOk};
ghost use Rattle.text_words.specs.Words.{written_lines};
ghost use Rattle.exchange_trace.specs.declared.fault.ScriptFault.TheVariants.{Memory};
ghost use Rattle.fleet_trace.specs.FleetScripts.{fleet_lines_said, fleet_script_said};
ghost use Rattle.link_net.specs.Reading.{and_later};
ghost use Rattle.fleet_link.specs.Lines.{fleet_line_views};
ghost use Rattle.fleet_link.specs.Reading.{FleetSaid, and_fleet_said};

use crate::fleet_line::{FleetLine, read_fleet_line};
use exchange_trace::ScriptFault;
use load_base::List;
use std::alloc::Global;
use std::marker::Model;
use text_words::{cut, is_passed_over};

/// The most bytes that a script has.
const LONGEST_SCRIPT: usize = 1_000_000;

/// The script of a fleet: what happens between one loader and so many targets, line by line.
///
/// A contract sees the number of units, and the lines that aren't passed over, in their order.
#[derive(Drop)]
pub struct FleetScript {
    pub(crate) units: u8,
    pub(crate) lines: List<FleetLine>,
}

impl Model for FleetScript {
    ghost use Rattle.fleet_link.specs.Lines.{AreAtUnits, FleetScriptView, fleet_line_views};

    ghost Value = { FleetScriptView };

    ghost view = { λ script. record {
      units = script.units;
      lines = fleet_line_views script.lines.items;
    } };

    // A line of a unit is of one of these.
    ghost invariant = { λ script. AreAtUnits script.units (fleet_line_views script.lines.items) };
}

impl FleetScript {
    /// Reads a whole text as a script of so many units. A text of more than 1,000,000 bytes is
    /// refused first, and then the first line that is wrong.
    #[tactic(auto, unfolding(fleet_trace::specs::FleetScripts::fleet_script_said))]
    pub fn read(alloc: Global, bytes: &[u8], units: u8) -> Result<FleetScript, ScriptFault>
        // What is read is what the text says.
        ensures found { IfOk result (λ script. fleet_script_said units bytes.now
            ≡ Ok script.lines) }
        ensures units { IfOk result (λ script. script.units ≡ units) }
        // A refusal is the text's first fault, or out of memory.
        ensures refused { IfErr result (λ fault. (fault ≡ Memory)
            ⊎ (fleet_script_said units bytes.now ≡ Err fault)) }
        // So what the text says is read, unless it is out of memory, and a text with a fault isn't.
        ensures only { IsOk (fleet_script_said units bytes.now)
            → IfErr result (λ fault. fault ≡ Memory) }
        ensures faulty { IsErr (fleet_script_said units bytes.now) → IsErr result }
    {
        if bytes.len() > LONGEST_SCRIPT {
            return Err(ScriptFault::TooLong);
        }
        match read_lines(alloc, bytes, units) {
            Ok(lines) => Ok(FleetScript { units, lines }),
            Err(fault) => Err(fault),
        }
    }

    /// For how many units it was read.
    pub fn unit_count(&self) -> u8
        ensures { result ≡ self.now.units }
    {
        self.units
    }

    /// How many lines say something.
    pub fn line_count(&self) -> usize
        ensures { result ≡ length self.now.lines }
    {
        self.lines.len()
    }
}

/// The lines of a text.
fn read_lines(alloc: Global, bytes: &[u8], units: u8) -> Result<List<FleetLine>, ScriptFault>
    requires { length bytes.now ≤ 1000000 }
    ensures found { IfOk result (λ lines. fleet_lines_said units (written_lines bytes.now)
        ≡ Ok (fleet_line_views lines.items)) }
    ensures refused { IfErr result (λ fault. (fault ≡ Memory)
        ⊎ (fleet_lines_said units (written_lines bytes.now) ≡ Err fault)) }
{
    let mut lines = List::new(alloc);
    let mut number = 1;
    let mut left = Some(bytes);
    while let Some(text) = left {
        let (line, rest) = cut(text, b'\n');
        if let Err(fault) = take_line(alloc, &mut lines, number, units, line) {
            return Err(fault);
        }
        number += 1;
        left = rest;
    }
    Ok(lines)
}

/// Adds what a line says, unless it is passed over.
fn take_line(
    alloc: Global,
    lines: &mut List<FleetLine>,
    number: u64,
    units: u8,
    text: &[u8],
) -> Result<(), ScriptFault>
    ensures taken { OnOk result ((later : FleetSaid)
        → and_later (fleet_line_views lines.old.items) (and_fleet_said number units text.now later)
        ≡ and_later (fleet_line_views lines.new.items) later) }
    ensures refused { IfErr result (λ fault. (fault ≡ Memory)
        ⊎ ((later : FleetSaid) → and_fleet_said number units text.now later ≡ Err fault)) }
{
    if is_passed_over(text) {
        return Ok(());
    }
    let line = read_fleet_line(alloc, number, units, text)?;
    lines.push(line)?;
    Ok(())
}
