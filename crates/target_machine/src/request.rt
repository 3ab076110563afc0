//! What the target asks for in a row, and the files that it writes and gives.
ghost use Rattle.std.specs.Prelude.{◌≡◌, ◌≤◌, ◌∷◌, [], ℕ, List, length, map, true, IfOk};
ghost use Rattle.disk_layout.specs.Manifest.{entry_view};
ghost use Rattle.exchange_trace.specs.Happenings.{datagram_view};
ghost use Rattle.exchange_trace.specs.declared.trace.Side.TheVariants as sides;
ghost use Rattle.load_base.specs.Host.{longest_file};
ghost use Rattle.transfer_end.specs.Calls.{Makes, posted};
ghost use Rattle.tftp_packet.specs.Options.{AreInRange};
ghost use Rattle.transfer_end.specs.Moves.{Asks, Serves};
ghost use Rattle.transfer_end.specs.Packets.{has_port, wanted_options};
ghost use Rattle.transfer_end.specs.Transfers.{ServesRead, Writes};
ghost use Rattle.session_rules.specs.declared.outcome.SessionKind.{SessionKind as SessionKindState};
ghost use Rattle.session_rules.specs.FileNames.{file_name as name_of};
ghost use Rattle.session_rules.specs.Target.{TargetView, last_lus as last_bytes, own_file};
ghost use Rattle.session_rules.specs.Target.{row_request};
ghost use Rattle.session_rules.specs.TargetRows.{first_row};
ghost use Rattle.load_intake.specs.Intakes.{end_view};
ghost use Rattle.target_machine.specs.Decisions.{asked_by, is_asking, kind_given};
ghost use Rattle.target_machine.specs.Machine.{row_seen};

use crate::row::Row;
use disk_layout::{Identity, ManifestLoad};
use exchange_trace::{Datagram, Side};
use load_base::{Bytes, NoMemory};
use load_intake::UploadEnd;
use session_files::{
    accepting_lui, completed_lus, denying_lui, file_name, lci_file, lcl_file, lcs_file,
    progress_lus, ready_lus, stopped_lus,
};
use session_rules::FileKind;
use std::alloc::Global;
use tftp_link::FileBytes;
use tftp_packet::Options;
use transfer_end::TransferEnd;

/// Asks for what this row asks for, if that is the target's to ask.
pub(crate) fn request(
    alloc: Global,
    end: &mut TransferEnd<'_>,
    identity: &Identity,
    loads: &[ManifestLoad],
    row: &Row,
) -> Result<Option<Datagram>, NoMemory>
    requires port { is_asking (row_seen [] row.now) ≡ true → has_port end.old ≡ true }
    requires loads { length loads.now ≤ 32 }
    ensures { (v : TargetView) → v.end ≡ end.old → v.active.identity ≡ identity.now
        → v.active.loads ≡ map entry_view loads.now → IfOk result (λ post. Makes sides.Target
        (asked_by (row_request v (row_seen v.active.loads row.now))) end.old end.new
        (posted post)) }
{
    match row {
        Row::GivesLci | Row::GivesLui | Row::GivesDenial | Row::AwaitsLur => Ok(None),
        Row::WritesLcs => ask_to_write(end, identity, FileKind::Lcs, lcs_file(alloc)?),
        Row::WritesLcl => {
            let file = lcl_file(alloc, identity, loads)?;
            ask_to_write(end, identity, FileKind::Lcl, file)
        }
        Row::WritesReady => ask_to_write(end, identity, FileKind::Lus, ready_lus(alloc)?),
        Row::ReadsFile(intake) => {
            let options = end.wanted_options(0);
            Ok(Some(end.ask_to_read(Side::Target, intake.next_name(), options)?))
        }
        Row::WritesProgress(intake) => {
            let arrived = intake.arrived();
            let request = intake.request().as_slice();
            let file = progress_lus(alloc, request, usize::from(arrived), arrived + 1)?;
            ask_to_write(end, identity, FileKind::Lus, file)
        }
        Row::WritesStop(ended) | Row::WritesCompletion(ended) => {
            let file = last_lus(alloc, ended)?;
            ask_to_write(end, identity, FileKind::Lus, file)
        }
    }
}

/// The last LUS of an upload.
fn last_lus(alloc: Global, ended: &UploadEnd) -> Result<Bytes, NoMemory>
    ensures is { IfOk result (λ bytes. bytes.items
        ≡ last_bytes (end_view ended.now) ended.now.reason) }
    ensures short { IfOk result (λ bytes. length bytes.items ≤ longest_file) }
{
    let request = ended.request.as_slice();
    match &ended.reason {
        None => completed_lus(alloc, request, ended.reports),
        Some(reason) => stopped_lus(
            alloc,
            request,
            usize::from(ended.arrived),
            ended.reports,
            reason,
        ),
    }
}

/// Asks to write one of the target's own files.
fn ask_to_write(
    end: &mut TransferEnd<'_>,
    identity: &Identity,
    kind: FileKind,
    file: Bytes,
) -> Result<Option<Datagram>, NoMemory>
    requires port { has_port end.old ≡ true }
    requires short { length file.items ≤ longest_file }
    ensures { IfOk result (λ post. Makes sides.Target (Asks (Writes
        (name_of identity.now.hw identity.now.pos kind)
        (wanted_options end.old.asks_size (length file.items)) file.items) ∷ [])
        end.old end.new (posted post)) }
{
    let name = file_name(&identity.hw, &identity.pos, kind);
    let options = end.wanted_options(file.len());
    Ok(Some(end.ask_to_write(Side::Target, name, options, FileBytes::Owned(file))?))
}

/// Serves the file of an operation's first row to the port that asks to read it.
pub(crate) fn serve_first(
    alloc: Global,
    end: &mut TransferEnd<'_>,
    from: u16,
    options: Options,
    row: &Row,
) -> Result<Datagram, NoMemory>
    requires port { has_port end.old ≡ true }
    requires options { AreInRange options }
    ensures { (kind : SessionKindState) (sequence : ℕ) (name : List ℕ) → row_seen [] row.now
        ≡ first_row (kind_given kind) sequence → IfOk result (λ post. Makes sides.Target
        (Serves from (ServesRead name options (own_file (kind_given kind) sequence)) ∷ [])
        end.old end.new (datagram_view post ∷ [])) }
{
    let file = given_file(alloc, row)?;
    end.serve_read(Side::Target, from, options, FileBytes::Owned(file))
}

/// The file that is given in the first row of an operation.
fn given_file(alloc: Global, row: &Row) -> Result<Bytes, NoMemory>
    ensures is { (kind : SessionKindState) (sequence : ℕ) → row_seen [] row.now
        ≡ first_row (kind_given kind) sequence → IfOk result (λ bytes. bytes.items
        ≡ own_file (kind_given kind) sequence) }
    ensures short { IfOk result (λ bytes. length bytes.items ≤ longest_file) }
{
    match row {
        Row::GivesLui => accepting_lui(alloc),
        Row::GivesDenial => denying_lui(alloc),
        _ => lci_file(alloc),
    }
}
