//! What a file that arrived comes to.
ghost use Rattle.std.specs.Prelude.{◌≡◌, ◌≢◌, None, true, IfOk, OnOk};
ghost use Rattle.load_protocol_files.specs.declared.fault.FileFault.TheVariants.{Memory};
ghost use Rattle.load_protocol_files.specs.Lcl.{lcl};
ghost use Rattle.session_rules.specs.LoaderRows.{Comes_to, Reads_lci, Reads_lui};
ghost use Rattle.session_rules.specs.LoaderRows.{Serves_files};
ghost use Rattle.session_rules.specs.LoaderRows.{Takes_lcl, Takes_lcs, Takes_lus, answered};
ghost use Rattle.session_rules.specs.LoaderRows.{bad_file, bytes_turn, fault_offset, file_turn};
ghost use Rattle.session_rules.specs.LoaderRows.{reported};
ghost use Rattle.loader_machine.specs.Machine.{ListsNothing, is_row_of, listed_at, listed_in};
ghost use Rattle.loader_machine.specs.Machine.{row_seen, turn_seen};
ghost use Rattle.session_rules.specs.declared.outcome.SessionKind.{SessionKind};
ghost use Rattle.session_rules.specs.declared.outcome.SessionKind.TheVariants.{Info};

use crate::row::Row;
use load_base::{NoMemory, Text};
use load_protocol_files::{FileFault, Lci, Lcl, Lcs, Lui, Lus};
use session_files::FileBuffer;
use session_rules::{FileKind, Outcome};
use std::alloc::Global;

/// The statuses of protocol files (docs/FORMATS.md, "Protocol files").
const ACCEPTED: u16 = 0x0001;

const IN_PROGRESS: u16 = 0x0002;

const COMPLETED: u16 = 0x0003;

const DENIED: u16 = 0x1000;

const STOPPED: u16 = 0x1003;

/// What the end of a transfer comes to.
#[derive(Drop)]
pub(crate) enum Turn {
    /// The row is finished.
    GoesOn,
    /// The session ends.
    ComesTo {
        outcome: Outcome,
        /// What an LCL says.
        listed: Option<Lcl>,
    },
}

impl Turn {
    /// The session ends, and nothing is listed.
    pub(crate) fn end(outcome: Outcome) -> Turn
        ensures is { turn_seen result ≡ Comes_to outcome }
        ensures listed { listed_in result ≡ None }
    {
        Turn::ComesTo {
            outcome,
            listed: None,
        }
    }

    /// A file that isn't what its row asks for, from this offset on.
    fn bad_file(kind: FileKind, offset: u64) -> Turn
        ensures is { turn_seen result ≡ bad_file kind offset }
        ensures listed { ListsNothing result }
    {
        Turn::end(Outcome::BadFile { kind, offset })
    }

    /// A file that isn't in its format.
    fn unread(kind: FileKind, fault: FileFault) -> Result<Turn, NoMemory>
        ensures is { IfOk result (λ turn. turn_seen turn ≡ bad_file kind (fault_offset fault)) }
        ensures listed { IfOk result (λ turn. ListsNothing turn) }
        ensures memory { OnOk result (fault ≢ Memory) }
    {
        let offset = match fault {
            FileFault::Memory => return Err(NoMemory),
            FileFault::Length { .. } => 0,
            FileFault::Version(_) => 4,
            FileFault::Short(offset) | FileFault::Digits(offset) | FileFault::Rest(offset) =>
                offset,
            FileFault::Name { place, .. }
            | FileFault::Part { place, .. }
            | FileFault::Text { place, .. } => place,
        };
        Ok(Turn::bad_file(kind, offset))
    }

    /// An LCI or LUI with this status: the operation is accepted or denied.
    fn answered(kind: FileKind, status: u16, description: Text) -> Turn
        ensures is { turn_seen result ≡ answered kind status description }
        ensures listed { ListsNothing result }
    {
        match status {
            ACCEPTED => Turn::GoesOn,
            DENIED => Turn::end(Outcome::Denied(description)),
            _ => Turn::bad_file(kind, 6),
        }
    }

    /// An LCS or LUS with this status, which stands at an offset: the operation goes on where it is
    /// the one expected, or was stopped.
    fn reported(expected: u16, kind: FileKind, offset: u64, status: u16, description: Text) -> Turn
        ensures is { turn_seen result ≡ reported expected kind offset status description }
        ensures listed { ListsNothing result }
    {
        if status == expected {
            Turn::GoesOn
        } else if status == STOPPED {
            Turn::end(Outcome::TargetStopped(description))
        } else {
            Turn::bad_file(kind, offset)
        }
    }

    /// What a file comes to that arrived whole in this row.
    #[tactic(auto, unfolding(session_rules::specs::LoaderRows::file_turn))]
    pub(crate) fn of_file(alloc: Global, row: Row, file: &FileBuffer) -> Result<Turn, NoMemory>
        ensures is { IfOk result (λ turn. turn_seen turn ≡ file_turn (row_seen row) file.now) }
        ensures listed { (kind : SessionKind) → is_row_of kind (row_seen row) ≡ true → IfOk result
            (λ turn. listed_in turn ≡ listed_at kind (turn_seen turn) file.now.prefix) }
    {
        if file.is_too_long() {
            return Ok(Turn::bad_file(row.kind_received(), 65_536));
        }
        Turn::of_bytes(alloc, row, file.prefix())
    }

    /// The same of the bytes of a file that isn't too long.
    fn of_bytes(alloc: Global, row: Row, bytes: &[u8]) -> Result<Turn, NoMemory>
        ensures is { IfOk result (λ turn. turn_seen turn ≡ bytes_turn (row_seen row) bytes.now) }
        ensures listed { (kind : SessionKind) → is_row_of kind (row_seen row) ≡ true → IfOk result
            (λ turn. listed_in turn ≡ listed_at kind (turn_seen turn) bytes.now) }
    {
        match row {
            Row::ReadsLci => Turn::of_lci(alloc, bytes),
            Row::TakesLcs => Turn::of_lcs(alloc, bytes),
            Row::TakesLcl => Turn::of_lcl(alloc, bytes),
            Row::ReadsLui => Turn::of_lui(alloc, bytes),
            Row::TakesLus => Turn::of_first_lus(alloc, bytes),
            Row::WritesLur => Ok(Turn::GoesOn),
            Row::ServesFiles => Turn::of_later_lus(alloc, bytes),
        }
    }

    fn of_lci(alloc: Global, bytes: &[u8]) -> Result<Turn, NoMemory>
        ensures is { IfOk result (λ turn. turn_seen turn ≡ bytes_turn Reads_lci bytes.now) }
        ensures listed { IfOk result (λ turn. ListsNothing turn) }
    {
        match Lci::decode(alloc, bytes) {
            Ok(lci) => Ok(Turn::answered(FileKind::Lci, lci.status, lci.description)),
            Err(fault) => Turn::unread(FileKind::Lci, fault),
        }
    }

    fn of_lui(alloc: Global, bytes: &[u8]) -> Result<Turn, NoMemory>
        ensures is { IfOk result (λ turn. turn_seen turn ≡ bytes_turn Reads_lui bytes.now) }
        ensures listed { IfOk result (λ turn. ListsNothing turn) }
    {
        match Lui::decode(alloc, bytes) {
            Ok(lui) => Ok(Turn::answered(FileKind::Lui, lui.status, lui.description)),
            Err(fault) => Turn::unread(FileKind::Lui, fault),
        }
    }

    fn of_lcs(alloc: Global, bytes: &[u8]) -> Result<Turn, NoMemory>
        ensures is { IfOk result (λ turn. turn_seen turn ≡ bytes_turn Takes_lcs bytes.now) }
        ensures listed { IfOk result (λ turn. ListsNothing turn) }
    {
        match Lcs::decode(alloc, bytes) {
            Ok(lcs) => Ok(Turn::reported(
                IN_PROGRESS,
                FileKind::Lcs,
                8,
                lcs.status,
                lcs.description,
            )),
            Err(fault) => Turn::unread(FileKind::Lcs, fault),
        }
    }

    fn of_lcl(alloc: Global, bytes: &[u8]) -> Result<Turn, NoMemory>
        ensures is { IfOk result (λ turn. turn_seen turn ≡ bytes_turn Takes_lcl bytes.now) }
        ensures listed { IfOk result
            (λ turn. listed_in turn ≡ listed_at Info (turn_seen turn) bytes.now) }
    {
        match Lcl::decode(alloc, bytes) {
            Ok(lcl) => Ok(Turn::ComesTo {
                outcome: Outcome::Completed,
                listed: Some(lcl),
            }),
            Err(fault) => Turn::unread(FileKind::Lcl, fault),
        }
    }

    /// The LUS before the request.
    fn of_first_lus(alloc: Global, bytes: &[u8]) -> Result<Turn, NoMemory>
        ensures is { IfOk result (λ turn. turn_seen turn ≡ bytes_turn Takes_lus bytes.now) }
        ensures listed { IfOk result (λ turn. ListsNothing turn) }
    {
        match Lus::decode(alloc, bytes) {
            Ok(lus) => Ok(Turn::reported(ACCEPTED, FileKind::Lus, 6, lus.status, lus.description)),
            Err(fault) => Turn::unread(FileKind::Lus, fault),
        }
    }

    /// A later one.
    fn of_later_lus(alloc: Global, bytes: &[u8]) -> Result<Turn, NoMemory>
        ensures is { IfOk result (λ turn. turn_seen turn ≡ bytes_turn Serves_files bytes.now) }
        ensures listed { IfOk result (λ turn. listed_in turn ≡ None) }
    {
        match Lus::decode(alloc, bytes) {
            Ok(lus) if lus.status == COMPLETED => Ok(Turn::end(Outcome::Completed)),
            Ok(lus) => Ok(Turn::reported(
                IN_PROGRESS,
                FileKind::Lus,
                6,
                lus.status,
                lus.description,
            )),
            Err(fault) => Turn::unread(FileKind::Lus, fault),
        }
    }
}
