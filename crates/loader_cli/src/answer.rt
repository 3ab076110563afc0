//! What a run answers, with its status and its text.
ghost use Rattle.std.specs.Prelude.{◌≡◌, None, IfOk};
ghost use Rattle.loader_cli.specs.Answers.{status_of, text_of};

use crate::text::{no_configuration_text, no_former_text, refused_text};
use bank_rollback::RollbackFault;
use load_base::{Bytes, NoMemory, Text};
use recovery::RecoverFault;
use std::alloc::Global;
use target_fleet::FleetDrive;
use upload_replay::Drive;

/// What a run answers where its output goes through.
#[derive(Drop)]
pub(crate) enum Answer<'w> {
    /// What was asked for, as it is printed.
    Done(Bytes),
    /// What is wrong with a media set, as it is printed.
    Findings(Bytes),
    /// What a run came to in which not every session was completed, as it is printed.
    Unfinished(Bytes),
    /// The arguments are no command.
    RefusedWords,
    /// There is no file of this name.
    Absent(&'w [u8]),
    /// The file of this name has too many bytes.
    TooLong(&'w [u8]),
    /// There is no source, and no list of a media set, of this name.
    AbsentFile(Bytes),
    /// The file of a media set, or the source, of this name has too many bytes.
    TooLongFile(Bytes),
    /// The files of the media set in this folder, or of this recipe, have too many bytes together.
    TooLarge(&'w [u8]),
    /// The file of this name fails at the fault of this text.
    RefusedInput { name: &'w [u8], fault: Text },
    /// The list of a media set of this name fails at the fault of this text.
    RefusedFile { name: Bytes, fault: Text },
    HostFault,
    DiskFault,
    /// The disk holds no configuration.
    NoConfiguration(RecoverFault),
    /// The disk holds no former configuration, or no sequence number is left for it.
    NoFormer(RollbackFault),
}

/// What a run answers, and what a script came to, where it ran one to its end: one of a single
/// target, or one of a fleet.
#[derive(Drop)]
pub(crate) struct Answered<'w> {
    pub(crate) answer: Answer<'w>,
    pub(crate) drive: Option<Drive>,
    pub(crate) fleet: Option<FleetDrive>,
}

impl<'w> Answered<'w> {
    /// An answer without a run.
    pub(crate) fn of(answer: Answer<'w>) -> Answered<'w>
        ensures answer { result.answer ≡ answer.entry }
        ensures drive { result.drive ≡ None }
        ensures fleet { result.fleet ≡ None }
    {
        Answered {
            answer,
            drive: None,
            fleet: None,
        }
    }
}

impl Answer<'_> {
    pub(crate) fn status(&self) -> u8
        ensures { result ≡ status_of self.now }
    {
        match self {
            Answer::Done(_) => 0,
            Answer::Findings(_) | Answer::Unfinished(_) => 1,
            Answer::RefusedWords => 2,
            Answer::Absent(_) | Answer::TooLong(_) | Answer::RefusedInput { .. } => 3,
            Answer::AbsentFile(_) | Answer::TooLongFile(_) | Answer::TooLarge(_) => 3,
            Answer::RefusedFile { .. } => 3,
            Answer::HostFault => 4,
            Answer::DiskFault => 5,
            Answer::NoConfiguration(_) => 8,
            Answer::NoFormer(_) => 9,
        }
    }

    /// The text that is printed.
    pub(crate) fn into_text(self, alloc: Global) -> Result<Bytes, NoMemory>
        ensures { IfOk result (λ text. text.items ≡ text_of self.entry) }
    {
        match self {
            Answer::Done(text) | Answer::Findings(text) | Answer::Unfinished(text) => Ok(text),
            Answer::RefusedWords => Bytes::copy_of(alloc, b"refused words\n"),
            Answer::Absent(name) => refused_text(alloc, name, b"absent"),
            Answer::TooLong(name) => refused_text(alloc, name, b"toolong"),
            Answer::AbsentFile(name) => refused_text(alloc, name.as_slice(), b"absent"),
            Answer::TooLongFile(name) => refused_text(alloc, name.as_slice(), b"toolong"),
            Answer::TooLarge(folder) => refused_text(alloc, folder, b"toolarge"),
            Answer::RefusedInput { name, fault } => refused_text(alloc, name, fault.as_slice()),
            Answer::RefusedFile { name, fault } => {
                refused_text(alloc, name.as_slice(), fault.as_slice())
            }
            Answer::HostFault => Bytes::copy_of(alloc, b"host fault\n"),
            Answer::DiskFault => Bytes::copy_of(alloc, b"disk fault\n"),
            Answer::NoConfiguration(fault) => no_configuration_text(alloc, fault),
            Answer::NoFormer(fault) => no_former_text(alloc, fault),
        }
    }
}
