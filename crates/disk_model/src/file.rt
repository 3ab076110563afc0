//! A disk in a file. Nothing is told of what the file holds.
ghost use Rattle.std.specs.Prelude.{◌≡◌, ◌+◌, ◌<◌, ◌≤◌, true, false, is_err};
ghost use Rattle.std.specs.Prelude.{IsErrOf, OnOk, OnErr};
ghost use Rattle.std.proofs.Common.{inl};
ghost use Rattle.load_base.specs.Counts.{Rose};
ghost use Rattle.disk_model.specs.State.{untold_reads};

use crate::disk::refuse;
use crate::held_file::{HeldFile, LockedFile};
use crate::{Disk, DiskFault, OpenedFiles};
use load_base::FaultCount;
use std::fs::File;
use std::io::{self, ErrorKind};
use std::rt::Files;

/// A disk in a file; bytes past its end read as zero. The file is opened, locked and synced at the
/// first call, and stays so until this object goes: another program waits for that, and another
/// disk of the same `OpenedFiles` fails. A missing file reads as zeros until the first write, which
/// makes it. An error of the system is a fault of the disk. `restart` writes out what the file
/// holds.
///
/// Once the system couldn't write out what it holds, it may have lost it while it still reads it:
/// from then on each call fails, of this disk and also after a restart. So it is where another run
/// made the file that was missing at first.
#[derive(Drop)]
pub struct FileDisk<'r, R: Files<File = File>> {
    file: DiskFile<'r, R>,
    clock: u64,
    faults: FaultCount,
    stopped: bool,
}

impl<'r, R: Files<File = File>> FileDisk<'r, R> {
    ghost use Rattle.disk_model.specs.FileDisk.{name_of, state_of};

    /// The disk in the file of this name, which is not opened yet, beside those of a program that
    /// opened these. All disks of a program take one `OpenedFiles`: one of another would wait for
    /// the lock of its own program for ever, where the file is the same.
    pub fn new(rt: &'r R, opened: &'r OpenedFiles, name: &'r str) -> FileDisk<'r, R>
        ensures name { name_of result ≡ name.now }
        ensures running { (state_of result).stopped ≡ false }
        ensures steady { (state_of result).steady ≡ true }
        ensures no_faults { ((state_of result).faults ≡ 0) × ((state_of result).refusals ≡ 0) }
    {
        FileDisk {
            file: DiskFile {
                rt,
                opened,
                name,
                found: Found::NotYet,
                is_lost: false,
            },
            clock: 0,
            faults: FaultCount::new(),
            stopped: false,
        }
    }
}

impl<R: Files<File = File>> Disk for FileDisk<'_, R> {
    ghost use Rattle.disk_model.specs.FileDisk.{state_of};

    ghost state = { state_of };

    ghost reads_now = { λ d. untold_reads };

    ghost counts_now = { λ d t u image from to is. is };

    ghost only_now = { λ d t u image from is. is };

    ghost wider = { λ d s t u v image from to is. is };

    ghost splits = { λ d t u v image from to is. inl is };

    fn read(&mut self, at: u32, buf: &mut [u8]) -> Result<(), DiskFault> {
        let outcome = self.file.read_at(at, buf);
        answer(outcome, &mut self.faults, &mut self.stopped)
    }

    fn write(&mut self, at: u32, bytes: &[u8]) -> Result<(), DiskFault> {
        let outcome = match advance(&mut self.clock) {
            Ok(()) => self.file.write_at(at, bytes),
            Err(fault) => Err(fault),
        };
        answer(outcome, &mut self.faults, &mut self.stopped)
    }

    fn sync(&mut self) -> Result<(), DiskFault> {
        let outcome = match advance(&mut self.clock) {
            Ok(()) => self.file.sync(),
            Err(fault) => Err(fault),
        };
        answer(outcome, &mut self.faults, &mut self.stopped)
    }

    fn restart(&mut self) -> Result<(), DiskFault> {
        let outcome = match advance(&mut self.clock) {
            Ok(()) => self.file.sync(),
            Err(fault) => Err(fault),
        };
        answer(outcome, &mut self.faults, &mut self.stopped)
    }
}

/// Advances the clock. At the greatest `u64` it can't, and the call fails.
fn advance(clock: &mut u64) -> io::Result<()>
    ensures later { clock.old ≤ clock.new }
    ensures advances { OnOk result (clock.old < clock.new) }
{
    let Some(next) = clock.checked_add(1) else {
        return Err(io::Error::from(ErrorKind::Other));
    };
    *clock = next;
    Ok(())
}

/// An error of the system is a fault of the disk, and stops it.
fn answer(
    outcome: io::Result<()>,
    faults: &mut FaultCount,
    stopped: &mut bool,
) -> Result<(), DiskFault>
    ensures answered { is_err result ≡ is_err outcome }
    ensures stops { stopped.new ≡ is_err result }
    ensures later { faults.old ≤ faults.new }
    ensures kept { OnOk result (faults.new ≡ faults.old) }
    ensures once { faults.new ≤ faults.old + 1 }
    ensures failed { OnErr result (Rose faults.old faults.new) }
    ensures only_failed { ¬ IsErrOf result DiskFault.Memory }
{
    match outcome {
        Ok(()) => {
            *stopped = false;
            Ok(())
        }
        Err(_) => {
            refuse(faults, stopped);
            Err(DiskFault::Failed)
        }
    }
}

/// The file of a disk.
#[derive(Drop)]
struct DiskFile<'r, R: Files<File = File>> {
    rt: &'r R,
    opened: &'r OpenedFiles,
    name: &'r str,
    found: Found,
    // Whether what was written, or read as missing, may not hold any more.
    is_lost: bool,
}

/// What the first call found under the file's name.
#[derive(Drop)]
enum Found {
    NotYet,
    Nothing,
    File(HeldFile),
}

impl<R: Files<File = File>> DiskFile<'_, R> {
    /// In no file all reads as zero.
    fn read_at(&mut self, at: u32, buf: &mut [u8]) -> io::Result<()> {
        self.find()?;
        if let Found::File(file) = &self.found {
            return file.read_at(at, buf);
        }
        buf.fill(0);
        Ok(())
    }

    fn write_at(&mut self, at: u32, bytes: &[u8]) -> io::Result<()> {
        self.find()?;
        self.make()?;
        match &self.found {
            Found::File(file) => file.write_at(at, bytes),
            _ => Err(io::Error::from(ErrorKind::Other)),
        }
    }

    /// Writes out what the file holds.
    fn sync(&mut self) -> io::Result<()> {
        self.find()?;
        if let Found::File(file) = &self.found {
            let written = file.sync();
            self.is_lost = written.is_err();
            return written;
        }
        Ok(())
    }

    /// Opens the file at the first call.
    fn find(&mut self) -> io::Result<()> {
        if self.is_lost {
            return Err(io::Error::from(ErrorKind::Other));
        }
        if !matches!(self.found, Found::NotYet) {
            return Ok(());
        }
        match LockedFile::open(self.rt, self.opened, self.name)? {
            Some(locked) => self.hold(locked),
            None => {
                self.found = Found::Nothing;
                Ok(())
            }
        }
    }

    /// Makes the file where there was none.
    fn make(&mut self) -> io::Result<()> {
        if !matches!(self.found, Found::Nothing) {
            return Ok(());
        }
        match LockedFile::create(self.rt, self.opened, self.name) {
            Ok(locked) => self.hold(locked),
            Err(fault) => {
                self.is_lost = fault.kind() == ErrorKind::AlreadyExists;
                Err(fault)
            }
        }
    }

    fn hold(&mut self, locked: LockedFile) -> io::Result<()> {
        self.is_lost = true;
        self.found = Found::File(locked.synced(self.rt, self.name)?);
        self.is_lost = false;
        Ok(())
    }
}
