//! The files of the system.
ghost use Rattle.std.specs.Prelude.{◌≡◌, ◌≤◌, None, length, IfOk, IfSome, IsErrOf};
ghost use Rattle.load_base.specs.Host.{WritesFile};
ghost use Rattle.load_base.specs.Sink.{HasWriteCause};

use crate::host::{Host, LONGEST_FILE, ReadFault};
use crate::replacing::{LastFolder, replace_file};
use crate::{Bytes, FaultCount, NoMemory, WriteFault, read_some};
use std::alloc::Global;
use std::fs::{self, File};
use std::io::{self, ErrorKind, Read};
use std::os::unix::fs::FileTypeExt;
use std::rt::Files;
use std::str;

/// The host reads files in pieces of this many bytes.
const PIECE: usize = 8192;

/// The files of the system, relative to the current folder. A file is absent only where the system
/// says that there is none of that name; any other error is a fault of the host, and so is a FIFO,
/// which would be waited for. Nothing is told of what files hold.
#[derive(Drop)]
pub struct StdHost<'r, R: Files<File = File>> {
    rt: &'r R,
    faults: FaultCount,
    last: LastFolder,
}

impl<'r, R: Files<File = File>> StdHost<'r, R> {
    /// The files of the system, without faults yet.
    pub fn new(rt: &'r R) -> StdHost<'r, R>
        ensures { ⟦<StdHost<'r, R> as Host>⟧.faults result ≡ 0 }
    {
        StdHost {
            rt,
            faults: FaultCount::new(),
            last: LastFolder::new(),
        }
    }
}

impl<R: Files<File = File>> Host for StdHost<'_, R> {
    ghost files = { λ _. None };

    ghost faults = { λ host. host.faults };

    fn read(&mut self, alloc: Global, name: &[u8]) -> Result<Bytes, ReadFault> {
        match read_file(self.rt, alloc, name) {
            Ok(bytes) => Ok(bytes),
            Err(ReadFault::Failed) => {
                self.faults.rise();
                Err(ReadFault::Failed)
            }
            Err(fault) => Err(fault),
        }
    }

    /// It makes missing folders, and is never out of memory. The file is the old one or the new
    /// one, whole, whenever power is lost, and the new one once it answers Ok.
    fn write(&mut self, name: &[u8], bytes: &[u8]) -> Result<(), WriteFault>
        ensures file { WritesFile None None name.now bytes.now result }
        ensures cause { HasWriteCause self.old.faults self.new.faults result }
        ensures never_memory { ¬ IsErrOf result WriteFault.Memory }
    {
        match write_file(self.rt, &mut self.last, name, bytes) {
            Ok(()) => Ok(()),
            Err(_) => {
                self.faults.rise();
                Err(WriteFault::Failed)
            }
        }
    }
}

fn read_file<R: Files<File = File>>(rt: &R, alloc: Global, name: &[u8]) -> Result<Bytes, ReadFault>
    ensures { IfOk result (λ bytes. length bytes.items ≤ LONGEST_FILE) }
{
    let Ok(name) = str::from_utf8(name) else {
        return Err(ReadFault::Failed);
    };
    match open_file(rt, name) {
        Ok(mut file) => read_whole(&mut file, alloc),
        Err(fault) if fault.kind() == ErrorKind::NotFound => Err(ReadFault::Absent),
        Err(_) => Err(ReadFault::Failed),
    }
}

fn open_file<R: Files<File = File>>(rt: &R, name: &str) -> io::Result<File> {
    if rt.metadata(name)?.file_type().is_fifo() {
        return Err(io::Error::from(ErrorKind::Other));
    }
    fs::open(rt, name)
}

/// Each read but the last gives a byte at least.
fn read_whole<F: Read>(file: &mut F, alloc: Global) -> Result<Bytes, ReadFault>
    ensures limit { IfOk result (λ bytes. length bytes.items ≤ LONGEST_FILE) }
    ensures whole { IfOk result (λ bytes. IfSome (F.remaining file.old)
        (λ told. bytes.items ≡ told)) }
{
    let mut bytes = Bytes::new(alloc);
    let mut piece = [0; PIECE];
    for _ in 0..=LONGEST_FILE {
        let Ok(count) = read_some(file, &mut piece) else {
            return Err(ReadFault::Failed);
        };
        if count == 0 {
            return Ok(bytes);
        }
        if count > LONGEST_FILE - bytes.len() {
            return Err(ReadFault::TooLong);
        }
        if let Err(NoMemory) = bytes.extend(&piece[..count]) {
            return Err(ReadFault::Memory);
        }
    }
    Err(ReadFault::TooLong)
}

fn write_file<R: Files<File = File>>(
    rt: &R,
    last: &mut LastFolder,
    name: &[u8],
    bytes: &[u8],
) -> io::Result<()> {
    let Ok(name) = str::from_utf8(name) else {
        return Err(io::Error::from(ErrorKind::InvalidInput));
    };
    replace_file(rt, last, name, bytes)
}
