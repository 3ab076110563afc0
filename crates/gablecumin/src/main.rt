//! The program: runs its arguments over standard output, the files of the current folder and the
//! eight disks of units, each in a file of the current folder, and exits with the status of the
//! run. A file is opened at the first call of its disk: none but those of the disks that are used,
//! and none for two of them.
#![tactic(auto)]

ghost use Rattle.std.specs.Prelude.{◌≡◌};
ghost use Rattle.std.specs.Process.{exit_status};

use disk_model::{FileDisk, Fused, OpenedFiles};
use load_base::{StdHost, StdSink};
use loader_cli::{Ended, run};
use std::alloc::{AllocError, Global};
use std::env;
use std::io::ErrorKind;
use std::mem::forget;
use std::process::ExitCode;
use std::rt::Env;

const OUT_OF_MEMORY: u8 = 6;

fn main(rt: HostRuntime) -> ExitCode {
    let alloc = rt.alloc();
    let Ok(words) = words_of(alloc, &rt) else {
        return ExitCode::from(OUT_OF_MEMORY);
    };
    let mut host = StdHost::new(&rt);
    let mut out = StdSink::new(&rt);
    let opened = OpenedFiles::new();
    let mut disks = [
        Fused::new(FileDisk::new(&rt, &opened, "target.disk")),
        Fused::new(FileDisk::new(&rt, &opened, "target2.disk")),
        Fused::new(FileDisk::new(&rt, &opened, "target3.disk")),
        Fused::new(FileDisk::new(&rt, &opened, "target4.disk")),
        Fused::new(FileDisk::new(&rt, &opened, "target5.disk")),
        Fused::new(FileDisk::new(&rt, &opened, "target6.disk")),
        Fused::new(FileDisk::new(&rt, &opened, "target7.disk")),
        Fused::new(FileDisk::new(&rt, &opened, "target8.disk")),
    ];
    let ended = run(alloc, &words, &mut host, &mut out, &mut disks);
    let exit = exit_of(&ended);
    // The system takes back what a run came to; piece by piece that took longer.
    forget(ended);
    exit
}

/// The status of the run.
fn exit_of(ended: &Ended) -> ExitCode
    ensures { exit_status result ≡ ended.now.status }
{
    ExitCode::from(ended.status)
}

/// The arguments after the program's name. Where one of them isn't UTF-8, one empty argument stands
/// for them all: no command has an empty argument, so either is refused.
fn words_of(alloc: Global, rt: &(impl Env + AllocGlobal)) -> Result<Vec<String>, AllocError> {
    let mut words = Vec::new(alloc);
    match env::args(rt) {
        Ok(args) => {
            for word in args.skip(1) {
                words.push(word)?;
            }
        }
        Err(fault) if fault.kind() == ErrorKind::OutOfMemory => return Err(AllocError),
        Err(_) => words.push(String::new(alloc))?,
    }
    Ok(words)
}
