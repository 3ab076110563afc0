//! What sessions leave over a link of which each call is refused in turn.
ghost use Rattle.std.specs.Prelude.{◌≡◌, [], IfOk};
ghost use Rattle.bank_store.specs.DiskWrites.{IsRunning};
ghost use Rattle.disk_model.specs.MemDisk.{state_of};
ghost use Rattle.disk_model.specs.Fused.{state_of as fused_in};
ghost use Rattle.link_net.specs.FailLink.{link_in};

use super::power_losses::is_file;
use super::runs::{letters, link_of};
use super::stopped_loads::{HW9_FILES, HW9_HEADER, HW9_LOADS, TYPE_0_FILES, TYPE_0_HEADER};
use super::three_loads::{
    CFG, CFG_HEADER, FILES_ON_1, FILES_ON_2, LOADS_ON_1, LOADS_ON_2, NAV_1, NAV_2, NAV_HEADER,
    NAV_TEXT, OPERATIONS, OPERATIONS_HEADER,
};
use super::two_loads::{BOTH_FILES, BOTH_LOADS, OPS_HEADER};
use accept_rules::{Interlock, PermitsAll};
use disk_layout::{Identity, Standing};
use disk_model::{Disk, Fused, MemDisk};
use exchange_trace::{Side, TraceStep};
use link_net::FailLink;
use load_base::{Bytes, Host, Load, MemHost, NoMemory, StoredFile};
use media_check::{MediaSet, open_set};
use recovery::recover;
use std::alloc::Global;
use std::test::Fail;
use upload_replay::{Drive, DriveFault, drive};
use worked_files::{APP_FILES, APP_HEADER, APP_LOADS, BATCH, BATCH_FILES, BATCH_LIST};

/// The contents of the one file of each of the first two loads.
const BODY: &[u8] = b"123456789";

pub(crate) const ONE_LOAD: [(&[u8], &[u8]); 4] = [
    (b"P/1/LOADS.LUM", &APP_LOADS),
    (b"P/1/FILES.LUM", &APP_FILES),
    (b"P/1/APP.LUH", &APP_HEADER),
    (b"P/1/APP.BIN", BODY),
];

/// The same with a batch.
pub(crate) const WITH_BATCH: [(&[u8], &[u8]); 6] = [
    (b"P/1/LOADS.LUM", &APP_LOADS),
    (b"P/1/FILES.LUM", &BATCH_FILES),
    (b"P/1/BATCHES.LUM", &BATCH_LIST),
    (b"P/1/APP.LUH", &APP_HEADER),
    (b"P/1/APP.BIN", BODY),
    (b"P/1/TWO.LUB", &BATCH),
];

const FOR_HW9: [(&[u8], &[u8]); 4] = [
    (b"P/1/LOADS.LUM", &HW9_LOADS),
    (b"P/1/FILES.LUM", &HW9_FILES),
    (b"P/1/APP.LUH", &HW9_HEADER),
    (b"P/1/APP.BIN", BODY),
];

const OF_TYPE_0: [(&[u8], &[u8]); 4] = [
    (b"P/1/LOADS.LUM", &APP_LOADS),
    (b"P/1/FILES.LUM", &TYPE_0_FILES),
    (b"P/1/APP.LUH", &TYPE_0_HEADER),
    (b"P/1/APP.BIN", BODY),
];

const TWO_LOADS: [(&[u8], &[u8]); 6] = [
    (b"P/1/LOADS.LUM", &BOTH_LOADS),
    (b"P/1/FILES.LUM", &BOTH_FILES),
    (b"P/1/APP.LUH", &APP_HEADER),
    (b"P/1/APP.BIN", BODY),
    (b"P/1/OPS.LUH", &OPS_HEADER),
    (b"P/1/OPS.BIN", BODY),
];

const THREE_LOADS: [(&[u8], &[u8]); 12] = [
    (b"P/1/LOADS.LUM", &LOADS_ON_1),
    (b"P/1/FILES.LUM", &FILES_ON_1),
    (b"P/2/LOADS.LUM", &LOADS_ON_2),
    (b"P/2/FILES.LUM", &FILES_ON_2),
    (b"P/1/NAV.LUH", &NAV_HEADER),
    (b"P/1/NAV1.BIN", &NAV_1),
    (b"P/2/NAV2.BIN", NAV_2),
    (b"P/1/NAV.TXT", NAV_TEXT),
    (b"P/2/OPS.LUH", &OPERATIONS_HEADER),
    (b"P/2/OPS.BIN", OPERATIONS),
    (b"P/2/CFG.LUH", &CFG_HEADER),
    (b"P/2/CFG.BIN", CFG),
];

fn write(host: &mut MemHost, name: &[u8], bytes: &[u8]) -> Result<(), Fail> {
    match host.write(name, bytes) {
        Ok(()) => Ok(()),
        Err(_) => Err(Fail::new("the host is out of memory")),
    }
}

fn write_and_open(
    alloc: Global,
    host: &mut MemHost,
    files: &[(&[u8], &[u8])],
) -> Result<MediaSet, Fail> {
    for &(name, bytes) in files {
        write(host, name, bytes)?;
    }
    match open_set(alloc, host, b"P") {
        Ok(set) => Ok(set),
        Err(fault) => {
            drop(fault);
            Err(Fail::new("the set wasn't opened"))
        }
    }
}

/// The set of these files.
pub(crate) fn opened(alloc: Global, files: &[(&[u8], &[u8])]) -> Result<MediaSet, Fail> {
    let mut host = MemHost::new(alloc);
    let opened = write_and_open(alloc, &mut host, files);
    drop(host);
    opened
}

/// A target: its hardware, position and serial number, the size of its banks, and the bytes of its
/// identity, with zeros after them.
#[derive(Clone, Copy)]
pub(crate) struct UnitUnderTest<'a> {
    hw: &'a [u8],
    pos: &'a [u8],
    serial: &'a [u8],
    bank: u32,
    pub(crate) identity: &'a [u8; 25],
}

pub(crate) const HW1: UnitUnderTest<'static> = UnitUnderTest {
    hw: b"HW1",
    pos: b"L",
    serial: b"SN1",
    bank: 4096,
    identity: b"A615\0\x01\0\0\x10\0\x03HW1\x01L\x03SN1\xB4\x3C\0\0\0",
};

const FMC_1: UnitUnderTest<'static> = UnitUnderTest {
    hw: b"FMC-1",
    pos: b"R",
    serial: b"SN77",
    bank: 65_536,
    identity: b"A615\0\x01\0\x01\0\0\x05FMC-1\x01R\x04SN77\xA3\x3E",
};

/// A load that a session brings: its part number, the name of its header, and how many files it has
/// with the header.
type Brought<'a> = (&'a [u8], &'a [u8], usize);

const APP: Brought<'static> = (b"ABC41-0000-0001", b"APP.LUH", 2);

const OPS: Brought<'static> = (b"ABC42-0000-0002", b"OPS.LUH", 2);

/// A session: its script, its target, a letter for what it comes to, the loads that it brings with
/// the files of all of them one after the other, and the payload that reports its completion.
#[derive(Clone, Copy)]
struct Session<'a> {
    script: &'a [u8],
    unit: UnitUnderTest<'a>,
    outcome: u8,
    loads: &'a [Brought<'a>],
    files: &'a [(&'a [u8], &'a [u8])],
    report: &'a [u8],
}

const INFORMATION: Session<'static> = Session {
    script: b"info HW1 L\nfinish\n",
    unit: HW1,
    outcome: b'c',
    loads: &[],
    files: &[],
    report: b"",
};

const UPLOAD_OF_ONE: Session<'static> = Session {
    script: b"upload HW1 L ABC41-0000-0001\nfinish\n",
    unit: HW1,
    outcome: b'c',
    loads: &[APP],
    files: &[(b"APP.LUH", &APP_HEADER), (b"APP.BIN", BODY)],
    report: b"\0\x03\0\x01\0\0\0\x32\x41\x33\0\x03\0\0\x02\0\0\0\0\x31\x30\x30\0\x01\
        \x07APP.LUH\x0FABC41-0000-0001\x31\x30\x30\0\x03\0",
};

/// An upload that is stopped at its header.
const STOPPED_UPLOAD: Session<'static> = Session {
    script: b"upload HW1 L ABC41-0000-0001\nfinish\n",
    unit: HW1,
    outcome: b's',
    loads: &[],
    files: &[],
    report: b"",
};

const UPLOAD_OF_TWO: Session<'static> = Session {
    script: b"upload HW1 L ABC41-0000-0001 ABC42-0000-0002\nfinish\n",
    unit: HW1,
    outcome: b'c',
    loads: &[APP, OPS],
    files: &[
        (b"APP.LUH", &APP_HEADER),
        (b"APP.BIN", BODY),
        (b"OPS.LUH", &OPS_HEADER),
        (b"OPS.BIN", BODY),
    ],
    report: b"\0\x03\0\x01\0\0\0\x50\x41\x33\0\x03\0\0\x03\0\0\0\0\x31\x30\x30\0\x02\
        \x07APP.LUH\x0FABC41-0000-0001\x31\x30\x30\0\x03\0\
        \x07OPS.LUH\x0FABC42-0000-0002\x31\x30\x30\0\x03\0",
};

const UPLOAD_OF_THREE: Session<'static> = Session {
    script: b"upload FMC-1 R ABC41-0000-0001 ABC42-0000-0002 ABC43-0000-0003\nfinish\n",
    unit: FMC_1,
    outcome: b'c',
    loads: &[
        (b"ABC41-0000-0001", b"NAV.LUH", 4),
        (b"ABC42-0000-0002", b"OPS.LUH", 2),
        (b"ABC43-0000-0003", b"CFG.LUH", 2),
    ],
    files: &[
        (b"NAV.LUH", &NAV_HEADER),
        (b"NAV1.BIN", &NAV_1),
        (b"NAV2.BIN", NAV_2),
        (b"NAV.TXT", NAV_TEXT),
        (b"OPS.LUH", &OPERATIONS_HEADER),
        (b"OPS.BIN", OPERATIONS),
        (b"CFG.LUH", &CFG_HEADER),
        (b"CFG.BIN", CFG),
    ],
    report: b"\0\x03\0\x01\0\0\0\x6E\x41\x33\0\x03\0\0\x04\0\0\0\0\x31\x30\x30\0\x03\
        \x07NAV.LUH\x0FABC41-0000-0001\x31\x30\x30\0\x03\0\
        \x07OPS.LUH\x0FABC42-0000-0002\x31\x30\x30\0\x03\0\
        \x07CFG.LUH\x0FABC43-0000-0003\x31\x30\x30\0\x03\0",
};

fn are_files(found: &[StoredFile], files: &[(&[u8], &[u8])]) -> bool {
    if found.len() != files.len() {
        return false;
    }
    for (file, (name, bytes)) in found.iter().zip(files) {
        if !is_file(file, *name, *bytes) {
            return false;
        }
    }
    true
}

fn is_load(load: &Load, brought: Brought<'_>, files: &[(&[u8], &[u8])]) -> bool {
    load.part.as_slice() == brought.0
        && load.header_name.as_slice() == brought.1
        && are_files(load.files.as_slice(), files)
}

/// So many files from one on; none where there aren't so many.
fn files_from<T>(files: &[T], first: usize, count: usize) -> &[T] {
    if first <= files.len() && count <= files.len() - first {
        &files[first..first + count]
    } else {
        &files[files.len()..]
    }
}

/// Whether these are the loads that are brought, with their files and no others.
fn are_loads(loads: &[Load], brought: &[Brought<'_>], files: &[(&[u8], &[u8])]) -> bool {
    if loads.len() != brought.len() {
        return false;
    }
    let mut first = 0usize;
    for (load, brought) in loads.iter().zip(brought) {
        if !is_load(load, *brought, files_from(files, first, brought.2)) {
            return false;
        }
        first = first.saturating_add(brought.2);
    }
    first == files.len()
}

fn is_of_unit(identity: &Identity, unit: &UnitUnderTest<'_>) -> bool {
    identity.hw.as_slice() == unit.hw
        && identity.pos.as_slice() == unit.pos
        && identity.serial.as_slice() == unit.serial
        && identity.bank == unit.bank
}

/// A letter for what stands: `o` for what stood before the session, `n` for all that it brings, `?`
/// for anything else.
fn letter_of(standing: &Standing, session: &Session<'_>) -> u8 {
    let loads = standing.config.loads.as_slice();
    if !is_of_unit(&standing.identity, &session.unit) {
        return b'?';
    }
    match (standing.bank, standing.sequence) {
        (0, 1) if loads.is_empty() => b'o',
        (1, 2) if are_loads(loads, session.loads, session.files) => b'n',
        _ => b'?',
    }
}

/// A letter for what a disk holds that is switched off and on.
fn left_on(alloc: Global, disk: &mut Fused<MemDisk>, session: &Session<'_>) -> Result<u8, Fail> {
    match disk.restart() {
        Ok(()) => {}
        Err(_) => return Err(Fail::new("the disk doesn't restart")),
    }
    let standing = recover(alloc, disk)?;
    let letter = letter_of(&standing, session);
    drop(standing);
    Ok(letter)
}

/// A letter for a call of the link, by the step of the trace that it stands for: `g` where
/// something happens, `l` where the loader posts and `t` where the target does, but `r` where it
/// reports the completion.
fn call_of(step: &TraceStep, report: &[u8]) -> u8 {
    match step {
        TraceStep::Given(_) => b'g',
        TraceStep::Posted(datagram) => match datagram.from_side {
            Side::Loader => b'l',
            Side::Target if datagram.bytes.as_slice() == report => b'r',
            Side::Target => b't',
        },
        _ => b'?',
    }
}

fn put_calls(
    run: &Result<Drive, DriveFault>,
    report: &[u8],
    calls: &mut Bytes,
) -> Result<(), NoMemory> {
    if let Ok(run) = run {
        for step in run.trace.as_slice() {
            calls.extend(&[call_of(step, report)])?;
        }
    }
    Ok(())
}

/// The letter of what a session leaves where the link failed, and of what it came to where that is
/// as it should be and left what it brings.
fn after(came: [u8; 2], left: u8, session: &Session<'_>) -> u8 {
    let brought = if session.loads.is_empty() { b'o' } else { b'n' };
    if came == *b"l-" {
        left
    } else if came == [session.outcome, b'k'] && left == brought {
        session.outcome
    } else {
        b'?'
    }
}

/// Runs a session, and tells what it leaves by a letter.
fn run_on(
    alloc: Global,
    media: &MediaSet,
    session: &Session<'_>,
    link: &mut FailLink,
    disk: &mut Fused<MemDisk>,
    calls: &mut Bytes,
) -> Result<u8, Fail>
    requires posted { (link_in link.old).posted ≡ [] }
    requires running { IsRunning (fused_in state_of disk.old) }
{
    let interlock = Interlock::new(PermitsAll);
    let run = drive(alloc, link, disk, media, &interlock);
    let came = letters(&run);
    let put = put_calls(&run, session.report, calls);
    drop(run);
    put?;
    let left = left_on(alloc, disk, session)?;
    Ok(after(came, left, session))
}

/// The disk of a target that was formatted, by the bytes of its identity.
pub(crate) fn disk_of(alloc: Global, identity: &[u8; 25]) -> Result<Fused<MemDisk>, NoMemory>
    ensures { IfOk result (λ disk. IsRunning (fused_in state_of disk)) }
{
    let mut image = [0; 4125];
    image[..25].copy_from_slice(identity.as_slice());
    image[4096] = 0xA5;
    image[4115] = 1;
    image[4124] = 2;
    let disk = MemDisk::new(alloc, &image)?;
    Ok(Fused::new(disk))
}

fn run_over(
    alloc: Global,
    media: &MediaSet,
    session: &Session<'_>,
    link: &mut FailLink,
    calls: &mut Bytes,
) -> Result<u8, Fail>
    requires { (link_in link.old).posted ≡ [] }
{
    let mut disk = disk_of(alloc, session.unit.identity)?;
    let left = run_on(alloc, media, session, link, &mut disk, calls);
    drop(disk);
    left
}

/// What a session leaves where this call of the link is refused.
fn run_refusing(
    alloc: Global,
    media: &MediaSet,
    session: &Session<'_>,
    call: u32,
    calls: &mut Bytes,
) -> Result<u8, Fail> {
    let mut link = link_of(alloc, session.script, call)?;
    let left = run_over(alloc, media, session, &mut link, calls);
    drop(link);
    left
}

/// Tells of a session with each of these calls of the link refused in turn what it leaves, and the
/// calls of the one that completes.
fn refuse_each(
    alloc: Global,
    media: &MediaSet,
    session: &Session<'_>,
    count: u32,
    calls: &mut Bytes,
    left: &mut Bytes,
) -> Result<(), Fail> {
    for call in 1..=count {
        let letter = run_refusing(alloc, media, session, call, calls)?;
        left.extend(&[letter])?;
    }
    Ok(())
}

/// The same of the set of these files: the calls, and what each leaves.
fn told(
    alloc: Global,
    files: &[(&[u8], &[u8])],
    session: &Session<'_>,
    count: u32,
) -> Result<(Bytes, Bytes), Fail> {
    let media = opened(alloc, files)?;
    let mut calls = Bytes::new(alloc);
    let mut left = Bytes::new(alloc);
    let told = refuse_each(alloc, &media, session, count, &mut calls, &mut left);
    drop(media);
    match told {
        Ok(()) => Ok((calls, left)),
        Err(fault) => {
            drop((calls, left));
            Err(fault)
        }
    }
}

/// How many refused calls leave the old configuration, how many the new one, and how often the new
/// one comes after the old.
fn counts(left: &[u8]) -> (u32, u32, u32) {
    let (mut old, mut new, mut changes) = (0u32, 0u32, 0u32);
    let mut before = b'o';
    for &letter in left {
        match letter {
            b'o' => old = old.saturating_add(1),
            b'n' => new = new.saturating_add(1),
            _ => {}
        }
        if (before, letter) == (b'o', b'n') {
            changes = changes.saturating_add(1);
        }
        before = letter;
    }
    (old, new, changes)
}

/// How many calls there are from the report of the completion on, and how many of these leave the
/// new configuration where they are refused.
fn from_report_on(calls: &[u8], left: &[u8]) -> (u32, u32) {
    let (mut all, mut new) = (0u32, 0u32);
    for (&call, &letter) in calls.iter().zip(left) {
        if call == b'r' || all > 0 {
            all = all.saturating_add(1);
            if letter == b'n' {
                new = new.saturating_add(1);
            }
        }
    }
    (all, new)
}

/// The calls of a session, by the lines of its worked trace, and what is left where each is
/// refused.
const CALLS_OF_INFORMATION: &[u8] = b"glgtglgtglgtglgtglgtglgg";

const LEFT_OF_INFORMATION: &[u8] = b"ooooooooooooooooooooooooc";

#[test]
fn an_information_session_leaves_what_was_there(rt: HostRuntime) -> Result<(), Fail> {
    let (calls, left) = told(rt.alloc(), &ONE_LOAD, &INFORMATION, 25)?;
    assert_eq!(rt; calls.as_slice(), CALLS_OF_INFORMATION);
    assert_eq!(rt; left.as_slice(), LEFT_OF_INFORMATION);
    drop((calls, left));
    assert_eq!(rt; counts(LEFT_OF_INFORMATION), (24, 0, 0));
    Ok(())
}

/// The same of an upload.
const CALLS_OF_ONE: &[u8] = b"glgtglgtglgtgllggtglgttgglgttgglgttgglgrglgg";

const LEFT_OF_ONE: &[u8] = b"ooooooooooooooooooooooooooooooooonnnnnnnnnnnc";

/// The last block of `APP.BIN` is the 16th datagram, which the call 33 gives to the target.
#[test]
fn an_upload_leaves_old_or_new_whichever_call_is_refused(rt: HostRuntime) -> Result<(), Fail> {
    let (calls, left) = told(rt.alloc(), &ONE_LOAD, &UPLOAD_OF_ONE, 45)?;
    assert_eq!(rt; calls.as_slice(), CALLS_OF_ONE);
    assert_eq!(rt; left.as_slice(), LEFT_OF_ONE);
    drop((calls, left));
    assert_eq!(rt; counts(LEFT_OF_ONE), (33, 11, 1));
    assert_eq!(rt; from_report_on(CALLS_OF_ONE, LEFT_OF_ONE), (5, 5));
    Ok(())
}

/// The same of an upload that is stopped.
const CALLS_OF_STOPPED: &[u8] = b"glgtglgtglgtgllggtglgttgglgttgglgtglgg";

const LEFT_OF_STOPPED: &[u8] = b"oooooooooooooooooooooooooooooooooooooos";

fn leaves_what_was_there(alloc: Global, files: &[(&[u8], &[u8])]) -> Result<bool, Fail> {
    let (calls, left) = told(alloc, files, &STOPPED_UPLOAD, 39)?;
    let same = calls.as_slice() == CALLS_OF_STOPPED && left.as_slice() == LEFT_OF_STOPPED;
    drop((calls, left));
    Ok(same)
}

#[test]
fn a_stopped_upload_leaves_what_was_there(rt: HostRuntime) -> Result<(), Fail> {
    assert!(rt; leaves_what_was_there(rt.alloc(), &FOR_HW9)?);
    assert!(rt; leaves_what_was_there(rt.alloc(), &OF_TYPE_0)?);
    Ok(())
}

/// The same of two loads.
const CALLS_OF_TWO: &[u8] = b"glgtglgtglgtgllggtglgttgglgttgglgttgglgtglgtglgttgglgttgglgrglgg";

const LEFT_OF_TWO: &[u8] = b"ooooooooooooooooooooooooooooooooooooooooooooooooooooonnnnnnnnnnnc";

/// The last block of `OPS.BIN` is the 26th datagram, which the call 53 gives to the target.
#[test]
fn an_upload_of_two_loads_leaves_none_or_both(rt: HostRuntime) -> Result<(), Fail> {
    let (calls, left) = told(rt.alloc(), &TWO_LOADS, &UPLOAD_OF_TWO, 65)?;
    assert_eq!(rt; calls.as_slice(), CALLS_OF_TWO);
    assert_eq!(rt; left.as_slice(), LEFT_OF_TWO);
    drop((calls, left));
    assert_eq!(rt; counts(LEFT_OF_TWO), (53, 11, 1));
    assert_eq!(rt; from_report_on(CALLS_OF_TWO, LEFT_OF_TWO), (5, 5));
    Ok(())
}

/// The same of three loads on two members.
const CALLS_OF_THREE: &[u8] = b"glgtglgtglgtgllggtglgttgglgttgglgttgglgttgglgttgglgtglgtglgt\
    tgglgttgglgtglgtglgttgglgttgglgrglgg";

const LEFT_OF_THREE: &[u8] = b"oooooooooooooooooooooooooooooooooooooooooooooooooooooooooooo\
    ooooooooooooooooooooooooonnnnnnnnnnnc";

/// The last block of `CFG.BIN` is the 42nd datagram, which the call 85 gives to the target.
#[test]
fn an_upload_of_three_loads_leaves_none_or_all(rt: HostRuntime) -> Result<(), Fail> {
    let (calls, left) = told(rt.alloc(), &THREE_LOADS, &UPLOAD_OF_THREE, 97)?;
    assert_eq!(rt; calls.as_slice(), CALLS_OF_THREE);
    assert_eq!(rt; left.as_slice(), LEFT_OF_THREE);
    drop((calls, left));
    assert_eq!(rt; counts(LEFT_OF_THREE), (85, 11, 1));
    assert_eq!(rt; from_report_on(CALLS_OF_THREE, LEFT_OF_THREE), (5, 5));
    Ok(())
}
