ghost use Rattle.std.specs.Prelude.{◌≡◌, false, IfOk};
ghost use Rattle.disk_model.specs.MemDisk.{state_of};
ghost use Rattle.bank_store.specs.Store.{IsIdle};

use bank_store::{Identity, Store, StoreFault, format};
use disk_layout::{Active, Bank, ManifestRange, Slot};
use disk_model::{Call, Disk, FileDisk, MemDisk, Note, OpenedFiles};
use load_base::{Bytes, Ident, Name, PartText};
use printed_text::Printed;
use std::alloc::Global;
use std::fs;
use std::test::Fail;

/// The first bytes of the disk that target HW1, position L, serial number SN1 has with banks of
/// 4096 bytes.
const START: [u8; 22] = [
    0x41, 0x36, 0x31, 0x35, 0, 1, 0, 0, 0x10, 0, 3, 0x48, 0x57, 0x31, 1, 0x4C, 3, 0x53, 0x4E, 0x31,
    0xB4, 0x3C,
];

fn target(bank: u32) -> Result<Identity, Fail>
    ensures { IfOk result (λ identity. identity.bank ≡ bank) }
{
    Ok(Identity {
        hw: Ident::read(b"HW1")?,
        pos: Ident::read(b"L")?,
        serial: Ident::read(b"SN1")?,
        bank,
    })
}

/// What a call writes and where; a sync writes nothing.
fn written(note: &Note) -> (u32, &[u8]) {
    match &note.call {
        Call::Write { at, bytes } => (*at, bytes.as_slice()),
        Call::Sync | Call::Restart => (0, &[]),
    }
}

/// A disk of these bytes after these writes.
fn after(before: &[u8; 9000], writes: &[(u32, &[u8])]) -> [u8; 9000] {
    let mut disk = *before;
    for (at, bytes) in writes {
        let at = *at as usize;
        if at <= disk.len() && bytes.len() <= disk.len() - at {
            disk[at..at + bytes.len()].copy_from_slice(bytes);
        }
    }
    disk
}

const STEPS: [(u32, &[u8]); 10] = [
    (4608, &[0]),
    (0, &[]),
    (4096, &[0]),
    (0, &[]),
    (8192, &[0xA0, 2, 0, 0]),
    (4112, &[0, 0, 0, 1, 0, 0, 0, 0, 0, 0, 0, 0, 4]),
    (0, &START),
    (0, &[]),
    (4096, &[0xA5]),
    (0, &[]),
];

/// Whether a disk of these bytes is formatted in four steps.
fn is_formatted(disk: &mut MemDisk, junk: &[u8; 9000]) -> Result<bool, Fail>
    requires { (state_of disk.old).stopped ≡ false }
{
    let identity = target(4096)?;
    format(disk, &identity)?;
    let mut made = disk.notes().len() == STEPS.len();
    for (note, step) in disk.notes().iter().zip(&STEPS) {
        made = made && note.done && written(note) == *step;
    }
    Ok(made && disk.as_slice() == after(junk, &STEPS).as_slice())
}

#[test]
fn a_disk_with_both_gates_open_is_formatted_in_four_steps(rt: HostRuntime) -> Result<(), Fail> {
    let mut junk = [0x5A; 9000];
    junk[4096] = 0xA5;
    junk[4608] = 0xA5;
    let mut disk = MemDisk::new(rt.alloc(), &junk)?;
    let formatted = is_formatted(&mut disk, &junk);
    drop(disk);
    assert!(rt; formatted?);
    Ok(())
}

/// What formatting an empty disk answers where this call fails, and how many writes and syncs were
/// noted, that call among them.
fn format_failing(alloc: Global, call: u32) -> Result<(Result<(), StoreFault>, usize), Fail> {
    let mut disk = MemDisk::new(alloc, &[])?;
    let found = fail_in_format(&mut disk, call);
    drop(disk);
    found
}

fn fail_in_format(disk: &mut MemDisk, call: u32) -> Result<(Result<(), StoreFault>, usize), Fail>
    requires { (state_of disk.old).stopped ≡ false }
{
    let identity = target(67_108_864)?;
    disk.fail_at(call)?;
    let answer = format(disk, &identity);
    Ok((answer, disk.notes().len()))
}

/// It reads both slots, and finds no gate open.
#[test]
fn each_failing_call_stops_formatting(rt: HostRuntime) -> Result<(), Fail> {
    for call in 1..=9u32 {
        let made = call.saturating_sub(2) as usize;
        let wanted = (Err(StoreFault::DiskFailed), made);
        assert!(rt;
            format_failing(rt.alloc(), call)? == wanted,
            "at call {call}"
        );
    }
    assert!(rt; format_failing(rt.alloc(), 10)? == (Ok(()), 7));
    Ok(())
}

/// What formatting a disk in a file answers.
fn format_file(rt: &HostRuntime, name: &str) -> Result<Result<(), StoreFault>, Fail> {
    let identity = target(4096)?;
    Ok(format(&mut FileDisk::new(rt, &OpenedFiles::new(), name), &identity))
}

/// How many bytes a formatted file has, whether it begins as it should, and its first gate.
fn file_of(rt: &HostRuntime, name: &str) -> Result<(usize, bool, Option<u8>), Fail> {
    let file = fs::read(rt, name)?;
    let gate = file.as_slice().get(4096).copied();
    Ok((file.len(), file.as_slice().starts_with(&START), gate))
}

#[test]
fn a_file_is_formatted(rt: HostRuntime) -> Result<(), Fail> {
    let name = "a_file_is_formatted.disk";
    assert!(rt; format_file(&rt, name)? == Ok(()));
    assert!(rt; file_of(&rt, name)? == (8196, true, Some(0xA5)));
    fs::remove_file(&rt, name)?;
    assert!(rt; format_file(&rt, ".")? == Err(StoreFault::DiskFailed));
    Ok(())
}

/// Installs a load of type 7 and of one file.
fn install_one(
    store: &mut Store,
    disk: &mut MemDisk,
    part: PartText,
    name: Name,
) -> Result<(), StoreFault>
    requires idle { IsIdle store.old }
    requires running { (state_of disk.old).stopped ≡ false }
{
    store.prepare()?;
    store.begin(disk)?;
    store.start_load(part, 7, 1)?;
    store.append(disk, b"ab")?;
    store.append(disk, b"c")?;
    store.end_file(name)?;
    store.seal(disk)?;
    store.activate(disk)
}

/// Formats a disk for the target and installs one load on it: the store's sequence number and bank
/// then.
fn install(alloc: Global, disk: &mut MemDisk) -> Result<(u32, u8), Fail>
    requires { (state_of disk.old).stopped ≡ false }
{
    let (part, name) = (PartText::read(b"MMM12-0001-ABCD")?, Name::read(b"H.LUH")?);
    let identity = target(4096)?;
    let active = Active {
        slot: Slot::A,
        bank: Bank::Zero,
        sequence: 1,
        manifest: ManifestRange {
            offset: 0,
            length: 4,
        },
    };
    format(disk, &identity)?;
    let mut store = Store::new(alloc, 4096, active, false, Bytes::new(alloc));
    let answer = install_one(&mut store, disk, part, name);
    let found = (store.sequence(), store.bank());
    drop(store);
    answer?;
    Ok(found)
}

const HELD: [(usize, &[u8]); 5] = [
    (4096, &[0xA5]),
    (4608, &[0xA5]),
    (4624, &[0, 0, 0, 2, 1, 0, 0, 0, 3, 0, 0, 0, 33]),
    (8192, &[0xA0, 2, 0, 0]),
    (
        12288,
        b"abc\xA0\x02\x00\x01MMM12-0001-ABCD\x00\x07\x00\x01\x05H.LUH\x00\x00\x00\x03",
    ),
];

/// Whether the disk has what is installed beside what was active, and the store that sequence
/// number and bank.
fn is_installed(alloc: Global, disk: &mut MemDisk) -> Result<bool, Fail>
    requires { (state_of disk.old).stopped ≡ false }
{
    let (sequence, bank) = install(alloc, disk)?;
    let mut written = (sequence, bank, disk.as_slice().len()) == (2, 1, 12324);
    for &(at, bytes) in &HELD {
        let held = disk.as_slice().get(at..).unwrap_or(&[]);
        written = written && held.starts_with(bytes);
    }
    Ok(written)
}

#[test]
fn a_load_is_installed_beside_what_is_active(rt: HostRuntime) -> Result<(), Fail> {
    let mut disk = MemDisk::new(rt.alloc(), &[])?;
    let installed = is_installed(rt.alloc(), &mut disk);
    drop(disk);
    assert!(rt; installed?);
    Ok(())
}

const TEXTS: [(StoreFault, &[u8]); 4] = [
    (
        StoreFault::BankFull {
            need: 4_294_967_296,
            have: 4096,
        },
        b"K1 4294967296 4096",
    ),
    (StoreFault::SequenceSpent, b"K2"),
    (StoreFault::DiskFailed, b"K3"),
    (StoreFault::Memory, b""),
];

#[test]
fn each_fault_has_its_text(rt: HostRuntime) -> Result<(), Fail> {
    for &(fault, text) in &TEXTS {
        let printed = fault.text(rt.alloc())?;
        assert_eq!(rt; printed.as_slice(), text);
    }
    Ok(())
}
