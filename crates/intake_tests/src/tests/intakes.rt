ghost use Rattle.std.specs.Prelude.{◌≡◌, [], length, IfOk, OnOk};
ghost use Rattle.bank_store.specs.DiskWrites.{IsRunning};
ghost use Rattle.bank_store.specs.Known.{KnowsActive};
ghost use Rattle.bank_store.specs.Store.{IsPrepared, IsSpent, bank_size_of};
ghost use Rattle.disk_model.specs.MemDisk.{state_of};
ghost use Rattle.load_intake.specs.Stores.{IsInStep};

use accept_rules::{Interlock, PermitsAll};
use bank_store::{Identity, Store, format};
use disk_layout::{Active, Bank, ManifestRange, Slot};
use disk_model::{Disk, MemDisk};
use load_base::{Bytes, Ident, List, Name};
use load_header::HeaderFault;
use load_intake::{Finished, Intake, Request, read_request};
use load_protocol_files::{FileFault, Wanted};
use part_number::PartNumber;
use session_files::FileBuffer;
use session_rules::{Reason, RequestFault};
use std::alloc::Global;
use std::test::Fail;
use worked_files::APP_HEADER;

/// A header for the same hardware, of a load without other files. The last byte of its load CRC
/// should be 0x7F.
static ALONE: [u8; 90] = [
    0x00, 0x00, 0x00, 0x2D, 0x80, 0x04, 0x00, 0x00, 0x00, 0x00, 0x00, 0x14, 0x00, 0x00, 0x00, 0x1D,
    0x00, 0x00, 0x00, 0x21, 0x00, 0x00, 0x00, 0x25, 0x00, 0x00, 0x00, 0x26, 0x00, 0x00, 0x00, 0x27,
    0x00, 0x00, 0x00, 0x28, 0x00, 0x00, 0x00, 0x29, 0x00, 0x0F, 0x41, 0x42, 0x43, 0x34, 0x31, 0x2D,
    0x30, 0x30, 0x30, 0x30, 0x2D, 0x30, 0x30, 0x30, 0x31, 0x00, 0x00, 0x03, 0x41, 0x50, 0x50, 0x00,
    0x00, 0x07, 0x00, 0x01, 0x00, 0x03, 0x48, 0x57, 0x31, 0x00, 0x00, 0x00, 0x00, 0x00, 0x00, 0x00,
    0x00, 0x00, 0x00, 0x00, 0xB1, 0x5B, 0xF2, 0xA8, 0xCE, 0x7E,
];

/// The header of the load with one file, with this number of its type, this length of its file, and
/// these check sums of the header and of the load.
fn app(kind: u16, length: u16, sum: u16, load_sum: u32) -> [u8; 122] {
    let mut header = APP_HEADER;
    let (words, bytes) = (u32::from(length.div_ceil(2)), u64::from(length));
    header[64..66].copy_from_slice(&kind.to_be_bytes());
    header[96..100].copy_from_slice(&words.to_be_bytes());
    header[100..108].copy_from_slice(&bytes.to_be_bytes());
    header[116..118].copy_from_slice(&sum.to_be_bytes());
    header[118..122].copy_from_slice(&load_sum.to_be_bytes());
    header
}

fn target(hw: &[u8]) -> Result<Identity, Fail>
    ensures { IfOk result (λ identity. identity.bank ≡ 4096) }
{
    Ok(Identity {
        hw: Ident::read(hw)?,
        pos: Ident::read(b"L")?,
        serial: Ident::read(b"SN1")?,
        bank: 4096,
    })
}

/// How many loads had arrived, and the reason if the upload was stopped.
fn ended(finished: Finished) -> (u16, Option<Reason>) {
    let end = match &finished {
        Finished::Stopped(end) => (end.arrived, end.reason),
        Finished::Installed(end, _) => (end.arrived, end.reason),
        Finished::MoreFiles(_) => (0, None),
        Finished::NextLoad(_) => (0, None),
    };
    drop(finished);
    end
}

/// The store of a target that was formatted with banks of 4,096 bytes.
fn first_store(alloc: Global) -> Result<Store, Fail>
    ensures prepared { IfOk result (λ store. IsPrepared store) }
    ensures sequence { IfOk result (λ store. ¬ IsSpent store) }
    ensures bank { IfOk result (λ store. bank_size_of store ≡ 4096) }
    ensures knows { IfOk result (λ store. KnowsActive store []) }
{
    let active = Active {
        slot: Slot::A,
        bank: Bank::Zero,
        sequence: 1,
        manifest: ManifestRange {
            offset: 0,
            length: 4,
        },
    };
    let mut store = Store::new(alloc, 4096, active, false, Bytes::new(alloc));
    if let Err(fault) = store.prepare() {
        drop(store);
        return Err(Fail::from(fault));
    }
    Ok(store)
}

/// A request for one load.
fn request(alloc: Global, part: &[u8]) -> Result<List<Wanted>, Fail>
    ensures { IfOk result (λ request. length request.items ≡ 1) }
{
    let mut request = List::new(alloc);
    request.push(Wanted {
        header: Name::read(b"APP.LUH")?,
        part: PartNumber::read(part)?,
    })?;
    Ok(request)
}

/// What comes of an upload of one load, of this header and perhaps this file: how many loads had
/// arrived, the reason if it was stopped, which bank is active, and whether the other bank of
/// before begins with the header.
type Told = (u16, Option<Reason>, u8, bool);

fn told(
    alloc: Global,
    identity: &Identity,
    part: &[u8],
    header: &[u8],
    file: &[u8],
) -> Result<Told, Fail>
    requires { identity.now.bank ≡ 4096 }
{
    let mut disk = MemDisk::new(alloc, &[])?;
    let told = told_on(alloc, &mut disk, identity, part, header, file);
    drop(disk);
    told
}

fn told_on(
    alloc: Global,
    disk: &mut MemDisk,
    identity: &Identity,
    part: &[u8],
    header: &[u8],
    file: &[u8],
) -> Result<Told, Fail>
    requires bank { identity.now.bank ≡ 4096 }
    requires running { IsRunning (state_of disk.old) }
{
    format(disk, identity)?;
    let mut store = first_store(alloc)?;
    let told = told_by(alloc, &mut store, disk, identity, part, header, file);
    drop(store);
    told
}

fn told_by(
    alloc: Global,
    store: &mut Store,
    disk: &mut MemDisk,
    identity: &Identity,
    part: &[u8],
    header: &[u8],
    file: &[u8],
) -> Result<Told, Fail>
    requires prepared { IsPrepared store.old }
    requires sequence { ¬ IsSpent store.old }
    requires size { bank_size_of store.old ≡ 4096 }
    requires knows { KnowsActive store.old [] }
    requires bank { identity.now.bank ≡ 4096 }
    requires running { IsRunning (state_of disk.old) }
{
    let request = request(alloc, part)?;
    let buffer = FileBuffer::new(alloc);
    let intake = Intake::begin(alloc, request, buffer, store, disk)?;
    let (arrived, reason) = header_told(intake, header, file, identity, store, disk)?;
    let mut found = [0; 122];
    disk.read(12_288, &mut found)?;
    Ok((arrived, reason, store.bank(), found.starts_with(header)))
}

fn header_told(
    mut intake: Intake,
    header: &[u8],
    file: &[u8],
    identity: &Identity,
    store: &mut Store,
    disk: &mut MemDisk,
) -> Result<(u16, Option<Reason>), Fail>
    requires in_step { IsInStep intake store.old }
    requires bank { identity.now.bank ≡ bank_size_of store.old }
    requires knows { KnowsActive store.old [] }
    requires running { IsRunning (state_of disk.old) }
    ensures { OnOk result (IsRunning (state_of disk.new)) }
{
    if let Err(down) = intake.take_bytes(store, disk, header) {
        drop(intake);
        return Err(Fail::from(down));
    }
    let interlock = Interlock::new(PermitsAll);
    match intake.finish(&interlock, identity, &[], store, disk)? {
        Finished::MoreFiles(intake) => {
            file_told(intake, file, &interlock, identity, store, disk)
        }
        finished => Ok(ended(finished)),
    }
}

fn file_told(
    mut intake: Intake,
    file: &[u8],
    interlock: &Interlock<PermitsAll>,
    identity: &Identity,
    store: &mut Store,
    disk: &mut MemDisk,
) -> Result<(u16, Option<Reason>), Fail>
    requires in_step { IsInStep intake store.old }
    requires bank { identity.now.bank ≡ bank_size_of store.old }
    requires knows { KnowsActive store.old [] }
    requires running { IsRunning (state_of disk.old) }
    ensures { OnOk result (IsRunning (state_of disk.new)) }
{
    if let Err(down) = intake.take_bytes(store, disk, file) {
        drop(intake);
        return Err(Fail::from(down));
    }
    Ok(ended(intake.finish(interlock, identity, &[], store, disk)?))
}

const HEADER_CRC: Reason = Reason::HeaderRefused {
    fault: HeaderFault::HeaderCrc {
        said: 0x7043,
        found: 0x7042,
    },
};

const FULL: Reason = Reason::BankFull {
    need: 4097,
    have: 4096,
};

const SHORT: Reason = Reason::FileLength {
    file: 1,
    said: 3927,
    found: 9,
};

const LONG: Reason = Reason::FileLength {
    file: 1,
    said: 9,
    found: 10,
};

const FILE_CRC: Reason = Reason::FileCrc {
    file: 1,
    said: 0x29B1,
    found: 0xB898,
};

const LOAD_CRC: Reason = Reason::LoadCrc {
    said: 0xADC0_8C7E,
    found: 0xADC0_8C7F,
};

const RIGHT: u32 = 0xADC0_8C7F;

/// Of hardware and part the last digit, the type of the load and the length of its file; the check
/// sums of the header and of the load; the file; and what comes of it.
const UPLOADS: [((u8, u8, u16, u16), (u16, u32), &[u8], Told); 10] = [
    (
        (1, 1, 7, 9),
        (0x7042, RIGHT),
        b"123456789",
        (1, None, 1, true),
    ),
    (
        (1, 1, 7, 9),
        (0x7043, RIGHT),
        b"",
        (0, Some(HEADER_CRC), 0, false),
    ),
    (
        (1, 2, 7, 9),
        (0x7042, RIGHT),
        b"",
        (0, Some(Reason::PartDiffers), 0, false),
    ),
    (
        (2, 1, 7, 9),
        (0x7042, RIGHT),
        b"",
        (0, Some(Reason::NotThisHardware), 0, false),
    ),
    (
        (1, 1, 0, 9),
        (0xBD3A, RIGHT),
        b"",
        (0, Some(Reason::RuleRefused), 0, false),
    ),
    (
        (1, 1, 7, 3928),
        (0x6ADA, RIGHT),
        b"",
        (0, Some(FULL), 0, false),
    ),
    (
        (1, 1, 7, 3927),
        (0xF28E, RIGHT),
        b"123456789",
        (1, Some(SHORT), 0, true),
    ),
    (
        (1, 1, 7, 9),
        (0x7042, RIGHT),
        b"1234567890",
        (1, Some(LONG), 0, true),
    ),
    (
        (1, 1, 7, 9),
        (0x7042, RIGHT),
        b"123456780",
        (1, Some(FILE_CRC), 0, true),
    ),
    (
        (1, 1, 7, 9),
        (0x7042, 0xADC0_8C7E),
        b"123456789",
        (1, Some(LOAD_CRC), 0, true),
    ),
];

#[test]
fn each_test_has_its_reason(rt: HostRuntime) -> Result<(), Fail> {
    for &((hw, part, kind, length), (sum, load_sum), file, wanted) in &UPLOADS {
        let identity = target(&[b'H', b'W', b'0' | hw])?;
        let mut text = *b"ABC40-0000-0000";
        text[4] = b'0' | part;
        text[14] = b'0' | part;
        let header = app(kind, length, sum, load_sum);
        let told = told(rt.alloc(), &identity, &text, &header, file)?;
        assert_eq!(rt; told, wanted);
    }
    Ok(())
}

#[test]
fn a_header_is_written_before_its_load_is_tested(rt: HostRuntime) -> Result<(), Fail> {
    let wanted = Reason::LoadCrc {
        said: 0xF2A8_CE7E,
        found: 0xF2A8_CE7F,
    };
    let identity = target(b"HW1")?;
    let told = told(rt.alloc(), &identity, b"ABC41-0000-0001", &ALONE, b"")?;
    assert_eq!(rt; told, (1, Some(wanted), 0, true));
    Ok(())
}

/// How many loads a file of these bytes asks for, or why it is refused.
fn asked(alloc: Global, bytes: &[u8]) -> Result<Result<usize, RequestFault>, Fail> {
    let mut file = FileBuffer::new(alloc);
    file.take(bytes)?;
    match read_request(alloc, &file)? {
        Request::Loads(loads) => {
            let count = loads.len();
            drop(loads);
            Ok(Ok(count))
        }
        Request::Refused(fault) => Ok(Err(fault)),
    }
}

const REQUESTS: [(&[u8], Result<usize, RequestFault>); 4] = [
    (
        b"\0\0\0\x20\x41\x33\0\x01\x07APP.LUH\x0FABC41-0000-0001",
        Ok(1),
    ),
    (b"\0\0\0\x08\x41\x33\0\0", Err(RequestFault::Loads(0))),
    (b"", Err(RequestFault::Spelling(FileFault::Short(0)))),
    (&[0; 65_537], Err(RequestFault::TooLong)),
];

#[test]
fn each_request_is_read(rt: HostRuntime) -> Result<(), Fail> {
    for &(bytes, wanted) in &REQUESTS {
        assert_eq!(rt; asked(rt.alloc(), bytes)?, wanted);
    }
    Ok(())
}
