use crc_fields::{Crc32, crc16};
use load_base::{Bytes, List, Name, NoMemory, Text};
use load_header::{FileEntry, HeaderFault, LoadCrc, LoadHeader, header_laws};
use printed_text::Printed;
use std::alloc::Global;
use worked_files::APP_HEADER;

/// The header of a load with positions, two data files, a support file and user data.
static NAV: [u8; 210] = [
    0x00, 0x00, 0x00, 0x69, 0x80, 0x04, 0x00, 0x00, 0x00, 0x00, 0x00, 0x14, 0x00, 0x00, 0x00, 0x1D,
    0x00, 0x00, 0x00, 0x23, 0x00, 0x00, 0x00, 0x28, 0x00, 0x00, 0x00, 0x30, 0x00, 0x00, 0x00, 0x51,
    0x00, 0x00, 0x00, 0x62, 0x00, 0x00, 0x00, 0x65, 0x00, 0x0F, 0x41, 0x42, 0x43, 0x34, 0x31, 0x2D,
    0x30, 0x30, 0x30, 0x30, 0x2D, 0x30, 0x30, 0x30, 0x31, 0x00, 0x00, 0x07, 0x4E, 0x41, 0x56, 0x44,
    0x41, 0x54, 0x41, 0x00, 0x00, 0x07, 0x00, 0x01, 0x00, 0x05, 0x46, 0x4D, 0x43, 0x2D, 0x31, 0x00,
    0x00, 0x01, 0x00, 0x05, 0x46, 0x4D, 0x43, 0x2D, 0x32, 0x00, 0x00, 0x01, 0x00, 0x01, 0x4C, 0x00,
    0x00, 0x02, 0x00, 0x10, 0x00, 0x08, 0x4E, 0x41, 0x56, 0x31, 0x2E, 0x42, 0x49, 0x4E, 0x00, 0x04,
    0x4E, 0x41, 0x56, 0x31, 0x00, 0x00, 0x01, 0x00, 0x00, 0x00, 0x00, 0x00, 0x00, 0x00, 0x01, 0xFF,
    0xD3, 0xB3, 0x00, 0x00, 0x00, 0x08, 0x4E, 0x41, 0x56, 0x32, 0x2E, 0x42, 0x49, 0x4E, 0x00, 0x04,
    0x4E, 0x41, 0x56, 0x32, 0x00, 0x00, 0x00, 0x05, 0x00, 0x00, 0x00, 0x00, 0x00, 0x00, 0x00, 0x0A,
    0x17, 0x1B, 0x00, 0x01, 0x00, 0x00, 0x00, 0x07, 0x4E, 0x41, 0x56, 0x2E, 0x54, 0x58, 0x54, 0x00,
    0x00, 0x04, 0x4E, 0x4F, 0x54, 0x45, 0x00, 0x00, 0x00, 0x01, 0x00, 0x00, 0x00, 0x00, 0x00, 0x00,
    0x00, 0x01, 0x48, 0xFA, 0x00, 0x02, 0x4E, 0x4F, 0x54, 0x45, 0x00, 0x00, 0x50, 0x7B, 0x7A, 0x36,
    0xD4, 0xDB,
];

/// The whole header of `APP.BIN`, with check sums as they are defined.
fn app_header() -> [u8; 122] {
    let mut bytes = [0; 122];
    bytes[..116].copy_from_slice(&APP_HEADER[..116]);
    bytes[116..118].copy_from_slice(&crc16(&APP_HEADER[..116]).to_be_bytes());
    let mut load = Crc32::new();
    load.update(&bytes[..118]);
    load.update(b"123456789");
    bytes[118..].copy_from_slice(&load.value().to_be_bytes());
    bytes
}

/// What these bytes are refused with, or nothing.
fn outcome(alloc: Global, bytes: &[u8]) -> Result<Text, NoMemory> {
    match LoadHeader::decode(alloc, bytes).err() {
        Some(fault) => fault.text(alloc),
        None => Ok(Text::empty(alloc)),
    }
}

/// Puts a byte at an offset.
fn change(bytes: &mut [u8], offset: usize, byte: u8) {
    if offset < bytes.len() {
        bytes[offset] = byte;
    }
}

/// Makes the check sum of a header right.
fn mend(bytes: &mut [u8]) {
    if bytes.len() >= 6 {
        let end = bytes.len() - 6;
        let sum = crc16(&bytes[..end]).to_be_bytes();
        bytes[end..end + 2].copy_from_slice(&sum);
    }
}

/// Each offset and byte that is put there, whether the header's check sum is made right again, and
/// what the header is refused with.
const CHANGES: [(usize, u8, bool, &[u8]); 23] = [
    (121, 0xFF, false, b""),
    (6, 0xFF, true, b""),
    (7, 0x20, false, b"H10 28738 37420"),
    (3, 0x3E, true, b"H2 62 122"),
    (4, 0x01, true, b"H3 260"),
    (11, 0x20, true, b"H4 1 32 20"),
    (26, 0x20, false, b"H4 5 8230 38"),
    (29, 0x01, true, b"H4 6 65591 55"),
    (41, 0xFF, true, b"H1 42"),
    (41, 0x20, false, b"H6 P1 32"),
    (52, 0x2E, false, b"H6 P2 10"),
    (43, 0x20, true, b"H6 P3 1"),
    (45, 0x35, false, b"H6 P4 81 65"),
    (63, 0x01, true, b"H5 63"),
    (89, 0x01, true, b"H5 89"),
    (62, 0xAF, true, b"H13 60 X2 2"),
    (76, 0x20, true, b"H14 8193"),
    (78, 0x01, true, b"H8 1"),
    (81, 0x00, false, b"H12 82 N1"),
    (83, 0xFF, true, b"H12 82 N3 1"),
    (99, 0x06, true, b"H9 1"),
    (110, 0x20, true, b"H14 8193"),
    (115, 0x20, true, b"H7"),
];

#[test]
fn each_changed_byte_has_its_refusal(rt: HostRuntime) -> Result<(), NoMemory> {
    for &(offset, byte, mended, text) in &CHANGES {
        let mut bytes = app_header();
        change(&mut bytes, offset, byte);
        if mended {
            mend(&mut bytes);
        }
        assert_eq!(rt;
            outcome(rt.alloc(), &bytes)?.as_slice(),
            text,
            "at {offset}"
        );
    }
    Ok(())
}

const LATER: [(usize, u8, &[u8]); 7] = [
    (130, 0x01, b"H8 2"),
    (163, 0xFF, b"H14 257"),
    (154, 0x01, b"H9 2"),
    (134, 0xFF, b"H12 134 N3 0"),
    (143, 0x01, b"H5 145"),
    (132, 0x01, b"H1 134"),
    (203, 0xFF, b"H7"),
];

#[test]
fn later_files_are_counted_on(rt: HostRuntime) -> Result<(), NoMemory> {
    for &(offset, byte, text) in &LATER {
        let mut bytes = NAV;
        change(&mut bytes, offset, byte);
        mend(&mut bytes);
        assert_eq!(rt;
            outcome(rt.alloc(), &bytes)?.as_slice(),
            text,
            "at {offset}"
        );
    }
    Ok(())
}

#[test]
fn lengths_are_tested_first_and_the_rest_before_the_check_sum(
    rt: HostRuntime,
) -> Result<(), NoMemory> {
    let app = app_header();
    let mut longer = [0; 124];
    longer[..122].copy_from_slice(&app);
    longer[3] = 62;
    for (bytes, text) in [
        (longer.as_slice(), &b"H15 122"[..]),
        (&[0; 65_536], b"H2 0 65536"),
        (&[0; 65_537], b"H11"),
    ] {
        assert_eq!(rt; outcome(rt.alloc(), bytes)?.as_slice(), text);
    }
    Ok(())
}

/// What is written of a header that was read of these bytes.
fn again(alloc: Global, bytes: &[u8]) -> Result<Bytes, HeaderFault> {
    let header = LoadHeader::decode(alloc, bytes)?;
    let again = there_and_back(alloc, &header);
    drop(header);
    again
}

#[test]
fn what_was_read_is_written_again(rt: HostRuntime) -> Result<(), HeaderFault> {
    let app = app_header();
    for bytes in [app.as_slice(), &NAV] {
        assert_eq!(rt; again(rt.alloc(), bytes)?.as_slice(), bytes);
    }
    header_laws();
    Ok(())
}

/// A file with the name `F.BIN` and an empty part.
fn file(alloc: Global, length: u32) -> Result<FileEntry, HeaderFault> {
    let name = match Name::read(b"F.BIN") {
        Ok(name) => name,
        Err(fault) => return Err(HeaderFault::Name { place: 0, fault }),
    };
    match Text::read(alloc, b"") {
        Ok(part) => Ok(FileEntry {
            name,
            part,
            length,
            crc16: 0x29B1,
        }),
        Err(fault) => Err(HeaderFault::Text { place: 0, fault }),
    }
}

/// N such files, each of `length` bytes.
fn files(alloc: Global, count: usize, length: u32) -> Result<List<FileEntry>, HeaderFault> {
    let mut files = List::new(alloc);
    for _ in 0..count {
        files.push(file(alloc, length)?)?;
    }
    Ok(files)
}

/// The bytes of a header that fits, which are read as one with as many files of each kind; none
/// where it doesn't fit.
fn there_and_back(alloc: Global, header: &LoadHeader) -> Result<Bytes, HeaderFault> {
    if !header.fits() {
        return Ok(Bytes::new(alloc));
    }
    let bytes = header.encode(alloc)?;
    let again = LoadHeader::decode(alloc, bytes.as_slice())?;
    let found = (again.data_files.len(), again.support_files.len());
    drop(again);
    if found != (header.data_files.len(), header.support_files.len()) {
        return Err(HeaderFault::TooMany(found.0 as u64));
    }
    Ok(bytes)
}

/// How many bytes a header takes with so many files of `length` bytes, and so many bytes of user
/// data.
fn size(
    alloc: Global,
    files: (usize, usize),
    length: u32,
    user: usize,
) -> Result<usize, HeaderFault> {
    let mut header = LoadHeader::decode(alloc, &NAV)?;
    let size = size_with(alloc, &mut header, files, length, user);
    drop(header);
    size
}

fn size_with(
    alloc: Global,
    header: &mut LoadHeader,
    (data_files, support_files): (usize, usize),
    length: u32,
    user: usize,
) -> Result<usize, HeaderFault> {
    header.data_files = files(alloc, data_files, length)?;
    header.support_files = files(alloc, support_files, length)?;
    header.user = Bytes::new(alloc);
    for _ in 0..user {
        header.user.push(0x55)?;
    }
    Ok(there_and_back(alloc, header)?.len())
}

/// How many data and support files, of how many bytes each, and how many bytes of user data a
/// header has, and how many bytes it takes, or 0 where it doesn't fit: 110, those of the user data,
/// and 26 for each file.
#[test]
fn a_header_has_at_most_255_files_and_65536_bytes(rt: HostRuntime) -> Result<(), HeaderFault> {
    for (data_files, support_files, length, user, bytes) in [
        (200, 55, 16_777_215, 58_796, 65_536),
        (200, 55, 16_777_215, 58_798, 0),
        (0, 0, 0, 65_426, 65_536),
        (0, 0, 0, 65_428, 0),
        (0, 0, 0, 1, 0),
        (255, 0, 0, 0, 6_740),
        (0, 255, 0, 0, 6_740),
        (255, 1, 0, 0, 0),
        (0, 256, 0, 0, 0),
        (1, 0, 16_777_216, 0, 0),
        (0, 1, 16_777_216, 0, 0),
    ] {
        let files = (data_files, support_files);
        assert_eq!(rt;
            size(rt.alloc(), files, length, user)?,
            bytes,
            "{data_files} and {support_files} files, {user} bytes"
        );
    }
    Ok(())
}

/// The last six bytes of the header of `APP.BIN` are known from outside.
#[test]
fn a_load_is_summed_in_pieces(rt: HostRuntime) {
    let app = app_header();
    assert_eq!(rt; &app[116..], b"\x70\x42\xAD\xC0\x8C\x7F".as_slice());
    let mut sum = LoadCrc::new(&app);
    sum.file(b"1234");
    sum.file(b"");
    sum.file(b"56789");
    assert_eq!(rt; sum.value(), 0xADC0_8C7F);
}
