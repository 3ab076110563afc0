//! Requests as in the examples of RFC 2348 and RFC 2349, packets that an exchange of this project
//! sends, and bytes with one thing wrong.

use load_base::{Bytes, Name, NameFault};
use std::alloc::Global;
use std::test::Fail;
use tftp_packet::{Options, Packet, PacketFault, packet_laws};

const NONE: Options = Options {
    blksize: None,
    timeout: None,
    tsize: None,
};

/// What is asked for: a block size, a timeout and a length.
type Asked = (Option<u16>, Option<u8>, Option<u32>);

const NOTHING: Asked = (None, None, None);

fn options((blksize, timeout, tsize): Asked) -> Options {
    Options {
        blksize,
        timeout,
        tsize,
    }
}

/// The letter of a packet; its file, payload or text; its block or code; and its options.
type Parts<'a> = (u8, &'a [u8], u16, Options);

fn parts<'a>(packet: &'a Packet<'_>) -> Parts<'a> {
    match packet {
        Packet::Rrq { name, options } => (b'r', name.as_slice(), 0, *options),
        Packet::Wrq { name, options } => (b'w', name.as_slice(), 0, *options),
        Packet::Data { block, payload } => (b'd', *payload, *block, NONE),
        Packet::Ack { block } => (b'a', &[], *block, NONE),
        Packet::Error { code, text } => (b'e', *text, *code, NONE),
        Packet::Oack { options } => (b'o', &[], 0, *options),
    }
}

/// Whether the bytes are a packet of these parts, and how many bytes it is written in, where these
/// are the same.
fn there_and_back(alloc: Global, bytes: &[u8], wanted: Parts<'_>) -> Result<(bool, usize), Fail> {
    let Ok(packet) = Packet::decode(bytes) else {
        return Ok((false, 0));
    };
    let written = packet.encode(alloc)?;
    let same = written.as_slice() == bytes;
    Ok((parts(&packet) == wanted, if same { bytes.len() } else { 0 }))
}

/// Packets in their one spelling that is sent.
const SENT: [(&[u8], (u8, &[u8], u16), Asked); 11] = [
    (
        b"\0\x01HW1_L.LCI\0octet\0",
        (b'r', b"HW1_L.LCI", 0),
        NOTHING,
    ),
    (
        b"\0\x01foobar\0octet\0blksize\x001428\0",
        (b'r', b"foobar", 0),
        (Some(1428), None, None),
    ),
    (
        b"\0\x01foobar\0octet\0timeout\x001\0",
        (b'r', b"foobar", 0),
        (None, Some(1), None),
    ),
    (
        b"\0\x01HW1_L.LUI\0octet\0blksize\x001024\0tsize\x000\0",
        (b'r', b"HW1_L.LUI", 0),
        (Some(1024), None, Some(0)),
    ),
    (
        b"\0\x01A\0octet\0blksize\x0065464\0timeout\x00255\0tsize\x004294967295\0",
        (b'r', b"A", 0),
        (Some(65_464), Some(255), Some(4_294_967_295)),
    ),
    (
        b"\0\x06blksize\x001024\0tsize\x009\0",
        (b'o', b"", 0),
        (Some(1024), None, Some(9)),
    ),
    (
        b"\0\x03\0\x01\0\0\0\x09\x41\x33\0\x01\0",
        (b'd', b"\0\0\0\x09\x41\x33\0\x01\0", 1),
        NOTHING,
    ),
    // The empty block with the greatest number, which ends a file.
    (b"\0\x03\xFF\xFF", (b'd', b"", 65_535), NOTHING),
    (b"\0\x04\x12\x34", (b'a', b"", 0x1234), NOTHING),
    (b"\0\x05\0\x01\0", (b'e', b"", 1), NOTHING),
    (
        b"\0\x05\x01\x08no \xFF file\0",
        (b'e', b"no \xFF file", 0x0108),
        NOTHING,
    ),
];

fn is_sent(alloc: Global, row: &(&[u8], (u8, &[u8], u16), Asked)) -> Result<bool, Fail> {
    let (bytes, (letter, text, number), asked) = *row;
    let found = there_and_back(alloc, bytes, (letter, text, number, options(asked)))?;
    Ok(found == (true, bytes.len()))
}

#[test]
fn packets_are_read_and_written(rt: HostRuntime) -> Result<(), Fail> {
    for row in &SENT {
        assert!(rt; is_sent(rt.alloc(), row)?, "of {:?}", row.0);
    }
    Ok(())
}

fn request(alloc: Global) -> Result<Bytes, Fail> {
    let name = Name::read(b"HW1_L.LUI")?;
    let options = Options {
        blksize: Some(1024),
        timeout: None,
        tsize: Some(0),
    };
    Ok(Packet::Rrq { name, options }.encode(alloc)?)
}

#[test]
fn a_request_is_written_as_it_is_sent(rt: HostRuntime) -> Result<(), Fail> {
    let bytes = request(rt.alloc())?;
    let sent = b"\0\x01HW1_L.LUI\0octet\0blksize\x001024\0tsize\x000\0";
    assert_eq!(rt; bytes.as_slice(), sent.as_slice());
    Ok(())
}

/// The packet of these bytes has these parts.
fn is_read(bytes: &[u8], wanted: Parts<'_>) -> bool {
    match Packet::decode(bytes) {
        Ok(packet) => parts(&packet) == wanted,
        Err(_) => false,
    }
}

/// Other spellings of requests for a file A and of answers, and what they ask for: letter case,
/// leading zeros, and options that are passed over.
const OTHERS: [(&[u8], u8, Asked); 10] = [
    (b"\0\x02A\0oCTeT\0", b'w', NOTHING),
    (
        b"\0\x02A\0OCTET\0BLKSIZE\x0000000000000000512\0",
        b'w',
        (Some(512), None, None),
    ),
    (
        b"\0\x02A\0octet\0tSize\x00007\0multicast\0\0TimeOut\x0010\0BlkSize\x008\0",
        b'w',
        (Some(8), Some(10), Some(7)),
    ),
    (
        b"\0\x02A\0octet\0windowsize\x004\0windowsize\x005\0tsize\x000\0",
        b'w',
        (None, None, Some(0)),
    ),
    (
        b"\0\x02A\0octet\0blksize\x007\0timeout\x000\0tsize\x00\0",
        b'w',
        NOTHING,
    ),
    (
        b"\0\x02A\0octet\0blksize\x0065465\0timeout\x00256\0tsize\x004294967296\0",
        b'w',
        NOTHING,
    ),
    (
        b"\0\x02A\0octet\0blksize\x00+512\0timeout\x00-1\0tsize\x00 1\0",
        b'w',
        NOTHING,
    ),
    (
        b"\0\x02A\0octet\0blksize \x00512\0tsize\x001 \0blk\x009\0",
        b'w',
        NOTHING,
    ),
    (b"\0\x06TIMEOUT\x00001\0", b'o', (None, Some(1), None)),
    (b"\0\x06", b'o', NOTHING),
];

#[test]
fn packets_have_other_spellings(rt: HostRuntime) {
    for &(bytes, letter, asked) in &OTHERS {
        let file = if letter == b'w' { b"A".as_slice() } else { &[] };
        assert!(rt;
            is_read(bytes, (letter, file, 0, options(asked))),
            "of {bytes:?}"
        );
    }
    packet_laws();
}

#[test]
fn a_payload_has_at_most_65_464_bytes(rt: HostRuntime) -> Result<(), Fail> {
    let mut bytes = [7; 65_469];
    bytes[0] = 0;
    bytes[1] = 3;
    let longest = &bytes[..65_468];
    let found = there_and_back(rt.alloc(), longest, (b'd', &longest[4..], 0x0707, NONE))?;
    assert!(rt; found == (true, 65_468));
    assert!(rt; fault_of(&bytes) == Some(PacketFault::Rest(65_468)));
    Ok(())
}

/// Bytes that are no packet, and their first fault.
const FAULTS: [(&[u8], PacketFault); 46] = [
    (b"", PacketFault::Short(0)),
    (b"\0", PacketFault::Short(1)),
    (b"\0\x03", PacketFault::Short(2)),
    (b"\0\x04", PacketFault::Short(2)),
    (b"\0\x04\0", PacketFault::Short(3)),
    (b"\0\x05\0", PacketFault::Short(3)),
    (b"\0\0", PacketFault::Opcode(0)),
    (b"\0\x07\0", PacketFault::Opcode(7)),
    (b"\0\x09", PacketFault::Opcode(9)),
    (b"\x01\x01A\0octet\0", PacketFault::Opcode(257)),
    (b"\0\x01", PacketFault::NoZero(2)),
    (b"\0\x02HW1_L.LUI", PacketFault::NoZero(2)),
    (b"\0\x01A\0", PacketFault::NoZero(4)),
    (b"\0\x01A\0octet", PacketFault::NoZero(4)),
    (b"\0\x01A\0octet\0blksize", PacketFault::NoZero(10)),
    (b"\0\x01A\0octet\0blksize\0", PacketFault::NoZero(18)),
    (b"\0\x01A\0octet\0blksize\x00512", PacketFault::NoZero(18)),
    (b"\0\x01A\0octet\0other\0", PacketFault::NoZero(16)),
    (b"\0\x05\0\x01", PacketFault::NoZero(4)),
    (b"\0\x05\0\x01no file", PacketFault::NoZero(4)),
    (b"\0\x06tsize", PacketFault::NoZero(2)),
    (b"\0\x06blksize\x007", PacketFault::NoZero(10)),
    (b"\0\x01A\0netascii\0", PacketFault::Mode),
    (b"\0\x02A\0mail\0", PacketFault::Mode),
    (b"\0\x02A\0\0", PacketFault::Mode),
    (b"\0\x02A\0octets\0blksize", PacketFault::Mode),
    (b"\0\x01A\0octet\0\0", PacketFault::Option(10)),
    (
        b"\0\x01A\0octet\0tsize\x009\0\x001\0",
        PacketFault::Option(18),
    ),
    (
        b"\0\x01A\0octet\0tsize\0x\0TSize\0",
        PacketFault::Option(18),
    ),
    (
        b"\0\x01A\0octet\0blksize\x008\0x\0y\0blksize\x008\0",
        PacketFault::Option(24),
    ),
    (b"\0\x06\0", PacketFault::Option(2)),
    (b"\0\x06windowsize\0", PacketFault::Option(2)),
    (b"\0\x06tsize\x009\0tsize\0", PacketFault::Option(10)),
    (b"\0\x06tsize\x009\0blksize\x007\0", PacketFault::Option(10)),
    (b"\0\x06blksize\x0065465\0", PacketFault::Option(2)),
    (b"\0\x06timeout\x000\0", PacketFault::Option(2)),
    (b"\0\x06timeout\x00256\0", PacketFault::Option(2)),
    (b"\0\x06tsize\x004294967296\0", PacketFault::Option(2)),
    (b"\0\x06tsize\x00+9\0", PacketFault::Option(2)),
    (b"\0\x04\0\x01\0", PacketFault::Rest(4)),
    (b"\0\x05\0\x01\0\0", PacketFault::Rest(5)),
    (b"\0\x05\0\x01gone\0more", PacketFault::Rest(9)),
    (b"\0\x01\0", PacketFault::Name(NameFault::Empty)),
    (b"\0\x01A/B\0mail", PacketFault::Name(NameFault::BadByte(1))),
    (b"\0\x02.A\0", PacketFault::Name(NameFault::BadByte(0))),
    (
        b"\0\x02AAAAAAAAAAAAAAAAAAAAAAAAAAAAAAAAAAAAAAAAAAAAAAAAAAAAAAAAAAAAAAAAA\0",
        PacketFault::Name(NameFault::TooLong),
    ),
];

fn fault_of(bytes: &[u8]) -> Option<PacketFault> {
    match Packet::decode(bytes) {
        Ok(_) => None,
        Err(fault) => Some(fault),
    }
}

#[test]
fn the_first_fault_is_told(rt: HostRuntime) {
    for &(bytes, fault) in &FAULTS {
        assert_eq!(rt; fault_of(bytes), Some(fault), "at {bytes:?}");
    }
}
