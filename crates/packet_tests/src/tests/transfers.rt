//! Whole transfers of files of each length beside the block size, with packets lost, doubled and
//! late, and datagrams one at a time, after RFC 1350, RFC 1123 and RFC 2347 to 2349.
ghost use Rattle.std.specs.Prelude.{◌≡◌, ◌≤◌, length, IfOk};
ghost use Rattle.tftp_packet.specs.Options.{AreInRange};
ghost use Rattle.tftp_packet.specs.Packets.{packet_view, IsInRange};

use load_base::{Bytes, Name, NameFault, NoMemory};
use std::alloc::{AllocError, Global};
use std::test::Fail;
use tftp_link::{
    FileBytes, News, Receiving, Sending, Step, arrival_laws, receiving_laws, repeat_laws,
    sending_laws,
};
use tftp_packet::{Options, Packet};

const NONE: Options = Options {
    blksize: None,
    timeout: None,
    tsize: None,
};

/// What a request asks for in this block size.
fn with_size(size: u16) -> Options
    ensures { AreInRange result }
{
    Options {
        blksize: Some(size.clamp(8, 65_464)),
        timeout: None,
        tsize: Some(0),
    }
}

/// What happens to each packet on its way.
#[derive(Clone, Copy)]
enum Fate {
    Arrives,
    // It is lost, and sent again after a tick.
    LostOnce,
    Doubled,
    // The one before it comes after it.
    Swapped,
}

/// What came out at both ends.
#[derive(Clone, Copy, Debug, Default, PartialEq, Eq)]
struct Outcome {
    blocks: usize,
    // Bytes that were lent, as long as they are those of the file.
    lent: usize,
    whole: bool,
    done: bool,
}

impl Outcome {
    fn takes(&mut self, file: &[u8], news: &News<'_>) {
        match news {
            News::Block(payload) => self.lends(file, payload),
            News::Last(payload) => {
                self.lends(file, payload);
                self.whole = true;
            }
            _ => {}
        }
    }

    fn lends(&mut self, file: &[u8], payload: &[u8]) {
        self.blocks = self.blocks.saturating_add(1);
        if self.lent <= file.len() && file[self.lent..].starts_with(payload) {
            self.lent = self.lent.saturating_add(payload.len());
        }
    }
}

/// The packet that an end sent last arrives at the other.
fn to_receiving(
    sending: &Sending<'_>,
    receiving: &mut Receiving,
    file: &[u8],
    outcome: &mut Outcome,
) {
    let packet = sending.again();
    let step = receiving.on_packet(&packet);
    outcome.takes(file, &step.news);
}

fn to_sending(receiving: &Receiving, sending: &mut Sending<'_>, outcome: &mut Outcome) {
    let packet = receiving.again();
    let step = sending.on_packet(&packet);
    if step.news == News::Done {
        outcome.done = true;
    }
}

/// A transfer between two ends. `late` are two more ends of the same transfer, one round behind:
/// what they send is what the others sent before.
fn runs(
    (sending, receiving): (&mut Sending<'_>, &mut Receiving),
    (late_sending, late_receiving): (&mut Sending<'_>, &mut Receiving),
    file: &[u8],
    fate: Fate,
) -> Outcome {
    let mut outcome = Outcome::default();
    let mut unseen = Outcome::default();
    for _ in 0..70_000 {
        if outcome.done {
            return outcome;
        }
        to_receiving(sending, receiving, file, &mut outcome);
        match fate {
            Fate::Arrives => to_sending(receiving, sending, &mut outcome),
            Fate::LostOnce => {
                // The ACK was lost: the DATA comes again.
                to_receiving(sending, receiving, file, &mut outcome);
                to_sending(receiving, sending, &mut outcome);
            }
            Fate::Doubled => {
                to_receiving(sending, receiving, file, &mut outcome);
                to_sending(receiving, sending, &mut outcome);
                to_sending(receiving, sending, &mut outcome);
                to_sending(receiving, sending, &mut outcome);
            }
            Fate::Swapped => {
                to_receiving(late_sending, receiving, file, &mut outcome);
                to_sending(receiving, sending, &mut outcome);
                to_sending(late_receiving, sending, &mut outcome);
                to_receiving(late_sending, late_receiving, file, &mut unseen);
                to_sending(late_receiving, late_sending, &mut unseen);
            }
        }
    }
    outcome
}

/// The end that takes this request.
fn given<'f>(request: &Packet<'_>, file: &'f [u8]) -> Sending<'f>
    requires file { length file.now ≤ 16777215 }
    requires request { IsInRange (packet_view request.now) }
{
    match request {
        Packet::Rrq { name: _, options } => Sending::serve(FileBytes::Lent(file), *options),
        _ => Sending::serve(FileBytes::Lent(file), NONE),
    }
}

fn taken(request: &Packet<'_>) -> Receiving
    requires { IsInRange (packet_view request.now) }
{
    match request {
        Packet::Wrq { name: _, options } => Receiving::serve(*options),
        _ => Receiving::serve(NONE),
    }
}

/// A file of this name is read, or written, with these options.
fn reads(name: Name, file: &[u8], options: Options, fate: Fate) -> Outcome
    requires file { length file.now ≤ 16777215 }
    requires options { AreInRange options }
{
    let mut receiving = Receiving::ask(name, options);
    let mut late = Receiving::ask(name, options);
    let mut sending = given(&receiving.first(), file);
    let mut late_sending = given(&late.first(), file);
    let outcome = runs(
        (&mut sending, &mut receiving),
        (&mut late_sending, &mut late),
        file,
        fate,
    );
    drop((sending, late_sending));
    outcome
}

fn writes(name: Name, file: &[u8], options: Options, fate: Fate) -> Outcome
    requires file { length file.now ≤ 16777215 }
    requires options { AreInRange options }
{
    let mut sending = Sending::ask(name, FileBytes::Lent(file), options);
    let mut late = Sending::ask(name, FileBytes::Lent(file), options);
    let mut receiving = taken(&sending.first());
    let mut late_receiving = taken(&late.first());
    let outcome = runs(
        (&mut sending, &mut receiving),
        (&mut late, &mut late_receiving),
        file,
        fate,
    );
    drop((sending, late));
    outcome
}

const SIZES: [u16; 4] = [8, 512, 1_428, 65_464];

const FATES: [Fate; 4] = [Fate::Arrives, Fate::LostOnce, Fate::Doubled, Fate::Swapped];

/// The outcome of a whole transfer of a file of this length in this block size.
fn whole(length: usize, size: u16) -> Outcome {
    Outcome {
        blocks: (length / usize::from(size.max(1))).saturating_add(1),
        lent: length,
        whole: true,
        done: true,
    }
}

fn pattern(bytes: &mut [u8]) {
    for (i, byte) in bytes.iter_mut().enumerate() {
        *byte = (i % 251) as u8;
    }
}

#[test]
fn files_of_each_length_beside_the_block_size_arrive(rt: HostRuntime) -> Result<(), NameFault> {
    let name = Name::read(b"A.BIN")?;
    let mut bytes = [0; 130_928];
    pattern(&mut bytes);
    for size in SIZES {
        let full = usize::from(size);
        for length in [0, 1, full - 1, full, full + 1, 2 * full] {
            let file = &bytes[..length];
            for fate in FATES {
                let outcomes = (
                    reads(name, file, with_size(size), fate),
                    writes(name, file, with_size(size), fate),
                );
                assert_eq!(rt;
                    outcomes,
                    (whole(length, size), whole(length, size)),
                    "{length} at {size}"
                );
            }
        }
    }
    Ok(())
}

/// A file of this length, of which each block differs from the one before.
fn file_of(rt: &HostRuntime, bytes: usize) -> Result<Vec<u8>, AllocError>
    ensures { IfOk result (λ file. length file.items ≡ bytes) }
{
    let mut file = Vec::from_elem(rt.alloc(), 0, bytes)?;
    pattern(&mut file);
    Ok(file)
}

#[test]
fn the_longest_file_arrives(rt: HostRuntime) -> Result<(), Fail> {
    let name = Name::read(b"A.BIN")?;
    let file = file_of(&rt, 16_777_215)?;
    for fate in FATES {
        assert_eq!(rt; reads(name, &file, NONE, fate), whole(16_777_215, 512));
    }
    Ok(())
}

/// Read and written in blocks of 8 bytes, and read with its last byte left out.
fn in_small_blocks(name: Name, file: &[u8], fate: Fate) -> (Outcome, Outcome, Outcome)
    requires { length file.now ≤ 16777215 }
{
    let shorter = &file[..file.len().saturating_sub(1)];
    (
        reads(name, file, with_size(8), fate),
        writes(name, file, with_size(8), fate),
        reads(name, shorter, with_size(8), fate),
    )
}

#[test]
fn a_file_of_65_535_blocks_arrives_and_one_of_more_is_sent_in_larger_ones(
    rt: HostRuntime,
) -> Result<(), Fail> {
    let name = Name::read(b"A.BIN")?;
    let file = file_of(&rt, 524_280)?;
    let larger = whole(524_280, 512);
    for fate in FATES {
        assert!(rt; in_small_blocks(name, &file, fate) == (larger, larger, whole(524_279, 8)));
    }
    let bytes = served(rt.alloc(), &file, with_size(8))?;
    assert!(rt; bytes.as_slice() == b"\0\x06tsize\x00524280\0".as_slice());
    Ok(())
}

/// One letter for what becomes of a packet: `.` nothing, `s` one is sent, `b` a block, `l` the
/// last, `d` done, `e` an ERROR.
fn letter(step: &Step<'_>) -> u8 {
    match (step.send, &step.news) {
        (false, News::Nothing) => b'.',
        (true, News::Nothing) => b's',
        (true, News::Block(_)) => b'b',
        (true, News::Last(_)) => b'l',
        (false, News::Done) => b'd',
        (false, News::PeerError(_)) => b'e',
        _ => b'?',
    }
}

/// The datagram that this letter stands for, in tests whose blocks have 8 bytes.
fn datagram(letter: u8) -> &'static [u8] {
    match letter {
        // ACK 0, 1 and 2, and an ERROR.
        b'0' => b"\0\x04\0\0",
        b'1' => b"\0\x04\0\x01",
        b'2' => b"\0\x04\0\x02",
        b'e' => b"\0\x05\0\x01\0",
        // An OACK without options, with a block size of 8 or 9, or with a timeout.
        b'o' => b"\0\x06",
        b'8' => b"\0\x06blksize\x008\0",
        b'9' => b"\0\x06blksize\x009\0",
        b't' => b"\0\x06timeout\x001\0",
        // Block 1, full, too long or short.
        b'f' => b"\0\x03\0\x0112345678",
        b'l' => b"\0\x03\0\x01123456789",
        b's' => b"\0\x03\0\x011234567",
        // Block 2, full or empty.
        b'g' => b"\0\x03\0\x0212345678",
        b'h' => b"\0\x03\0\x02",
        // Blocks 65,534 and 65,535, full.
        b'x' => b"\0\x03\xFF\xFE12345678",
        b'y' => b"\0\x03\xFF\xFF12345678",
        // Blocks 0 and 65,535, empty.
        b'm' => b"\0\x03\0\0",
        b'z' => b"\0\x03\xFF\xFF",
        _ => b"",
    }
}

/// How many datagrams, one after the other, become what the letters say.
fn received(begin: Receiving, datagrams: &[u8], letters: &[u8]) -> usize {
    let mut receiving = begin;
    for (i, which) in datagrams.iter().enumerate() {
        let Ok(packet) = Packet::decode(datagram(*which)) else {
            return i;
        };
        if letters.get(i).copied() != Some(letter(&receiving.on_packet(&packet))) {
            return i;
        }
    }
    datagrams.len()
}

fn sent(sending: &mut Sending<'_>, datagrams: &[u8], letters: &[u8]) -> usize {
    for (i, which) in datagrams.iter().enumerate() {
        let Ok(packet) = Packet::decode(datagram(*which)) else {
            return i;
        };
        if letters.get(i).copied() != Some(letter(&sending.on_packet(&packet))) {
            return i;
        }
    }
    datagrams.len()
}

/// An end that asks to read in blocks of 8 bytes.
fn reader(name: Name) -> Receiving {
    Receiving::ask(name, with_size(8))
}

#[test]
fn a_receiving_end_answers_what_it_awaits(rt: HostRuntime) -> Result<(), NameFault> {
    let name = Name::read(b"A.BIN")?;
    let agree = (
        received(reader(name), b"88f8fh", b"ssb.sl"),
        received(reader(name), b"9t0ool", b"...ssl"),
        received(reader(name), b"8glzmf", b"s....b"),
        received(reader(name), b"8ss8ge", b"sls..."),
        received(reader(name), b"s8slh1", b"l.ss.."),
        received(reader(name), b"e8fe0h", b"e....."),
        // Nobody asked for an option.
        received(Receiving::ask(name, NONE), b"o80ges", b"....e."),
    );
    assert_eq!(rt; agree, (6, 6, 6, 6, 6, 6, 6));
    Ok(())
}

/// What becomes of six datagrams at an end that sends a file of two blocks of 8 bytes, where it was
/// asked for, and where it asks.
fn both_sent(name: Name, datagrams: &[u8], served: &[u8], asked: &[u8]) -> (usize, usize) {
    let file = b"123456789".as_slice();
    let mut serving = Sending::serve(FileBytes::Lent(file), with_size(8));
    let mut asking = Sending::ask(name, FileBytes::Lent(file), with_size(8));
    let agree = (
        sent(&mut serving, datagrams, served),
        sent(&mut asking, datagrams, asked),
    );
    drop((serving, asking));
    agree
}

#[test]
fn a_sending_end_answers_what_it_awaits(rt: HostRuntime) -> Result<(), NameFault> {
    let name = Name::read(b"A.BIN")?;
    let agree = (
        both_sent(name, b"100112", b".s.s.d", b".s.d.."),
        both_sent(name, b"988012", b"...ssd", b".s..sd"),
        both_sent(name, b"tfo11e", b".....e", b"..sd.."),
        both_sent(name, b"e018e2", b"e.....", b"e....."),
    );
    assert_eq!(rt; agree, ((6, 6), (6, 6), (6, 6), (6, 6)));
    Ok(())
}

#[test]
fn a_full_block_65_535_is_not_taken(rt: HostRuntime) {
    let mut receiving = Receiving::serve(with_size(8));
    for block in 1..65_535 {
        receiving.on_packet(&Packet::Data {
            block,
            payload: b"12345678",
        });
    }
    assert_eq!(rt; received(receiving, b"yxmzz", b".s.ls"), 5);
}

/// The first packet of an end that takes a request to read this file.
fn served(alloc: Global, file: &[u8], options: Options) -> Result<Bytes, NoMemory>
    requires file { length file.now ≤ 16777215 }
    requires options { AreInRange options }
{
    let sending = Sending::serve(FileBytes::Lent(file), options);
    let bytes = sending.first().encode(alloc);
    drop(sending);
    bytes
}

/// The first packet of an end that takes a request to write.
fn received_first(alloc: Global, options: Options) -> Result<Bytes, NoMemory>
    requires { AreInRange options }
{
    Receiving::serve(options).first().encode(alloc)
}

#[test]
fn a_request_is_answered_with_the_options_taken_up(rt: HostRuntime) -> Result<(), NoMemory> {
    let asked = Options {
        blksize: Some(1024),
        timeout: None,
        tsize: Some(0),
    };
    let bytes = served(rt.alloc(), b"123456789", asked)?;
    assert!(rt; bytes.as_slice() == b"\0\x06blksize\x001024\0tsize\x009\0".as_slice());
    let bytes = received_first(rt.alloc(), asked)?;
    assert!(rt; bytes.as_slice() == b"\0\x06blksize\x001024\0tsize\x000\0".as_slice());
    let bytes = received_first(rt.alloc(), NONE)?;
    assert!(rt; bytes.as_slice() == datagram(b'0'));
    receiving_laws();
    arrival_laws();
    sending_laws();
    repeat_laws();
    Ok(())
}

/// How many bytes are lent at each packet of a file of 1,024 bytes, where each is given twice.
#[test]
fn a_packet_that_comes_twice_is_lent_once(rt: HostRuntime) {
    let file = [7; 1024];
    let mut sending = Sending::serve(FileBytes::Lent(&file), NONE);
    let mut receiving = Receiving::serve(NONE);
    let mut lent = [None; 6];
    for (i, lent) in lent.iter_mut().enumerate() {
        let packet = sending.again();
        *lent = match receiving.on_packet(&packet).news {
            News::Block(payload) => Some((payload.len(), false)),
            News::Last(payload) => Some((payload.len(), true)),
            _ => None,
        };
        if i % 2 == 1 {
            sending.on_packet(&receiving.again());
        }
    }
    assert_eq!(rt;
        lent,
        [
            Some((512, false)),
            None,
            Some((512, false)),
            None,
            Some((0, true)),
            None
        ]
    );
}
