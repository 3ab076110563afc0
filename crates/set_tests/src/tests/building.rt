//! Sets that are built, against sums that another program took of their files, and what is refused.
use super::recipes::{BATCHED, REALISTIC};
use crc_fields::crc32;
use load_base::{Bytes, Host, MemHost, NoMemory};
use media_build::{BuildFault, Recipe, build};
use media_check::Built;
use printed_text::put_number;
use std::alloc::Global;
use std::test::Fail;

/// The start of a recipe of one load.
static START: &str = "set XYZ5A-0000-0001
members 3
load ABC41-0000-0001 A.LUH 2 7 APP
";

/// A load whose positions are gathered, and with a source that is read twice.
static GATHERED: &str = "support S.TXT 3 one NOTE
position HW2 R
hardware HW1
position HW1 L
data D.BIN 1 one PART
position HW2 C
data E.BIN 3 two PART
position HW1 R
";

/// A 4,096th of the bytes that are too many.
static PIECE: [u8; 4096] = [0; 4096];

fn write(host: &mut MemHost, name: &[u8], bytes: &[u8]) -> Result<(), Fail> {
    match host.write(name, bytes) {
        Ok(()) => Ok(()),
        Err(_) => Err(Fail::new("the host is out of memory")),
    }
}

const SMALL: [(&[u8], &[u8]); 7] = [
    (b"nav1.bin", b"aaaa"),
    (b"nav2.bin", b"bb"),
    (b"nav.txt", b"c"),
    (b"ops.bin", b"dd"),
    (b"cfg.bin", b"eee"),
    (b"one", b"123456789"),
    (b"two", b""),
];

/// Writes sources of small files.
fn write_small(host: &mut MemHost) -> Result<(), Fail> {
    for &(name, bytes) in &SMALL {
        write(host, name, bytes)?;
    }
    Ok(())
}

/// The most bytes of a source, or one more.
fn large(alloc: Global, last: &[u8]) -> Result<Bytes, Fail> {
    let mut bytes = Bytes::new(alloc);
    bytes.reserve(16_777_216)?;
    for _index in 0..4_095 {
        bytes.extend(&PIECE)?;
    }
    bytes.extend(last)?;
    Ok(bytes)
}

fn recipe_after(alloc: Global, start: &[u8], text: &[u8]) -> Result<Recipe, Fail> {
    let mut whole = Bytes::new(alloc);
    whole.extend(start)?;
    whole.extend(text)?;
    Ok(Recipe::read(alloc, whole.as_slice())?)
}

fn put_sums(sums: &mut Vec<u32>, lists: &[Bytes]) -> Result<(), Fail> {
    for list in lists {
        sums.push(crc32(list.as_slice()))?;
    }
    Ok(())
}

/// The CRC-32 of each list and of each file, in their order.
pub(crate) fn sums_of(alloc: Global, built: &Built) -> Result<Vec<u32>, Fail> {
    let mut sums = Vec::new(alloc);
    put_sums(&mut sums, built.loads.as_slice())?;
    put_sums(&mut sums, built.files.as_slice())?;
    put_sums(&mut sums, built.batches.as_slice())?;
    for body in built.bodies.as_slice() {
        sums.push(crc32(body.bytes.as_slice()))?;
    }
    Ok(sums)
}

/// The same of the set of a recipe.
fn built_sums(alloc: Global, start: &[u8], text: &[u8]) -> Result<Vec<u32>, Fail> {
    let mut host = MemHost::new(alloc);
    let answer = answer_of_small(alloc, start, text, &mut host);
    drop(host);
    match answer? {
        Ok(built) => {
            let sums = sums_of(alloc, &built);
            drop(built);
            sums
        }
        Err(fault) => {
            drop(fault);
            Err(Fail::new("the set is refused"))
        }
    }
}

type Answer = Result<Built, BuildFault>;

/// What a host with sources of small files answers to a recipe.
fn answer_of_small(
    alloc: Global,
    start: &[u8],
    text: &[u8],
    host: &mut MemHost,
) -> Result<Answer, Fail> {
    write_small(host)?;
    answer_of(alloc, start, text, host)
}

fn answer_of(alloc: Global, start: &[u8], text: &[u8], host: &mut MemHost) -> Result<Answer, Fail> {
    let recipe = recipe_after(alloc, start, text)?;
    let answer = build(alloc, &recipe, host);
    drop(recipe);
    Ok(answer)
}

#[test]
fn the_realistic_set_is_built(rt: HostRuntime) -> Result<(), Fail> {
    let sums = built_sums(rt.alloc(), b"", REALISTIC.as_bytes())?;
    let known = [
        0x080D_91FC,
        0xE71C_E900,
        0xCB69_9BCC,
        0xD715_A87B,
        0xB595_AA36,
        0x8812_33A6,
        0x9B78_A21E,
        0x1011_A005,
        0x87D4_54EF,
        0x6428_500A,
        0xE6AB_D019,
        0x4EA7_3AA7,
    ]
    .as_slice();
    assert_eq!(rt; sums.as_slice(), known);
    Ok(())
}

#[test]
fn the_set_with_a_batch_is_built(rt: HostRuntime) -> Result<(), Fail> {
    let sums = built_sums(rt.alloc(), b"", BATCHED.as_bytes())?;
    let known = [
        0xA398_67C4,
        0x2007_B531,
        0x7E06_95EF,
        0x6162_FD5C,
        0xFC89_1918,
        0xE795_6F2A,
    ]
    .as_slice();
    assert_eq!(rt; sums.as_slice(), known);
    Ok(())
}

#[test]
fn positions_are_gathered(rt: HostRuntime) -> Result<(), Fail> {
    let sums = built_sums(rt.alloc(), START.as_bytes(), GATHERED.as_bytes())?;
    let known = [
        0xD20C_BBF1,
        0xF0C1_23A5,
        0x12C5_5F04,
        0x0B42_66F7,
        0x56E0_85FB,
        0x1958_50BE,
        0x0628_4424,
        0xFC89_1918,
        0x0000_0000,
        0xFC89_1918,
    ]
    .as_slice();
    assert_eq!(rt; sums.as_slice(), known);
    Ok(())
}

/// What is answered, as a word with what it tells.
fn word_of(alloc: Global, answer: Answer) -> Result<Bytes, Fail> {
    let mut word = Bytes::new(alloc);
    let put = put_word(alloc, &mut word, &answer);
    drop(answer);
    put?;
    Ok(word)
}

fn put_word(alloc: Global, word: &mut Bytes, answer: &Answer) -> Result<(), NoMemory> {
    match answer {
        Ok(built) => {
            word.extend(b"built ")?;
            put_number(alloc, word, built.bodies.len() as u64)
        }
        Err(BuildFault::Absent(name)) => {
            word.extend(b"absent ")?;
            word.extend(name.as_slice())
        }
        Err(BuildFault::TooLong(name)) => {
            word.extend(b"long ")?;
            word.extend(name.as_slice())
        }
        Err(BuildFault::TooLarge) => word.extend(b"large"),
        Err(BuildFault::HeaderTooLong(line)) => {
            word.extend(b"header ")?;
            put_number(alloc, word, *line)
        }
        Err(BuildFault::ListTooLong) => word.extend(b"list"),
        Err(BuildFault::Failed) => word.extend(b"failed"),
        Err(BuildFault::Memory) => word.extend(b"memory"),
    }
}

/// What is answered to a recipe after its start, by a host with sources of small files whose call
/// of this number after those that made it fails, if it isn't 0.
fn failing(alloc: Global, text: &[u8], call: u32, host: &mut MemHost) -> Result<Answer, Fail> {
    if call > 0 {
        host.fail_at(call.saturating_add(7))?;
    }
    answer_of_small(alloc, START.as_bytes(), text, host)
}

fn answers(alloc: Global, text: &[u8], call: u32, word: &[u8]) -> Result<bool, Fail> {
    let mut host = MemHost::new(alloc);
    let answer = failing(alloc, text, call, &mut host);
    drop(host);
    Ok(word_of(alloc, answer?)?.as_slice() == word)
}

const SOURCES: [(&[u8], u32, &[u8]); 8] = [
    (b"", 0, b"built 1"),
    (b"data A 1 one P\nsupport B 2 two P\n", 0, b"built 3"),
    (b"data A 1 three P\n", 0, b"absent three"),
    (
        b"support A 1 three P\ndata B 1 four P\n",
        0,
        b"absent three",
    ),
    (b"data A 1 one P\n", 1, b"failed"),
    (b"data A 1 one P\n", 2, b"built 2"),
    (b"data A 1 one P\ndata B 1 one P\n", 2, b"failed"),
    (b"data A 1 three P\ndata B 1 one P\n", 2, b"absent three"),
];

#[test]
fn the_first_source_is_refused(rt: HostRuntime) -> Result<(), Fail> {
    for &(text, call, word) in &SOURCES {
        assert_eq!(rt; answers(rt.alloc(), text, call, word)?, true);
    }
    Ok(())
}

/// The lines of a load for this many kinds of hardware, with this many bytes of user data and a
/// source that is absent.
fn sized(alloc: Global, hardware: u16, user: u32) -> Result<Bytes, Fail> {
    let mut text = Bytes::new(alloc);
    for _index in 0..hardware {
        text.extend(b"hardware H\n")?;
    }
    if user > 0 {
        text.extend(b"user ")?;
    }
    for _index in 0..user {
        text.extend(b"00")?;
    }
    text.extend(b"\ndata D 1 absent P\n")?;
    Ok(text)
}

fn answers_sized(alloc: Global, hardware: u16, user: u32, word: &[u8]) -> Result<bool, Fail> {
    let text = sized(alloc, hardware, user)?;
    answers(alloc, text.as_slice(), 1, word)
}

const SIZED: [(u16, u32, &[u8]); 6] = [
    (0, 65_428, b"failed"),
    (0, 65_430, b"header 3"),
    (1_024, 61_332, b"failed"),
    (1_024, 61_334, b"header 3"),
    (1_025, 61_328, b"list"),
    (1_025, 61_330, b"header 3"),
];

#[test]
fn sizes_come_before_sources(rt: HostRuntime) -> Result<(), Fail> {
    for &(hardware, user, word) in &SIZED {
        assert_eq!(rt; answers_sized(rt.alloc(), hardware, user, word)?, true);
    }
    Ok(())
}

/// What is answered to a recipe after its start, by a host with one source that ends so.
fn answer_to_large(alloc: Global, text: &[u8], name: &[u8], last: &[u8]) -> Result<Bytes, Fail> {
    let mut host = MemHost::new(alloc);
    let answer = write_large(alloc, text, name, last, &mut host);
    drop(host);
    word_of(alloc, answer?)
}

fn write_large(
    alloc: Global,
    text: &[u8],
    name: &[u8],
    last: &[u8],
    host: &mut MemHost,
) -> Result<Answer, Fail> {
    let bytes = large(alloc, last)?;
    write(host, name, bytes.as_slice())?;
    drop(bytes);
    answer_of(alloc, START.as_bytes(), text, host)
}

#[test]
fn a_long_source_is_refused(rt: HostRuntime) -> Result<(), Fail> {
    let found = answer_to_large(rt.alloc(), b"data A 1 long P\n", b"long", &PIECE)?;
    assert_eq!(rt; found.as_slice(), b"long long".as_slice());
    Ok(())
}

/// What is answered to a load with this many files of the most bytes.
fn answer_to_many(alloc: Global, files: u8) -> Result<Bytes, Fail> {
    let mut text = Bytes::new(alloc);
    for file in 0..files {
        text.extend(b"data ")?;
        put_number(alloc, &mut text, u64::from(file))?;
        text.extend(b" 1 most P\n")?;
    }
    answer_to_large(alloc, text.as_slice(), b"most", &PIECE[1..])
}

#[test]
fn large_sources_are_refused(rt: HostRuntime) -> Result<(), Fail> {
    for (files, word) in [(1, &b"built 2"[..]), (16, b"large")] {
        let found = answer_to_many(rt.alloc(), files)?;
        assert_eq!(rt; found.as_slice(), word);
    }
    Ok(())
}
