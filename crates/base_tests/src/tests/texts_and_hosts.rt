use load_base::{
    Bytes, Host, Ident, MemHost, MemSink, Name, NoMemory, PartText, ReadFault, Sink, StdHost, Text,
    TextFault, WriteFault, equality_laws, list_equality_law, text_laws,
};
use std::alloc::Global;
use std::fs::{self, File};
use std::hash::{DefaultHasher, Hash, Hasher};
use std::os::unix::fs::symlink;
use std::rt::Files;
use std::test::Fail;

/// The refusal of a text, or nothing where it was read as these bytes.
fn text_refusal(alloc: Global, bytes: &[u8]) -> Option<TextFault> {
    match Text::read(alloc, bytes) {
        Ok(text) if text.as_slice() == bytes => None,
        Ok(_) => Some(TextFault::Memory),
        Err(fault) => Some(fault),
    }
}

const TEXTS: [(&[u8], Option<TextFault>); 6] = [
    (b"", None),
    (b" to ~", None),
    (&[b'a'; 255], None),
    (&[b'a'; 256], Some(TextFault::TooLong(256))),
    (b"a\nb", Some(TextFault::BadByte(1))),
    (b"\x7F", Some(TextFault::BadByte(0))),
];

#[test]
fn texts_are_read(rt: HostRuntime) -> Result<(), Fail> {
    text_laws();
    for &(bytes, refusal) in &TEXTS {
        assert_eq!(rt; text_refusal(rt.alloc(), bytes), refusal);
    }
    Ok(())
}

fn is_text(text: Result<Text, NoMemory>, bytes: &[u8]) -> bool {
    match text {
        Ok(text) => text.as_slice() == bytes,
        Err(NoMemory) => false,
    }
}

/// Whether these bytes are a name and its text, and two readings of them are equal and hash alike.
fn name_is_text(alloc: Global, bytes: &[u8]) -> bool {
    let (Ok(one), Ok(other)) = (Name::read(bytes), Name::read(bytes)) else {
        return false;
    };
    one == other && hash_of(&one) == hash_of(&other) && is_text(Text::of_name(alloc, &one), bytes)
}

fn hash_of(name: &Name) -> u64 {
    let mut hasher = DefaultHasher::new();
    name.hash(&mut hasher);
    hasher.finish()
}

fn ident_is_text(alloc: Global, bytes: &[u8]) -> bool {
    match Ident::read(bytes) {
        Ok(ident) => is_text(Text::of_ident(alloc, &ident), bytes),
        Err(_) => false,
    }
}

fn part_is_text(alloc: Global, bytes: &[u8]) -> bool {
    match PartText::read(bytes) {
        Ok(part) => is_text(Text::of_part(alloc, &part), bytes),
        Err(_) => false,
    }
}

#[test]
fn names_are_texts(rt: HostRuntime) -> Result<(), Fail> {
    equality_laws();
    list_equality_law::<u8>();
    assert_eq!(rt; name_is_text(rt.alloc(), b"NAV1.BIN"), true);
    assert_eq!(rt; ident_is_text(rt.alloc(), b"FMC-1"), true);
    assert_eq!(rt; part_is_text(rt.alloc(), b"ABC41-0000-0001"), true);
    Ok(())
}

/// What three texts are answered, and whether a sink has them but the second then.
type Put = ([Result<(), WriteFault>; 3], bool);

fn put_three(sink: &mut MemSink) -> Result<Put, NoMemory> {
    sink.fail_at(2)?;
    let answers = [sink.put(b"one"), sink.put(b"lost"), sink.put(b" two")];
    Ok((answers, sink.as_slice() == b"one two".as_slice()))
}

#[test]
fn what_was_put(rt: HostRuntime) -> Result<(), Fail> {
    let mut sink = MemSink::new(rt.alloc());
    let put = put_three(&mut sink);
    drop(sink);
    let answers = [Ok(()), Err(WriteFault::Failed), Ok(())];
    assert_eq!(rt; put?, (answers, true));
    Ok(())
}

/// The refusal of a read, or nothing where it gave these bytes. Other bytes count as out of memory.
fn outcome<H: Host>(alloc: Global, host: &mut H, name: &[u8], bytes: &[u8]) -> Option<ReadFault> {
    match host.read(alloc, name) {
        Ok(found) if found.as_slice() == bytes => None,
        Ok(_) => Some(ReadFault::Memory),
        Err(fault) => Some(fault),
    }
}

const WRITTEN: [(&[u8], &[u8]); 3] = [(b"a/one", b"first"), (b"two", b""), (b"a/one", b"second")];

/// What three reads of a host with these files are refused with.
fn read_three(alloc: Global, host: &mut MemHost) -> Result<[Option<ReadFault>; 3], Fail> {
    host.fail_at(4)?;
    for &(name, bytes) in &WRITTEN {
        host.write(name, bytes)?;
    }
    Ok([
        outcome(alloc, host, b"two", b"second"),
        outcome(alloc, host, b"a/one", b"second"),
        outcome(alloc, host, b"one", b"second"),
    ])
}

#[test]
fn a_host_in_memory(rt: HostRuntime) -> Result<(), Fail> {
    let mut host = MemHost::new(rt.alloc());
    let read = read_three(rt.alloc(), &mut host);
    drop(host);
    let wanted = [Some(ReadFault::Failed), None, Some(ReadFault::Absent)];
    assert_eq!(rt; read?, wanted);
    Ok(())
}

/// `count` zero bytes.
fn zeros(alloc: Global, count: usize) -> Result<Bytes, NoMemory> {
    let mut bytes = Bytes::new(alloc);
    let piece = [0; 65_536];
    for _ in 0..count / 65_536 {
        bytes.extend(&piece)?;
    }
    bytes.extend(&piece[..count % 65_536])?;
    Ok(bytes)
}

/// Writes a file of `count` zeros and reads it again: the refusal, or nothing where those bytes
/// came back.
fn there_and_back<R: Files<File = File>>(rt: &R, alloc: Global, count: usize) -> Option<ReadFault> {
    let mut host = StdHost::new(rt);
    let Ok(bytes) = zeros(alloc, count) else {
        return Some(ReadFault::Memory);
    };
    match host.write(b"made/long", bytes.as_slice()) {
        Ok(()) => outcome(alloc, &mut host, b"made/long", bytes.as_slice()),
        Err(_) => Some(ReadFault::Memory),
    }
}

const SYSTEM: [(&[u8], Option<ReadFault>); 5] = [
    (b"made/inside/file", None),
    (b"made/inside", Some(ReadFault::Failed)),
    (b"made/inside/file/x", Some(ReadFault::Failed)),
    (b"made/none", Some(ReadFault::Absent)),
    (b"\xFF", Some(ReadFault::Failed)),
];

/// A file in folders that are missing, a folder in place of a file, a file in place of a folder,
/// and the longest file.
#[test]
fn the_files_of_the_system(rt: HostRuntime) -> Result<(), Fail> {
    let mut host = StdHost::new(&rt);
    assert_eq!(rt; host.write(b"made/inside/file", b"bytes"), Ok(()));
    assert_eq!(rt;
        host.write(b"made/inside", b"bytes"),
        Err(WriteFault::Failed)
    );
    for &(name, refusal) in &SYSTEM {
        assert_eq!(rt; outcome(rt.alloc(), &mut host, name, b"bytes"), refusal);
    }
    assert_eq!(rt; there_and_back(&rt, rt.alloc(), 16_777_215), None);
    assert_eq!(rt;
        there_and_back(&rt, rt.alloc(), 16_777_216),
        Some(ReadFault::TooLong)
    );
    fs::remove_dir_all(&rt, "made")?;
    Ok(())
}

/// Writes over a longer file, over a link, and beside what a killed run left.
fn replaced(rt: &HostRuntime, alloc: Global) -> Result<[Option<ReadFault>; 3], Fail> {
    let mut host = StdHost::new(rt);
    host.write(b"replaced/file", b"longer")?;
    symlink(rt, "file", "replaced/link")?;
    fs::write(rt, "replaced/.new", b"unfinished")?;
    host.write(b"replaced/link", b"new")?;
    let kept = outcome(alloc, &mut host, b"replaced/file", b"longer");
    host.write(b"replaced/file", b"new")?;
    Ok([
        kept,
        outcome(alloc, &mut host, b"replaced/file", b"new"),
        outcome(alloc, &mut host, b"replaced/link", b"new"),
    ])
}

#[test]
fn a_file_is_replaced_whole(rt: HostRuntime) -> Result<(), Fail> {
    assert_eq!(rt; replaced(&rt, rt.alloc())?, [None, None, None]);
    assert!(rt; !fs::exists(&rt, "replaced/.new")?);
    fs::remove_dir_all(&rt, "replaced")?;
    Ok(())
}
