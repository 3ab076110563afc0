//! What is written, and the limits of the format, with as much memory as it takes.
use load_base::{Bytes, List, Name, NoMemory, Text};
use media_lists::{FilesList, ListFault, ListedFile, LoadEntry, LoadsList, WordFault};
use part_number::PartNumber;
use printed_text::Printed;
use std::alloc::Global;
use worked_files::{APP_FILES, APP_LOADS};

/// A word of a list, which has no fault.
fn name(bytes: &[u8]) -> Result<Name, ListFault> {
    match Name::read(bytes) {
        Ok(name) => Ok(name),
        Err(fault) => Err(ListFault::Word {
            place: 0,
            fault: WordFault::Name(fault),
        }),
    }
}

fn text(alloc: Global, bytes: &[u8]) -> Result<Text, ListFault> {
    match Text::read(alloc, bytes) {
        Ok(text) => Ok(text),
        Err(fault) => Err(ListFault::Word {
            place: 0,
            fault: WordFault::Text(fault),
        }),
    }
}

fn part(bytes: &[u8]) -> Result<PartNumber, ListFault> {
    match PartNumber::read(bytes) {
        Ok(part) => Ok(part),
        Err(fault) => Err(ListFault::Word {
            place: 0,
            fault: WordFault::Part(fault),
        }),
    }
}

/// N bytes of user data.
fn user_data(alloc: Global, size: usize) -> Result<Bytes, NoMemory> {
    let mut user = Bytes::new(alloc);
    for _ in 0..size {
        user.push(0x55)?;
    }
    Ok(user)
}

/// A name of its own for each number below 10,000.
fn numbered(number: usize) -> [u8; 5] {
    let thousands = b'0' + (number / 1000 % 10) as u8;
    let hundreds = b'0' + (number / 100 % 10) as u8;
    let tens = b'0' + (number / 10 % 10) as u8;
    [b'F', thousands, hundreds, tens, b'0' + (number % 10) as u8]
}

// ---- lists of files

fn file(
    alloc: Global,
    title: &[u8],
    path: &[u8],
    member: u16,
    crc16: u16,
) -> Result<ListedFile, ListFault> {
    Ok(ListedFile {
        name: name(title)?,
        path: text(alloc, path)?,
        member,
        crc16,
    })
}

/// This many files, each with a name of its own, the last of which comes first in their order.
fn many_files(alloc: Global, count: usize, path: &[u8]) -> Result<List<ListedFile>, ListFault> {
    let mut files = List::new(alloc);
    for number in 0..count {
        let title = numbered(9_999 - number % 10_000);
        files.push(file(alloc, &title, path, 1, 0x29B1)?)?;
    }
    Ok(files)
}

/// A list of these files and of N bytes of user data, of the one member of its set.
fn files_list(
    alloc: Global,
    count: usize,
    path: &[u8],
    user: usize,
) -> Result<FilesList, ListFault> {
    let set = part(b"XYZ5A-0000-0001")?;
    let user = user_data(alloc, user)?;
    let files = many_files(alloc, count, path)?;
    Ok(FilesList {
        set,
        member: 1,
        members: 1,
        files,
        user,
    })
}

/// The bytes of a list that fits, which are read as a list of as many files; none where it doesn't
/// fit.
fn files_there_and_back(alloc: Global, list: &FilesList) -> Result<Bytes, ListFault> {
    if !list.fits() {
        return Ok(Bytes::new(alloc));
    }
    let bytes = list.encode(alloc)?;
    let again = FilesList::decode(alloc, bytes.as_slice())?;
    let count = again.files.len();
    drop(again);
    if count != list.files.len() {
        return Err(ListFault::Rest(count as u64));
    }
    Ok(bytes)
}

/// How many bytes a list takes of this many files with a path of this length, which may end as a
/// path of 64 bytes does, and N bytes of user data, or 0 where it doesn't fit.
fn files_length(
    alloc: Global,
    count: usize,
    (length, ends): (usize, bool),
    user: usize,
) -> Result<usize, ListFault> {
    let mut path = [b'A'; 65];
    path[0] = b'\\';
    if ends {
        path[63] = b'\\';
    }
    let list = files_list(alloc, count, &path[..length.min(65)], user)?;
    let bytes = files_there_and_back(alloc, &list);
    drop(list);
    Ok(bytes?.len())
}

/// It takes 46, those of the user data, and 16 for each file and those of its path, an even number.
#[test]
fn a_list_of_files_keeps_its_limits(rt: HostRuntime) -> Result<(), ListFault> {
    for (count, path, user, bytes) in [
        (1024, (1, false), 0, 18_478),
        (1025, (1, false), 0, 0),
        (0, (1, false), 0, 46),
        (2, (64, true), 0, 206),
        (2, (65, true), 0, 0),
        (2, (64, false), 0, 0),
        (2, (0, false), 0, 0),
        (1, (1, false), 131_070, 131_134),
        (1, (1, false), 131_072, 0),
        (1, (1, false), 131_069, 0),
    ] {
        let length = files_length(rt.alloc(), count, path, user)?;
        assert_eq!(rt; length, bytes, "{count} files, {user} bytes");
    }
    Ok(())
}

// ---- lists of loads

/// A load for N kinds of hardware, each of 255 bytes.
fn load_for(alloc: Global, title: &[u8], kinds: usize) -> Result<LoadEntry, ListFault> {
    let (part, header_name) = (part(b"ABC41-0000-0001")?, name(title)?);
    let mut hardware = List::new(alloc);
    for _ in 0..kinds {
        hardware.push(text(alloc, &[b'K'; 255])?)?;
    }
    Ok(LoadEntry {
        part,
        header_name,
        member: 1,
        hardware,
    })
}

/// N loads with a name of their own, each for as many kinds of hardware of 255 bytes.
fn many_loads(alloc: Global, count: usize, kinds: usize) -> Result<List<LoadEntry>, ListFault> {
    let mut loads = List::new(alloc);
    for number in 0..count {
        loads.push(load_for(alloc, &numbered(number), kinds)?)?;
    }
    Ok(loads)
}

/// A list of these loads and of N bytes of user data, of the one member of its set.
fn loads_list(
    alloc: Global,
    count: usize,
    kinds: usize,
    user: usize,
) -> Result<LoadsList, ListFault> {
    let set = part(b"XYZ5A-0000-0001")?;
    let user = user_data(alloc, user)?;
    let loads = many_loads(alloc, count, kinds)?;
    Ok(LoadsList {
        set,
        member: 1,
        members: 1,
        loads,
        user,
    })
}

/// The bytes of a list that fits, which are read as a list of as many loads; none where it doesn't
/// fit.
fn loads_there_and_back(alloc: Global, list: &LoadsList) -> Result<Bytes, ListFault> {
    if !list.fits() {
        return Ok(Bytes::new(alloc));
    }
    let bytes = list.encode(alloc)?;
    let again = LoadsList::decode(alloc, bytes.as_slice())?;
    let count = again.loads.len();
    drop(again);
    if count != list.loads.len() {
        return Err(ListFault::Rest(count as u64));
    }
    Ok(bytes)
}

/// How many bytes a list takes of this many loads, each for as many kinds of hardware of 255 bytes,
/// and N bytes of user data, or 0 where it doesn't fit.
fn loads_length(
    alloc: Global,
    count: usize,
    kinds: usize,
    user: usize,
) -> Result<usize, ListFault> {
    let list = loads_list(alloc, count, kinds, user)?;
    let bytes = loads_there_and_back(alloc, &list);
    drop(list);
    Ok(bytes?.len())
}

/// It takes 46, those of the user data, and for each load 32 and 258 for each kind.
#[test]
fn a_list_of_loads_keeps_its_limits(rt: HostRuntime) -> Result<(), ListFault> {
    for (count, kinds, user, bytes) in [
        (1024, 1, 0, 297_006),
        (1025, 1, 0, 0),
        (8, 500, 16_274, 1_048_576),
        (8, 500, 16_276, 0),
    ] {
        let length = loads_length(rt.alloc(), count, kinds, user)?;
        assert_eq!(rt; length, bytes, "{count} loads, {user} bytes");
    }
    Ok(())
}

// ---- both

/// What is written of a list that was read of these bytes.
fn files_again(alloc: Global, bytes: &[u8]) -> Result<Bytes, ListFault> {
    let list = FilesList::decode(alloc, bytes)?;
    let again = files_there_and_back(alloc, &list);
    drop(list);
    again
}

fn loads_again(alloc: Global, bytes: &[u8]) -> Result<Bytes, ListFault> {
    let list = LoadsList::decode(alloc, bytes)?;
    let again = loads_there_and_back(alloc, &list);
    drop(list);
    again
}

#[test]
fn lists_are_written_as_they_were_read(rt: HostRuntime) -> Result<(), ListFault> {
    let files = files_again(rt.alloc(), &APP_FILES)?;
    assert_eq!(rt; files.as_slice(), APP_FILES.as_slice());
    let loads = loads_again(rt.alloc(), &APP_LOADS)?;
    assert_eq!(rt; loads.as_slice(), APP_LOADS.as_slice());
    Ok(())
}

/// The refusal of N zeros as a list of files.
fn zeros_refused(alloc: Global, size: usize) -> Result<Text, NoMemory> {
    let mut zeros = Bytes::new(alloc);
    for _ in 0..size {
        zeros.push(0)?;
    }
    match FilesList::decode(alloc, zeros.as_slice()).err() {
        Some(fault) => fault.text(alloc),
        None => Ok(Text::empty(alloc)),
    }
}

#[test]
fn more_bytes_than_a_list_may_have_are_refused_first(rt: HostRuntime) -> Result<(), NoMemory> {
    for (size, text) in [(1_048_576, &b"L2 0 1048576"[..]), (1_048_577, b"L11")] {
        assert_eq!(rt; zeros_refused(rt.alloc(), size)?.as_slice(), text);
    }
    Ok(())
}
