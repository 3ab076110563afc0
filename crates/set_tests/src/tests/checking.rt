//! The set of one load, whose bytes come from outside of this project.
ghost use Rattle.std.specs.Prelude.{◌≡◌, ◌≤◌, length, All, IfOk};
ghost use Rattle.load_base.specs.Host.{longest_file};
ghost use Rattle.media_check.specs.BuiltSets.{IsShortBody};

use load_base::{Bytes, Host, List, MemHost, Name, NoMemory, WriteFault};
use media_check::{Built, Finding, MediaSet, OpenFault, Placed, check, open_set, opening_laws};
use printed_text::{put_line, put_number};
use std::alloc::Global;
use std::test::Fail;
use worked_files::{APP_FILES, APP_HEADER, APP_LOADS};

/// Writes the file of this name.
fn write(host: &mut MemHost, name: &[u8], bytes: &[u8]) -> Result<(), Fail> {
    match host.write(name, bytes) {
        Ok(()) => Ok(()),
        Err(WriteFault::Failed) => Err(Fail::new("the host refused a file")),
        Err(WriteFault::Memory) => Err(Fail::new("out of memory")),
    }
}

/// The set as it is opened from a host.
fn opened_set(alloc: Global) -> Result<MediaSet, Fail> {
    let mut host = MemHost::new(alloc);
    let set = write_and_open(alloc, &mut host);
    drop(host);
    set
}

fn write_and_open(alloc: Global, host: &mut MemHost) -> Result<MediaSet, Fail> {
    write(host, b"P/1/LOADS.LUM", &APP_LOADS)?;
    write(host, b"P/1/FILES.LUM", &APP_FILES)?;
    write(host, b"P/1/APP.LUH", &APP_HEADER)?;
    write(host, b"P/1/APP.BIN", b"123456789")?;
    match open_set(alloc, host, b"P") {
        Ok(set) => Ok(set),
        Err(fault) => {
            let word = word_of(&fault);
            drop(fault);
            Err(Fail::new(word))
        }
    }
}

fn word_of(fault: &OpenFault) -> &'static str {
    match fault {
        OpenFault::TooLong(_) => "a file is too long",
        OpenFault::TooLarge => "the set is too large",
        OpenFault::Failed => "the host failed",
        OpenFault::Memory => "out of memory",
    }
}

pub(super) fn placed(alloc: Global, name: Name, bytes: &[u8]) -> Result<Placed, NoMemory>
    requires { length bytes.now ≤ longest_file }
    ensures { IfOk result IsShortBody }
{
    Ok(Placed {
        member: 1,
        name,
        bytes: Bytes::copy_of(alloc, bytes)?,
    })
}

pub(super) fn name_of(bytes: &[u8]) -> Result<Name, Fail> {
    match Name::read(bytes) {
        Ok(name) => Ok(name),
        Err(_) => Err(Fail::new("no name")),
    }
}

/// What is found, a line each.
fn lines_of(alloc: Global, findings: &[Finding]) -> Result<Bytes, NoMemory> {
    let mut out = Bytes::new(alloc);
    for finding in findings {
        put_number(alloc, &mut out, u64::from(finding.kind))?;
        put_line(&mut out, b" ", finding.file.as_slice())?;
    }
    Ok(out)
}

pub(super) fn found_in(alloc: Global, set: &MediaSet) -> Result<Bytes, NoMemory> {
    let findings = check(alloc, set)?;
    let lines = lines_of(alloc, findings.as_slice());
    drop(findings);
    lines
}

/// Whether the set has both lists and its file, and no file of another name.
fn has_all(set: &MediaSet) -> Result<bool, Fail> {
    let (name, other) = (name_of(b"APP.BIN")?, name_of(b"app.bin")?);
    let Some(file) = set.file(&name) else {
        return Ok(false);
    };
    let has_lists = set.loads().is_some() && set.files().is_some();
    Ok(file.as_slice() == b"123456789".as_slice() && set.file(&other).is_none() && has_lists)
}

#[test]
fn a_set_is_opened_and_checked(rt: HostRuntime) -> Result<(), Fail> {
    opening_laws();
    let set = opened_set(rt.alloc())?;
    let has_all = has_all(&set);
    let found = found_in(rt.alloc(), &set);
    drop(set);
    assert!(rt; has_all?);
    assert_eq!(rt; found?.as_slice(), b"".as_slice());
    Ok(())
}

pub(super) fn list_of(alloc: Global, bytes: &[u8]) -> Result<List<Bytes>, NoMemory> {
    let copy = Bytes::copy_of(alloc, bytes)?;
    let mut list = List::new(alloc);
    list.push(copy)?;
    Ok(list)
}

/// The header, and the file with these bytes.
fn bodies(alloc: Global, bytes: &[u8; 9]) -> Result<List<Placed>, Fail>
    ensures { IfOk result (λ bodies. All IsShortBody bodies.items) }
{
    let (header, file) = (name_of(b"APP.LUH")?, name_of(b"APP.BIN")?);
    let mut bodies = List::new(alloc);
    bodies.push(placed(alloc, header, &APP_HEADER)?)?;
    bodies.push(placed(alloc, file, bytes)?)?;
    Ok(bodies)
}

/// The set that was built of these lists, with these bytes of its file.
fn built_set(alloc: Global, bytes: &[u8; 9]) -> Result<MediaSet, Fail> {
    let bodies = bodies(alloc, bytes)?;
    let loads = list_of(alloc, &APP_LOADS)?;
    let files = list_of(alloc, &APP_FILES)?;
    let built = Built {
        loads,
        files,
        batches: List::new(alloc),
        bodies,
    };
    Ok(MediaSet::from_parts(alloc, built)?)
}

/// What is found in it.
fn found_in_built(alloc: Global, bytes: &[u8; 9]) -> Result<Bytes, Fail> {
    let set = built_set(alloc, bytes)?;
    let found = found_in(alloc, &set);
    drop(set);
    Ok(found?)
}

#[test]
fn a_built_set_is_checked(rt: HostRuntime) -> Result<(), Fail> {
    let rows: [(&[u8; 9], &[u8]); 2] = [
        (b"123456789", b""),
        (b"123456788", b"6 APP.BIN\n11 APP.BIN\n12 APP.LUH\n"),
    ];
    for (bytes, wanted) in rows {
        let found = found_in_built(rt.alloc(), bytes)?;
        assert_eq!(rt; found.as_slice(), wanted);
    }
    Ok(())
}
