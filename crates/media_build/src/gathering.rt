//! What the lines of a load say, gathered for its header.
ghost use Rattle.std.specs.Prelude.{◌≡◌, ◌++◌, All, map, IfOk, OnOk};
ghost use Rattle.std.specs.List.{flat_map};
ghost use Rattle.load_header.specs.Header.{header_view};
ghost use Rattle.media_build.specs.Parts.{entry_of as file_entry_of, header_with, statements};
ghost use Rattle.media_build.specs.Parts.{IsShortSource};
ghost use Rattle.media_build.specs.RecipeSets.{hardware_in, user_in};

use crate::loads::LoadPart;
use crate::positions::positions_of;
use crate::source_files::{LoadFiles, SourceFile};
use crate::statements::{RecipeLine, Statement};
use crc_fields::crc16;
use load_base::{Bytes, List, NoMemory, Text};
use load_header::{FileEntry, LoadHeader};
use std::alloc::Global;

/// The header of a load with these files, but for its load CRC, which is 0.
#[tactic(auto, unfolding(crate::specs::Parts::header_with))]
pub(crate) fn header_of(
    alloc: Global,
    load: &LoadPart,
    files: &LoadFiles,
) -> Result<LoadHeader, NoMemory>
    requires data_files { All IsShortSource files.now.data_files }
    requires support_files { All IsShortSource files.now.support_files }
    ensures { IfOk result (λ header. header_view header ≡ header_with load.now files.now) }
{
    let line = load.line();
    let own = load.own();
    Ok(LoadHeader {
        flags: 0,
        part: line.part,
        type_name: line.type_name.copy(alloc)?,
        type_id: line.type_id,
        hardware: hardware_of(alloc, own)?,
        positions: positions_of(alloc, own)?,
        data_files: entries_of(alloc, files.data_files())?,
        support_files: entries_of(alloc, files.support_files())?,
        user: user_of(alloc, own)?,
        load_crc: 0,
    })
}

/// Files, as a header names them.
fn entries_of(alloc: Global, files: &[SourceFile]) -> Result<List<FileEntry>, NoMemory>
    requires { All IsShortSource files.now }
    ensures { IfOk result (λ entries. entries.items ≡ map file_entry_of files.now) }
{
    let mut entries = List::new(alloc);
    for file in files {
        entries.push(entry_of(alloc, file)?)?;
    }
    Ok(entries)
}

fn entry_of(alloc: Global, file: &SourceFile) -> Result<FileEntry, NoMemory>
    requires { IsShortSource file.now }
    ensures { IfOk result (λ entry. entry ≡ file_entry_of file.now) }
{
    let line = file.line();
    let bytes = file.bytes();
    Ok(FileEntry {
        name: line.name,
        part: line.part.copy(alloc)?,
        length: bytes.len() as u32,
        crc16: crc16(bytes),
    })
}

/// The hardware of a load, in the order of its lines.
pub(crate) fn hardware_of(alloc: Global, own: &[RecipeLine]) -> Result<List<Text>, NoMemory>
    ensures { IfOk result (λ list. list.items ≡ flat_map hardware_in (statements own.now)) }
{
    let mut list = List::new(alloc);
    for line in own {
        put_hardware(alloc, &line.statement, &mut list)?;
    }
    Ok(list)
}

fn put_hardware(alloc: Global, statement: &Statement, list: &mut List<Text>) -> Result<(), NoMemory>
    ensures { OnOk result (list.new.items ≡ list.old.items ++ hardware_in statement.now) }
{
    if let Statement::Hardware(id) = statement {
        let id = id.copy(alloc)?;
        list.push(id)?;
    }
    Ok(())
}

/// The user data of a load.
fn user_of(alloc: Global, own: &[RecipeLine]) -> Result<Bytes, NoMemory>
    ensures { IfOk result (λ bytes. bytes.items ≡ flat_map user_in (statements own.now)) }
{
    let mut bytes = Bytes::new(alloc);
    for line in own {
        put_user(&line.statement, &mut bytes)?;
    }
    Ok(bytes)
}

fn put_user(statement: &Statement, bytes: &mut Bytes) -> Result<(), NoMemory>
    ensures { OnOk result (bytes.new.items ≡ bytes.old.items ++ user_in statement.now) }
{
    if let Statement::User(user) = statement {
        bytes.extend(user.as_slice())?;
    }
    Ok(())
}
