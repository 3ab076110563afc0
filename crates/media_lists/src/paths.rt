//! The paths of listed files.
ghost use Rattle.std.specs.Prelude.{◌≡◌, IfOk};
ghost use Rattle.field_grammar.specs.Answers.{AnswersAs};
ghost use Rattle.media_lists.specs.Lists.{path_verdict};
ghost use Rattle.media_lists.specs.declared.fault.ListFault.TheVariants.{Memory};
ghost use Rattle.load_base.specs.Name.{is_name_byte as is_good};
ghost use Rattle.media_lists.specs.Paths.{path_fault_of, name_goes_on as goes_on, IsPath};

use crate::fault::{ListFault, PathFault, WordFault};
use load_base::{NoMemory, Text, TextFault};
use std::alloc::Global;

/// The most names of a path.
pub(crate) const MOST_NAMES: usize = 4;

/// The most bytes of a path.
pub(crate) const LONGEST_PATH: usize = 64;

/// The length of the longest prefix of the bytes that is a prefix of some path, where they are no
/// path.
pub(crate) fn path_fault(bytes: &[u8]) -> Option<usize>
    ensures { result ≡ path_fault_of bytes.now }
{
    if bytes.is_empty() || bytes[0] != b'\\' {
        return Some(0);
    }
    let mut names = 0;
    let mut size = 0;
    for offset in 1..bytes.len() {
        let byte = bytes[offset];
        if byte == b'\\' {
            if size == 0 {
                return Some(offset);
            }
            names += 1;
            size = 0;
        } else {
            if !name_goes_on(offset, names, size, byte) {
                return Some(offset);
            }
            size += 1;
        }
    }
    if size == 0 { None } else { Some(bytes.len()) }
}

#[tactic(auto, unfolding(crate::specs::Paths::name_goes_on))]
fn name_goes_on(offset: usize, names: usize, size: usize, byte: u8) -> bool
    ensures { result ≡ goes_on offset names size byte }
{
    is_name_byte(byte)
        && names < MOST_NAMES
        && offset < LONGEST_PATH - 1
        && !(size == 0 && byte == b'.')
}

fn is_name_byte(byte: u8) -> bool
    ensures { result ≡ is_good byte }
{
    matches!(byte, 0x21..=0x7E) && byte != b'/' && byte != b'\\'
}

/// The path that these bytes are, or the fault of the path whose bytes are at this offset.
pub(crate) fn path_of(alloc: Global, bytes: &[u8], offset: u64) -> Result<Text, ListFault>
    ensures { AnswersAs Memory (λ t. t) result (path_verdict offset bytes.now) }
{
    if let Some(end) = path_fault(bytes) {
        return Err(ListFault::Word {
            place: offset,
            fault: WordFault::Path(PathFault::Path(end as u64)),
        });
    }
    let path = path_text(alloc, bytes)?;
    Ok(path)
}

/// A path is a text, so that it can only be out of memory.
fn path_text(alloc: Global, bytes: &[u8]) -> Result<Text, NoMemory>
    requires { IsPath bytes.now }
    ensures { IfOk result (λ text. text ≡ bytes.now) }
{
    match Text::read(alloc, bytes) {
        Ok(text) => Ok(text),
        Err(fault) => match fault {
            TextFault::Memory => Err(NoMemory),
            // The premise says that this is a text.
            _ => unreachable!(),
        },
    }
}
