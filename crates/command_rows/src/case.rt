//! A case: what its runs begin with, what they are asked, and what is told of them.
use load_base::{Bytes, NoMemory};
use std::alloc::{AllocError, Global};

/// A file that the host has before the first run.
#[derive(Drop)]
pub(crate) struct HostFile {
    pub(crate) name: String,
    pub(crate) bytes: Bytes,
}

/// One run: its words, and the line that they were read from.
#[derive(Drop)]
pub(crate) struct Command {
    pub(crate) line: String,
    pub(crate) words: Vec<String>,
}

/// What is told in place of an output that this text is, or that ends with it.
#[derive(Drop)]
pub(crate) struct Known {
    pub(crate) name: String,
    pub(crate) whole: bool,
    pub(crate) text: Bytes,
}

/// Bytes of a unit's disk that are told after the last run.
#[derive(Clone, Copy)]
pub(crate) struct Range {
    /// The place of the unit, from 0.
    pub(crate) unit: usize,
    pub(crate) at: u32,
    pub(crate) count: u32,
}

/// The numbers of the calls that fail, counted from the first run on; 0 where none does. Power is
/// lost at the call `power` of the disk, and `script` is the call that the script's first line
/// names.
#[derive(Clone, Copy)]
pub(crate) struct Failing {
    /// The place of the unit whose disk fails or loses power, from 0.
    pub(crate) unit: usize,
    pub(crate) host: u32,
    pub(crate) sink: u32,
    pub(crate) disk: u32,
    pub(crate) power: u32,
    pub(crate) script: u32,
    /// What becomes of the bytes that weren't synced.
    pub(crate) pick: u32,
}

/// Whose calls fail in turn.
#[derive(Clone, Copy)]
pub(crate) enum Side {
    Host,
    Sink,
    Disk,
    Power,
    Script,
}

/// A case is run as often as `count`, each time with another call that fails.
#[derive(Clone, Copy)]
pub(crate) struct Turns {
    pub(crate) side: Side,
    pub(crate) count: u32,
}

/// How many units there are.
pub(crate) const UNITS: usize = 8;

#[derive(Drop)]
pub(crate) struct Case {
    pub(crate) name: String,
    pub(crate) files: Vec<HostFile>,
    /// The disks of the units from offset 0 on; each is zero after these bytes.
    pub(crate) disks: [Vec<u8>; UNITS],
    /// The place of the unit of which the lines speak that come next, from 0.
    pub(crate) unit: usize,
    pub(crate) commands: Vec<Command>,
    pub(crate) known: Vec<Known>,
    /// The files of the host that are told after the last run.
    pub(crate) told: Vec<String>,
    pub(crate) ranges: Vec<Range>,
    pub(crate) failing: Failing,
    pub(crate) turns: Option<Turns>,
    /// The file that gets the line of a power loss.
    pub(crate) script: String,
}

impl Case {
    /// A case with nothing but its name.
    pub(crate) fn new(alloc: Global, name: &str) -> Result<Case, AllocError> {
        let name = String::from_str(alloc, name)?;
        Ok(Case {
            name,
            files: Vec::new(alloc),
            disks: [
                Vec::new(alloc),
                Vec::new(alloc),
                Vec::new(alloc),
                Vec::new(alloc),
                Vec::new(alloc),
                Vec::new(alloc),
                Vec::new(alloc),
                Vec::new(alloc),
            ],
            unit: 0,
            commands: Vec::new(alloc),
            known: Vec::new(alloc),
            told: Vec::new(alloc),
            ranges: Vec::new(alloc),
            failing: Failing {
                unit: 0,
                host: 0,
                sink: 0,
                disk: 0,
                power: 0,
                script: 0,
                pick: 0,
            },
            turns: None,
            script: String::new(alloc),
        })
    }

    /// Takes what another case begins with, and the outputs that it knows.
    pub(crate) fn begin_as(&mut self, alloc: Global, other: &Case) -> Result<(), NoMemory> {
        for file in &other.files {
            self.add_file(alloc, file.name.as_str(), file.bytes.as_slice())?;
        }
        for known in &other.known {
            let (name, text) = (known.name.as_str(), known.text.as_slice());
            self.add_known(alloc, name, known.whole, text)?;
        }
        for (disk, bytes) in self.disks.iter_mut().zip(&other.disks) {
            if !bytes.is_empty() {
                disk.clear();
                disk.extend_from_slice(bytes)?;
            }
        }
        Ok(())
    }

    /// Gives the host one file more.
    pub(crate) fn add_file(
        &mut self,
        alloc: Global,
        name: &str,
        bytes: &[u8],
    ) -> Result<(), NoMemory> {
        let name = String::from_str(alloc, name)?;
        let copy = Bytes::copy_of(alloc, bytes)?;
        self.files.push(HostFile { name, bytes: copy })?;
        Ok(())
    }

    /// Knows one output more.
    pub(crate) fn add_known(
        &mut self,
        alloc: Global,
        name: &str,
        whole: bool,
        text: &[u8],
    ) -> Result<(), NoMemory> {
        let name = String::from_str(alloc, name)?;
        let copy = Bytes::copy_of(alloc, text)?;
        self.known.push(Known {
            name,
            whole,
            text: copy,
        })?;
        Ok(())
    }
}
