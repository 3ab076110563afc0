//! A load of which files are still to come.
ghost use Rattle.std.specs.Prelude.{◌≡◌, ◌<◌, ◌≤◌, Option, Some, length, IfOk};
ghost use Rattle.std.specs.Option.{ForSome};
ghost use Rattle.disk_layout.specs.Manifest.{entry_view};
ghost use Rattle.load_header.specs.Header.{header_view};
ghost use Rattle.session_rules.specs.Uploads.{OpenLoadView, file_reason as file_fault};
ghost use Rattle.session_rules.specs.Uploads.{files_of, load_reason as load_fault, next_entry};
ghost use Rattle.session_rules.specs.Uploads.{next_number, next_with, or_else};
ghost use Rattle.session_rules.specs.TargetRows.{load_entry_of};
ghost use Rattle.load_intake.specs.Places.{next_seen};
ghost use Rattle.load_intake.specs.States.{header_there, upload_of, with_one};

use crate::judging::{entry_at, file_reason, load_reason};
use crate::next::Next;
use crate::sums::FileSums;
use crate::whole::Whole;
use bank_store::{ManifestFile, ManifestLoad};
use load_base::{List, NoMemory};
use load_header::{FileEntry, LoadHeader};
use load_protocol_files::Wanted;
use session_rules::Reason;
use std::alloc::Global;
use std::marker::Model;

/// A load of which files are still to come: what was asked for, its header, how many bytes that
/// has, its files so far, and the check sum of the load so far.
#[derive(Drop)]
pub(crate) struct OpenLoad {
    pub(crate) wanted: Wanted,
    pub(crate) header: LoadHeader,
    pub(crate) size: u32,
    pub(crate) files: List<ManifestFile>,
    pub(crate) crc: u32,
}

impl Model for OpenLoad {
    ghost use Rattle.load_header.specs.Header.{header_view};
    ghost use Rattle.session_rules.specs.Uploads.{OpenLoadView};

    ghost Value = { OpenLoadView };

    ghost view = { λ l. record {
      wanted = l.wanted;
      header = header_view l.header;
      size = l.size;
      files = l.files.items;
      crc = l.crc;
    } };
}

impl OpenLoad {
    /// A load of which nothing but this header is there yet, which has this many bytes.
    pub(crate) fn new(
        alloc: Global,
        wanted: Wanted,
        header: LoadHeader,
        size: u32,
        crc: u32,
    ) -> OpenLoad
        ensures { result ≡ header_there wanted (header_view header) size crc }
    {
        OpenLoad {
            wanted,
            header,
            size,
            files: List::new(alloc),
            crc,
        }
    }

    /// The load as it stands in the manifest with its files so far.
    pub(crate) fn listed(&self, alloc: Global) -> Result<ManifestLoad, NoMemory>
        ensures { IfOk result (λ load. entry_view load ≡ load_entry_of self.now) }
    {
        let mut files = List::new(alloc);
        files.push(ManifestFile {
            name: self.wanted.header,
            length: self.size,
        })?;
        for file in self.files.as_slice() {
            files.push(*file)?;
        }
        Ok(ManifestLoad {
            part: self.wanted.part.text(),
            type_id: Some(self.header.type_id),
            files,
        })
    }

    /// With this file more, after which the check sum of the load so far is this.
    pub(crate) fn with_file(mut self, file: ManifestFile, crc: u32) -> Result<OpenLoad, NoMemory>
        ensures { IfOk result (λ load. load ≡ with_one self file crc) }
    {
        self.files.push(file)?;
        self.crc = crc;
        Ok(self)
    }

    /// What comes after the next file.
    pub(crate) fn next_in(&self, whole: &Whole) -> Next
        requires left { length whole.now.loads < length whole.now.request }
        requires few { length (files_of self.now.header) ≤ 255 }
        requires files { length self.now.files < length (files_of self.now.header) }
        ensures { (current : Option OpenLoadView) → next_seen result
            ≡ next_with (upload_of whole.now current) self.now.header (next_number self.now) }
    {
        whole.next_after(&self.header, self.files.len() + 1)
    }

    /// Why the next file, or its load, is refused, if it is.
    pub(crate) fn verdict(&self, next: Next, sums: &FileSums) -> Option<Reason>
        requires few { length (files_of self.now.header) ≤ 255 }
        requires files { length self.now.files < length (files_of self.now.header) }
        ensures { ForSome (next_entry self.now) (λ entry. result
            ≡ or_else (file_fault (next_number self.now) entry sums.now)
            (load_fault self.now.header (next_seen next) sums.now.load_crc)) }
    {
        let number = self.files.len() as u16 + 1;
        match file_reason(number, self.next_entry(), sums) {
            Some(reason) => Some(reason),
            None => load_reason(&self.header, next, sums.load_crc()),
        }
    }

    /// The next file with this many bytes, as it stands in the manifest.
    pub(crate) fn next_file(&self, size: u32) -> ManifestFile
        requires { length self.now.files < length (files_of self.now.header) }
        ensures { ForSome (next_entry self.now) (λ entry. result
            ≡ record { name = entry.name; length = size }) }
    {
        ManifestFile {
            name: self.next_entry().name,
            length: size,
        }
    }

    /// The entry of the file that comes next.
    pub(crate) fn next_entry(&self) -> &FileEntry
        requires { length self.now.files < length (files_of self.now.header) }
        ensures { next_entry self.now ≡ Some result.now }
    {
        entry_at(&self.header, self.files.len())
    }
}
