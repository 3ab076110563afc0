//! Data and support files with the bytes of their sources.
ghost use Rattle.std.specs.Prelude.{◌≡◌, ◌++◌, [], map, IfOk};
ghost use Rattle.media_build.specs.Building.{unread};
ghost use Rattle.media_build.specs.NoFindings.{body_view};
ghost use Rattle.media_build.specs.Parts.{all_files, body_of, files_from, statements};
ghost use Rattle.media_build.specs.Parts.{with_file as and_file};

use crate::statements::{FileLine, RecipeLine, Statement};
use load_base::{Bytes, List, NoMemory};
use media_check::Placed;
use std::alloc::Global;
use std::marker::Model;

/// A data or support file with the bytes of its source.
#[derive(Drop)]
pub(crate) struct SourceFile {
    line: FileLine,
    bytes: Bytes,
}

impl Model for SourceFile {
    ghost use Rattle.media_build.specs.Parts.{FileBytes};

    ghost Value = { FileBytes };

    ghost view = { λ file. record {
      line = file.line;
      bytes = file.bytes.items;
    } };
}

impl SourceFile {
    /// The file that this line names, with these bytes.
    pub(crate) fn new(alloc: Global, line: &FileLine, bytes: Bytes) -> Result<SourceFile, NoMemory>
        ensures { IfOk result (λ file. file ≡ record { line = line.now; bytes = bytes.items }) }
    {
        let line = FileLine {
            name: line.name,
            member: line.member,
            source: line.source.copy(alloc)?,
            part: line.part.copy(alloc)?,
        };
        Ok(SourceFile { line, bytes })
    }

    /// What the line says that names it.
    pub(crate) fn line(&self) -> &FileLine
        ensures { result.now ≡ self.now.line }
    {
        &self.line
    }

    /// The bytes of its source.
    pub(crate) fn bytes(&self) -> &[u8]
        ensures { result.now ≡ self.now.bytes }
    {
        self.bytes.as_slice()
    }

    /// The file as one of the set.
    pub(crate) fn into_placed(self) -> Placed
        ensures { body_view result ≡ body_of self }
    {
        let SourceFile { line, bytes } = self;
        Placed {
            member: u16::from(line.member),
            name: line.name,
            bytes,
        }
    }
}

/// The data files and the support files of a load.
#[derive(Drop)]
pub(crate) struct LoadFiles {
    data_files: Vec<SourceFile>,
    support_files: Vec<SourceFile>,
}

impl Model for LoadFiles {
    ghost use Rattle.media_build.specs.Parts.{LoadFilesView};

    ghost Value = { LoadFilesView };

    ghost view = { λ files. record {
      data_files = files.data_files.items;
      support_files = files.support_files.items;
    } };
}

impl LoadFiles {
    /// No files yet.
    pub(crate) fn new(alloc: Global) -> LoadFiles
        ensures { result ≡ record { data_files = []; support_files = [] } }
    {
        LoadFiles {
            data_files: Vec::new(alloc),
            support_files: Vec::new(alloc),
        }
    }

    /// With the file that a line names, if it names one, of these bytes.
    pub(crate) fn with(
        self,
        alloc: Global,
        statement: &Statement,
        bytes: Bytes,
    ) -> Result<LoadFiles, NoMemory>
        ensures { IfOk result (λ files. files ≡ and_file self statement.now bytes.items) }
    {
        let LoadFiles {
            mut data_files,
            mut support_files,
        } = self;
        match statement {
            Statement::Data(line) => data_files.push(SourceFile::new(alloc, line, bytes)?)?,
            Statement::Support(line) => support_files.push(SourceFile::new(alloc, line, bytes)?)?,
            _ => {}
        }
        Ok(LoadFiles {
            data_files,
            support_files,
        })
    }

    /// The data files, in the order of their lines.
    pub(crate) fn data_files(&self) -> &[SourceFile]
        ensures { result.now ≡ self.now.data_files }
    {
        self.data_files.as_slice()
    }

    /// The support files, in the order of their lines.
    pub(crate) fn support_files(&self) -> &[SourceFile]
        ensures { result.now ≡ self.now.support_files }
    {
        self.support_files.as_slice()
    }

    /// The files as those of the set, after those before them: the data files first.
    pub(crate) fn add_to(self, bodies: List<Placed>) -> Result<List<Placed>, NoMemory>
        ensures { IfOk result (λ all. map body_view all.items
            ≡ map body_view bodies.items ++ map body_of (all_files self)) }
    {
        let LoadFiles {
            data_files,
            support_files,
        } = self;
        let bodies = add_all(data_files, bodies)?;
        add_all(support_files, bodies)
    }
}

/// Files as those of the set, after those before them.
fn add_all(files: Vec<SourceFile>, bodies: List<Placed>) -> Result<List<Placed>, NoMemory>
    ensures { IfOk result (λ all. map body_view all.items
        ≡ map body_view bodies.items ++ map body_of files.items) }
{
    let mut bodies = bodies;
    for file in files {
        bodies.push(file.into_placed())?;
    }
    Ok(bodies)
}

/// The files that the lines of a load name, without bytes.
pub(crate) fn unread_files(alloc: Global, own: &[RecipeLine]) -> Result<LoadFiles, NoMemory>
    ensures { IfOk result (λ files. files ≡ files_from unread (statements own.now)) }
{
    let mut files = LoadFiles::new(alloc);
    for line in own {
        files = files.with(alloc, &line.statement, Bytes::new(alloc))?;
    }
    Ok(files)
}
