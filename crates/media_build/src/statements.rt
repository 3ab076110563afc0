//! What the lines of a recipe say.
ghost use Rattle.std.specs.Prelude.{◌≡◌, ◌++◌, ◌∷◌, [], IfOk};

use load_base::{Ident, Name, NoMemory, Text};
use part_number::PartNumber;
use std::alloc::Global;
use std::marker::Model;

/// A line of a recipe that isn't passed over.
#[derive(Drop)]
pub struct RecipeLine {
    /// Its number, from 1.
    pub number: u64,
    /// What it says.
    pub statement: Statement,
}

/// What a line of a recipe says.
#[derive(Drop)]
pub enum Statement {
    /// `set PART`: the part number of the set.
    Set(PartNumber),
    /// `members N`: how many members it has, 1 to 255.
    Members(u8),
    /// `load ..`: the start of a load.
    Load(LoadLine),
    /// `hardware ID`: a hardware of the load.
    Hardware(Text),
    /// `position ID POS`: a position of a hardware.
    Position { hardware: Text, position: Text },
    /// `data ..`: a data file of the load.
    Data(FileLine),
    /// `support ..`: a support file of the load.
    Support(FileLine),
    /// `user HEX`: the user data of the load's header.
    User(UserData),
    /// `batch ..`: the start of a batch.
    Batch(BatchLine),
    /// `target ..`: a target of the batch.
    Target(TargetLine),
}

/// `load PART NAME MEMBER TYPEID TYPENAME`.
#[derive(Drop)]
pub struct LoadLine {
    pub part: PartNumber,
    /// The name of its header, which ends with `.LUH`.
    pub name: Name,
    /// The member that has the header, from 1.
    pub member: u8,
    pub type_id: u16,
    /// 1 to 64 bytes 0x21 to 0x7E.
    pub type_name: Text,
}

/// `data NAME MEMBER SOURCE PARTTEXT`, or the same of `support`.
#[derive(Drop)]
pub struct FileLine {
    /// Its name, which ends neither with `.LUH` nor with `.LUM`.
    pub name: Name,
    /// The member that has the file, from 1.
    pub member: u8,
    /// The host's name of the bytes to take, 1 to 150 bytes 0x21 to 0x7E.
    pub source: Text,
    /// 1 to 64 bytes 0x21 to 0x7E.
    pub part: Text,
}

/// The user data of a header: an even number of bytes, which isn't 0.
#[derive(Drop)]
pub struct UserData {
    bytes: Vec<u8>,
}

impl Model for UserData {
    ghost use Rattle.std.specs.Prelude.{List, ℕ};

    ghost Value = { List ℕ };

    ghost view = { λ user. user.bytes.items };
}

impl UserData {
    pub(crate) fn new(bytes: Vec<u8>) -> UserData
        ensures { result ≡ bytes.items }
    {
        UserData { bytes }
    }

    /// Its bytes.
    pub fn as_slice(&self) -> &[u8]
        ensures { result.now ≡ self.now }
    {
        self.bytes.as_slice()
    }
}

/// `batch PART NAME MEMBER`.
#[derive(Drop)]
pub struct BatchLine {
    pub part: PartNumber,
    /// The name of its file, which ends with `.LUB`.
    pub name: Name,
    /// The member that has the file, from 1.
    pub member: u8,
}

/// `target HW POS PART ..`.
#[derive(Drop)]
pub struct TargetLine {
    /// The name of its hardware.
    pub hw: Ident,
    /// Its position.
    pub pos: Ident,
    /// The loads that it gets, each one of the recipe's.
    pub parts: TargetParts,
}

/// The part numbers of the loads that a target gets, 1 to 32. A contract sees it as their list.
#[derive(Drop)]
pub struct TargetParts {
    parts: Vec<PartNumber>,
}

impl Model for TargetParts {
    ghost use Rattle.std.specs.Prelude.{List, ℕ};

    ghost Value = { List (List ℕ) };

    ghost view = { λ target. target.parts.items };
}

impl TargetParts {
    /// None yet.
    pub(crate) fn new(alloc: Global) -> TargetParts
        ensures { result ≡ [] }
    {
        TargetParts {
            parts: Vec::new(alloc),
        }
    }

    /// With one more.
    pub(crate) fn with(self, part: PartNumber) -> Result<TargetParts, NoMemory>
        ensures { IfOk result (λ more. more ≡ self ++ part ∷ []) }
    {
        let TargetParts { mut parts } = self;
        parts.push(part)?;
        Ok(TargetParts { parts })
    }

    /// The part numbers, in the order of the line.
    pub fn as_slice(&self) -> &[PartNumber]
        ensures { result.now ≡ self.now }
    {
        self.parts.as_slice()
    }
}
