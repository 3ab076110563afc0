//! The part numbers of the loads of a recipe, in which one is found.
ghost use Rattle.std.specs.Prelude.{◌≡◌, [], OnOk};
ghost use Rattle.std.specs.List.{list_any};
ghost use Rattle.load_base.specs.Bytes.{same_bytes};
ghost use Rattle.media_build.specs.Partials.{with_part};

use indexmap::IndexSet;
use load_base::NoMemory;
use part_number::PartNumber;
use std::alloc::Global;
use std::marker::Model;

/// The part numbers of loads, each once. A contract sees it as their list.
#[derive(Drop)]
pub(crate) struct LoadParts {
    parts: IndexSet<PartNumber>,
}

impl Model for LoadParts {
    ghost use Rattle.std.specs.Prelude.{List, ℕ};

    ghost Value = { List (List ℕ) };

    ghost view = { λ loads. loads.parts.keys };
}

impl LoadParts {
    /// None yet.
    pub(crate) fn new(alloc: Global) -> LoadParts
        ensures { result ≡ [] }
    {
        LoadParts {
            parts: IndexSet::new(alloc),
        }
    }

    /// Adds one, unless it is there.
    pub(crate) fn add(&mut self, part: PartNumber) -> Result<(), NoMemory>
        ensures { OnOk result (self.new ≡ with_part part self.old) }
    {
        self.parts.insert(part)?;
        Ok(())
    }

    /// Whether it is there.
    pub(crate) fn contains(&self, part: PartNumber) -> bool
        ensures { result ≡ list_any (same_bytes part) self.now }
    {
        self.parts.contains(&part)
    }
}
