//! The positions of a load, gathered by their hardware.
ghost use Rattle.std.specs.Prelude.{◌≡◌, ◌<◌, ◌++◌, ◌∷◌, [], length, map, IfOk, OnOk};
ghost use Rattle.std.specs.List.{flat_map};
ghost use Rattle.load_header.specs.Header.{hardware_at_view};
ghost use Rattle.media_build.specs.Parts.{one_position, statements, with_position, positioned};
ghost use Rattle.media_build.specs.Parts.{HasOneMore};
ghost use Rattle.media_build.specs.RecipeSets.{gathered, position_in};

use crate::statements::{RecipeLine, Statement};
use indexmap::IndexSet;
use load_base::{List, NoMemory, Text};
use load_header::HardwareAt;
use std::alloc::Global;
use std::hash::{Hash, Hasher};
use std::marker::Model;

/// The positions of a load, gathered at the first line of each hardware.
pub(crate) fn positions_of(alloc: Global, own: &[RecipeLine]) -> Result<List<HardwareAt>, NoMemory>
    ensures { IfOk result (λ list. map hardware_at_view list.items
        ≡ gathered (flat_map position_in (statements own.now))) }
{
    let mut kinds = Kinds::new(alloc);
    for line in own {
        kinds = kinds.with_line(alloc, &line.statement)?;
    }
    kinds.into_list(alloc)
}

/// Kinds of hardware, each with its positions. A contract sees it as their list.
#[derive(Drop)]
struct Kinds {
    // The hardware of each, by which its index is found.
    names: IndexSet<Hardware>,
    kinds: Vec<HardwareAt>,
}

impl Model for Kinds {
    ghost use Rattle.std.specs.Prelude.{◌≡◌, List, map};
    ghost use Rattle.load_header.specs.Header.{HardwareAtView, hardware_at_view};

    ghost Value = { List HardwareAtView };

    ghost view = { λ k. map hardware_at_view k.kinds.items };

    ghost invariant = { λ k. k.names.keys ≡ map (λ kind. kind.hardware) k.kinds.items };
}

impl Kinds {
    fn new(alloc: Global) -> Kinds
        ensures { result ≡ [] }
    {
        Kinds {
            names: IndexSet::new(alloc),
            kinds: Vec::new(alloc),
        }
    }

    /// With the position of a line, if it has one.
    fn with_line(self, alloc: Global, statement: &Statement) -> Result<Kinds, NoMemory>
        ensures { IfOk result (λ kinds. kinds ≡ positioned self (position_in statement.now)) }
    {
        match statement {
            Statement::Position { hardware, position } => self.with(alloc, hardware, position),
            _ => Ok(self),
        }
    }

    /// With one more position.
    fn with(self, alloc: Global, hardware: &Text, position: &Text) -> Result<Kinds, NoMemory>
        ensures { IfOk result (λ kinds. kinds ≡ with_position hardware.now position.now self) }
    {
        let Kinds { mut names, kinds } = self;
        let (index, is_new) = names.insert_full(Hardware::of(alloc, hardware)?)?;
        if is_new {
            Kinds::of_new(alloc, names, kinds, hardware, position)
        } else {
            Kinds::of_known(alloc, names, kinds, index, position)
        }
    }

    /// With a new kind, whose name stands last.
    fn of_new(
        alloc: Global,
        names: IndexSet<Hardware>,
        kinds: Vec<HardwareAt>,
        hardware: &Text,
        position: &Text,
    ) -> Result<Kinds, NoMemory>
        requires { names.keys ≡ map (λ kind. kind.hardware) kinds.items ++ hardware.now ∷ [] }
        ensures { IfOk result (λ all. all ≡ map hardware_at_view kinds.items
            ++ one_position hardware.now position.now ∷ []) }
    {
        let mut kinds = kinds;
        let kind = first_of(alloc, hardware, position)?;
        kinds.push(kind)?;
        Ok(Kinds { names, kinds })
    }

    /// With a position of the kind at this index.
    fn of_known(
        alloc: Global,
        names: IndexSet<Hardware>,
        kinds: Vec<HardwareAt>,
        index: usize,
        position: &Text,
    ) -> Result<Kinds, NoMemory>
        requires names { names.keys ≡ map (λ kind. kind.hardware) kinds.items }
        requires within { index < length kinds.items }
        ensures { IfOk result (λ all. HasOneMore index position.now
            (map hardware_at_view kinds.items) all) }
    {
        let mut kinds = kinds;
        add_position(alloc, &mut kinds[index], position)?;
        Ok(Kinds { names, kinds })
    }

    fn into_list(self, alloc: Global) -> Result<List<HardwareAt>, NoMemory>
        ensures { IfOk result (λ list. map hardware_at_view list.items ≡ self) }
    {
        let Kinds { kinds, .. } = self;
        let mut list = List::new(alloc);
        for kind in kinds {
            list.push(kind)?;
        }
        Ok(list)
    }
}

/// A hardware with its first position.
fn first_of(alloc: Global, hardware: &Text, position: &Text) -> Result<HardwareAt, NoMemory>
    ensures { IfOk result (λ kind. hardware_at_view kind
        ≡ one_position hardware.now position.now) }
{
    let mut positions = List::new(alloc);
    positions.push(position.copy(alloc)?)?;
    Ok(HardwareAt {
        hardware: hardware.copy(alloc)?,
        positions,
    })
}

fn add_position(alloc: Global, kind: &mut HardwareAt, position: &Text) -> Result<(), NoMemory>
    ensures hardware { kind.new.hardware ≡ kind.old.hardware }
    ensures positions { OnOk result (kind.new.positions.items
        ≡ kind.old.positions.items ++ position.now ∷ []) }
{
    let position = position.copy(alloc)?;
    kind.positions.push(position)?;
    Ok(())
}

/// A hardware as a key.
#[derive(Drop)]
struct Hardware {
    text: Text,
}

impl Model for Hardware {
    ghost use Rattle.std.specs.Prelude.{List, ℕ};

    ghost Value = { List ℕ };

    ghost view = { λ hardware. hardware.text };
}

impl Hardware {
    fn of(alloc: Global, text: &Text) -> Result<Hardware, NoMemory>
        ensures { IfOk result (λ hardware. hardware ≡ text.now) }
    {
        Ok(Hardware {
            text: text.copy(alloc)?,
        })
    }
}

impl PartialEq for Hardware {
    ghost use Rattle.std.specs.Cmp.{partial_equiv_from_equiv};
    ghost use Rattle.std.specs.Cmp.Lexicographic.{nat_list_eq_equiv};
    ghost use Rattle.load_base.specs.Bytes.{same_bytes};

    ghost eq = { same_bytes };

    ghost laws = { partial_equiv_from_equiv nat_list_eq_equiv };

    fn eq(&self, other: &Hardware) -> bool {
        self.text == other.text
    }
}

impl Eq for Hardware {
    ghost use Rattle.std.specs.Cmp.Lexicographic.{nat_list_eq_equiv};

    ghost laws = { nat_list_eq_equiv };
}

impl Hash for Hardware {
    ghost use Rattle.std.specs.Hash as fed;
    ghost use Rattle.std.specs.Cmp.Lexicographic.{bytes_decides};
    ghost use Rattle.std.proofs.Common.{ap};

    ghost hash_input = { λ hardware. fed.slice fed.u8 hardware };

    ghost respects_eq = { λ one other same. ap (fed.slice fed.u8)
        ((bytes_decides one other).0 same) };

    fn hash<H: Hasher>(&self, state: &mut H) {
        self.text.as_slice().hash(state);
    }
}
