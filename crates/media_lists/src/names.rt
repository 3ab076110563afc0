//! Whether an earlier entry has the name of an entry, without a look at all of them.
ghost use Rattle.std.specs.Prelude.{◌≡◌, ◌++◌, ◌<◌, ◌≤◌, ◌∷◌, [], length, map, true, not, IsTrue};
ghost use Rattle.std.specs.Prelude.{IfOk, IfErr};
ghost use Rattle.std.specs.List.{list_any};
ghost use Rattle.std.specs.List.Sorted.{IsPartitionPoint};
ghost use Rattle.load_base.specs.Bytes.{same_bytes};
ghost use Rattle.media_lists.specs.Entries.{is_listed};
ghost use Rattle.media_lists.specs.Loads.{load_entry_view, load_name};
ghost use Rattle.media_lists.specs.NameOrder.{name_at, by_bytes, IsOrder};

use crate::lists::{ListedFile, LoadEntry};
use crate::reading::MOST_ENTRIES;
use arrayvec::ArrayVec;
use std::cmp::Ordering;

/// An entry of a list, which has the name of a file.
pub trait Named {
    ghost use Rattle.std.specs.Prelude.{List, ℕ};

    /// The name.
    ghost name_of: { Self → List ℕ };

    /// The name.
    fn name(&self) -> &[u8]
        ensures { result.now ≡ name_of self.now };
}

impl Named for ListedFile {
    ghost name_of = { λ file. file.name };

    fn name(&self) -> &[u8] {
        self.name.as_slice()
    }
}

impl Named for LoadEntry {
    ghost name_of = { λ load. load.header_name };

    fn name(&self) -> &[u8] {
        self.header_name.as_slice()
    }
}

/// The indices of entries in the order of their names. It takes no memory.
pub type Order = ArrayVec<u16, MOST_ENTRIES>;

/// Adds the index of the next entry, whose name this is, unless one of these entries has it.
pub fn is_new<E: Named>(order: &mut Order, entries: &[E], name: &[u8]) -> bool
    requires few { length entries.now < 1024 }
    requires order { IsOrder (map E.name_of entries.now) order.old.items }
    ensures new { result ≡ not (is_listed E.name_of name.now entries.now) }
    ensures order { IsTrue result → IsOrder (map E.name_of entries.now ++ name.now ∷ [])
        order.new.items }
{
    match find(order.as_slice(), entries, name) {
        Ok(_) => false,
        Err(at) => {
            order.insert(at, entries.len() as u16);
            true
        }
    }
}

/// The same of a load, as a list of loads sees it.
pub(crate) fn is_new_load(order: &mut Order, loads: &[LoadEntry], name: &[u8]) -> bool
    requires few { length loads.now < 1024 }
    requires order { IsOrder (map load_name (map load_entry_view loads.now)) order.old.items }
    ensures new { result ≡ not (is_listed load_name name.now (map load_entry_view loads.now)) }
    ensures order { IsTrue result → IsOrder (map load_name (map load_entry_view loads.now)
        ++ name.now ∷ []) order.new.items }
{
    is_new(order, loads, name)
}

/// The index of the name in the order, or the one where it would be.
fn find<E: Named>(order: &[u16], entries: &[E], name: &[u8]) -> Result<usize, usize>
    requires { IsOrder (map E.name_of entries.now) order.now }
    ensures found { IfOk result (λ at. list_any (λ other. same_bytes other name.now)
        (map E.name_of entries.now) ≡ true) }
    ensures within { IfErr result (λ at. at ≤ length order.now) }
    ensures between { IfErr result (λ at. IsPartitionPoint
        (λ offset. by_bytes (name_at (map E.name_of entries.now) offset) name.now ≡ Ordering.Less)
        (λ offset. by_bytes (name_at (map E.name_of entries.now) offset) name.now
        ≡ Ordering.Greater)
        order.now at) }
{
    order.binary_search_by(|offset| compared(entries, *offset, name))
}

/// The name of the entry at this index, compared with this one.
fn compared<E: Named>(entries: &[E], offset: u16, name: &[u8]) -> Ordering
    ensures { result ≡ by_bytes (name_at (map E.name_of entries.now) offset) name.now }
{
    let offset = offset as usize;
    if offset < entries.len() {
        entries[offset].name().cmp(name)
    } else {
        let none: &[u8] = &[];
        none.cmp(name)
    }
}
