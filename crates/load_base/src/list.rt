//! Lists that can reserve spare capacity.
ghost use Rattle.std.specs.Prelude.{◌≡◌, ◌+◌, ◌<◌, ◌≤◌, ◌↔◌, [], ◌∷◌, ◌++◌, length, IsOk};
ghost use Rattle.std.specs.Prelude.{IsTrue, IsNone, IfNone, IfSome, IfOk, OnOk, OnErr};

use std::alloc::{AllocError, AllocFailed, Global};
use std::marker::Model;

/// Out of memory: the one refusal that no input causes.
#[derive(Clone, Copy, Debug, PartialEq, Eq)]
pub struct NoMemory;

impl From<AllocError> for NoMemory {
    fn from(_: AllocError) -> NoMemory {
        NoMemory
    }
}

impl<T: Drop> From<AllocFailed<T>> for NoMemory {
    fn from(_: AllocFailed<T>) -> NoMemory {
        NoMemory
    }
}

/// A list that can reserve spare capacity, so that later pushes take no memory.
///
/// A contract sees it as its members, `items`, and its spare capacity, `spare`: this many pushes
/// take no memory.
#[derive(Drop)]
pub struct List<T> {
    inner: Vec<T>,
}

/// The bytes of a file, a text or a datagram.
pub type Bytes = List<u8>;

impl<T> Model for List<T> {
    ghost use Rattle.std.specs.Prelude.{◌-◌, vec_len, vec_capacity};
    ghost use Rattle.load_base.specs.Listed.{Listed, listed_code};

    ghost Value = { Listed T };

    ghost coded = { listed_code T.code };

    ghost view = { λ l. record {
      items = l.inner.items;
      spare = vec_capacity l.inner - vec_len l.inner;
    } };
}

impl<T> List<T> {
    /// An empty list. It takes no memory yet.
    pub fn new(alloc: Global) -> List<T>
        ensures { result.items ≡ [] }
    {
        List {
            inner: Vec::new(alloc),
        }
    }

    /// Adds a member at the end. One that isn't taken is dropped.
    pub fn push(&mut self, value: T) -> Result<(), NoMemory>
    where
        T: Drop,
        ensures ok { OnOk result (self.new.items ≡ self.old.items ++ value ∷ []) }
        ensures err { OnErr result (self.new.items ≡ self.old.items) }
        ensures spare { self.old.spare ≤ self.new.spare + 1 }
        ensures has_spare { 1 ≤ self.old.spare → IsOk result }
    {
        self.inner.push(value)?;
        Ok(())
    }

    /// Reserves spare capacity for `more` pushes.
    pub fn reserve(&mut self, more: usize) -> Result<(), NoMemory>
        ensures ok { OnOk result (more ≤ self.new.spare) }
        ensures items { self.new.items ≡ self.old.items }
        ensures spare { self.old.spare ≤ self.new.spare }
        ensures has_spare { more ≤ self.old.spare → IsOk result }
    {
        self.inner.reserve(more)?;
        Ok(())
    }

    /// Takes the last member off, and leaves spare capacity for one more push.
    pub fn pop(&mut self) -> Option<T>
        ensures last { IfSome result (λ value. self.old.items ≡ self.new.items ++ value ∷ []) }
        ensures spare { IfSome result (λ _. self.new.spare ≡ self.old.spare + 1) }
        ensures empty { IsNone result ↔ (self.old.items ≡ []) }
        ensures same { IfNone result (self.new ≡ self.old) }
    {
        self.inner.pop()
    }

    /// Takes all members off, and keeps their memory as spare capacity.
    pub fn clear(&mut self)
    where
        T: Drop,
        ensures items { self.new.items ≡ [] }
        ensures spare { self.new.spare ≡ self.old.spare + length self.old.items }
    {
        self.inner.clear();
    }

    /// The members.
    pub fn as_slice(&self) -> &[T]
        ensures { result.now ≡ self.now.items }
    {
        self.inner.as_slice()
    }

    /// The number of members.
    pub fn len(&self) -> usize
        ensures { result ≡ length self.now.items }
    {
        self.inner.len()
    }

    /// Whether there is no member.
    pub fn is_empty(&self) -> bool
        ensures { IsTrue result ↔ (self.now.items ≡ []) }
    {
        self.inner.is_empty()
    }
}

impl<T> From<Vec<T>> for List<T> {
    ghost use Rattle.std.specs.Prelude.{◌≡◌};

    ghost from_gives = { λ members list. list.items ≡ members.items };

    /// The same members. It takes no memory.
    fn from(members: Vec<T>) -> List<T> {
        List { inner: members }
    }
}

impl<T: PartialEq> PartialEq for List<T> {
    ghost use Rattle.std.specs.Prelude.{List};
    ghost use Rattle.std.specs.Cmp.{on_per};
    ghost use Rattle.std.specs.Cmp.Lexicographic.{pointwise, lists_per};

    ghost eq = { λ one other. pointwise T.eq one.items other.items };

    ghost laws = { on_per (λ list. list.items) (lists_per T.laws) };

    fn eq(&self, other: &List<T>) -> bool {
        self.as_slice() == other.as_slice()
    }
}

impl<T: Eq> Eq for List<T> {
    ghost use Rattle.std.specs.Cmp.{on_equiv};
    ghost use Rattle.std.specs.Cmp.Lexicographic.{lists_equiv};

    ghost laws = { on_equiv (λ list. list.items) (lists_equiv T.Eq.laws) };
}

impl List<u8> {
    /// A list of these bytes.
    pub fn copy_of(alloc: Global, bytes: &[u8]) -> Result<Bytes, NoMemory>
        ensures { IfOk result (λ copy. copy.items ≡ bytes.now) }
    {
        let mut copy = List::new(alloc);
        copy.extend(bytes)?;
        Ok(copy)
    }

    /// Adds all the bytes at the end, or none.
    pub fn extend(&mut self, bytes: &[u8]) -> Result<(), NoMemory>
        ensures ok { OnOk result (self.new.items ≡ self.old.items ++ bytes.now) }
        ensures err { OnErr result ((self.new.items ≡ self.old.items)
            × (self.old.spare ≤ self.new.spare)) }
        ensures spare { self.old.spare ≤ self.new.spare + length bytes.now }
        ensures has_spare { length bytes.now ≤ self.old.spare → IsOk result }
    {
        self.inner.extend_from_slice(bytes)?;
        Ok(())
    }
}
