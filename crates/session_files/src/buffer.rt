//! What is kept of a header or a protocol file while it arrives.
ghost use Rattle.std.specs.Prelude.{◌≡◌, ◌≤◌, OnErr, OnOk, length};
ghost use Rattle.session_rules.specs.Buffers.{Buffer, buffer_size, buffered_more, empty_buffer};
ghost use Rattle.session_rules.specs.Buffers.{is_too_long};
ghost use Rattle.session_files.specs.Prefixes.{IsFilled};

use load_base::{Bytes, NoMemory};
use std::alloc::Global;
use std::marker::Model;

/// The most bytes of a header or a protocol file.
const MOST_BYTES: usize = 65_536;

/// The first 65,536 bytes of a file that arrives, and the count of all its bytes: a longer one is
/// refused when it is whole.
#[derive(Drop)]
pub struct FileBuffer {
    prefix: Bytes,
    count: u64,
}

impl Model for FileBuffer {
    ghost use Rattle.session_rules.specs.Buffers.{Buffer};
    ghost use Rattle.session_files.specs.Prefixes.{IsFilled};

    ghost Value = { Buffer };

    ghost view = { λ b. record { prefix = b.prefix.items; count = b.count } };

    ghost invariant = { λ b. IsFilled (record { prefix = b.prefix.items; count = b.count }) };
}

impl FileBuffer {
    /// Nothing arrived yet. It takes no memory before it is reserved, or bytes come.
    pub fn new(alloc: Global) -> FileBuffer
        ensures { result ≡ empty_buffer }
    {
        FileBuffer {
            prefix: Bytes::new(alloc),
            count: 0,
        }
    }

    /// Reserves the memory of all that is kept of a file, so that bytes that come take none.
    pub fn reserve(&mut self) -> Result<(), NoMemory>
        ensures { self.new ≡ self.old }
    {
        let more = MOST_BYTES.saturating_sub(self.prefix.len());
        self.prefix.reserve(more)?;
        Ok(())
    }

    /// Empties it for another file, and keeps its memory.
    pub fn clear(&mut self)
        ensures { self.new ≡ empty_buffer }
    {
        self.prefix.clear();
        self.count = 0;
    }

    /// Takes the next bytes of the file. A refusal leaves it as it was.
    pub fn take(&mut self, bytes: &[u8]) -> Result<(), NoMemory>
        ensures takes { OnOk result (self.new ≡ buffered_more self.old bytes.now) }
        ensures kept { OnErr result (self.new ≡ self.old) }
    {
        // No file has so many bytes that a u64 can't count them.
        let count = self.count.checked_add(bytes.len() as u64).ok_or(NoMemory)?;
        let spare = MOST_BYTES.saturating_sub(self.prefix.len());
        self.prefix.extend(&bytes[..spare.min(bytes.len())])?;
        self.count = count;
        Ok(())
    }

    /// Whether the file has more than 65,536 bytes.
    pub fn is_too_long(&self) -> bool
        ensures { result ≡ is_too_long self.now }
    {
        self.count > MOST_BYTES as u64
    }

    /// At most 65,536 bytes of the file are kept.
    // For the proof: does nothing.
    pub fn keeps_little(&self)
        ensures { length self.now.prefix ≤ buffer_size }
    {
        let _kept = self.prefix.len();
    }

    /// How many bytes of the file came.
    pub fn count(&self) -> u64
        ensures is { result ≡ self.now.count }
        ensures filled { IsFilled self.now }
    {
        self.count
    }

    /// The first bytes of the file, which are all of one that isn't too long.
    pub fn prefix(&self) -> &[u8]
        ensures { result.now ≡ self.now.prefix }
    {
        self.prefix.as_slice()
    }
}
