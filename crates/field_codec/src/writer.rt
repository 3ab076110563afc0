ghost use Rattle.std.specs.Prelude.{◌≡◌, ◌++◌, ◌%◌, ◌<◌, ◌^◌, length, List, ℕ, [], OnOk, OnErr};
ghost use Rattle.field_grammar.specs.Fields.{number_bytes, pad_bytes, padded_text, short_text};

use byteorder::{BigEndian, ByteOrder};
use load_base::{Bytes, NoMemory};
use std::alloc::Global;
use std::marker::Model;

/// Writes fields back to back. A call that is out of memory leaves what was written
/// before it.
///
/// A contract sees it as the bytes that were written.
#[derive(Drop)]
pub struct Writer {
    out: Bytes,
}

impl Model for Writer {
    ghost Value = { List ℕ };

    ghost view = { λ w. w.out.items };
}

impl Writer {
    /// A writer of no bytes. It takes no memory yet.
    pub fn new(alloc: Global) -> Writer
        ensures { result ≡ [] }
    {
        Writer {
            out: Bytes::new(alloc),
        }
    }

    /// Reserves memory for this many bytes more.
    pub fn reserve(&mut self, more: usize) -> Result<(), NoMemory>
        ensures { self.new ≡ self.old }
    {
        self.out.reserve(more)
    }

    /// Writes a byte.
    pub fn put_u8(&mut self, value: u8) -> Result<(), NoMemory>
        ensures ok { OnOk result (self.new ≡ self.old ++ number_bytes 1 value) }
        ensures err { OnErr result (self.new ≡ self.old) }
    {
        self.put_raw(&u8_bytes(value))
    }

    /// Writes a number in 2 bytes, the highest first.
    pub fn put_u16(&mut self, value: u16) -> Result<(), NoMemory>
        ensures ok { OnOk result (self.new ≡ self.old ++ number_bytes 2 value) }
        ensures err { OnErr result (self.new ≡ self.old) }
    {
        self.put_raw(&u16_bytes(value))
    }

    /// Writes a number in 4 bytes, the highest first.
    pub fn put_u32(&mut self, value: u32) -> Result<(), NoMemory>
        ensures ok { OnOk result (self.new ≡ self.old ++ number_bytes 4 value) }
        ensures err { OnErr result (self.new ≡ self.old) }
    {
        self.put_raw(&u32_bytes(value))
    }

    /// Writes a number in 8 bytes, the highest first.
    pub fn put_u64(&mut self, value: u64) -> Result<(), NoMemory>
        ensures ok { OnOk result (self.new ≡ self.old ++ number_bytes 8 value) }
        ensures err { OnErr result (self.new ≡ self.old) }
    {
        self.put_raw(&u64_bytes(value))
    }

    /// Writes bytes as they are.
    pub fn put_raw(&mut self, bytes: &[u8]) -> Result<(), NoMemory>
        ensures ok { OnOk result (self.new ≡ self.old ++ bytes.now) }
        ensures err { OnErr result (self.new ≡ self.old) }
    {
        self.out.extend(bytes)
    }

    /// Writes a padded text: its length in two bytes, its bytes, and a zero byte where the length
    /// is odd.
    pub fn put_padded(&mut self, text: &[u8]) -> Result<(), NoMemory>
        requires { length text.now < 2 ^ 16 }
        ensures ok { OnOk result (self.new ≡ self.old ++ padded_text text.now) }
        ensures err { OnErr result (self.new ≡ self.old) }
    {
        self.out.reserve(2 + text.len() + text.len() % 2)?;
        self.out.extend(&u16_bytes(text.len() as u16))?;
        self.out.extend(text)?;
        self.out.extend(pad_of(text.len()))?;
        Ok(())
    }

    /// Writes a short text: its length in one byte, and its bytes.
    pub fn put_short(&mut self, text: &[u8]) -> Result<(), NoMemory>
        requires { length text.now < 2 ^ 8 }
        ensures ok { OnOk result (self.new ≡ self.old ++ short_text text.now) }
        ensures err { OnErr result (self.new ≡ self.old) }
    {
        self.out.reserve(1 + text.len())?;
        self.out.extend(&u8_bytes(text.len() as u8))?;
        self.out.extend(text)?;
        Ok(())
    }

    /// The bytes that were written.
    pub fn finish(self) -> Bytes
        ensures { result.items ≡ self }
    {
        self.out
    }
}

#[tactic(auto, unfolding(field_grammar::specs::Fields::number_bytes))]
fn u8_bytes(value: u8) -> [u8; 1]
    ensures { result ≡ number_bytes 1 value }
{
    [value]
}

#[tactic(auto, unfolding(field_grammar::specs::Fields::number_bytes))]
fn u16_bytes(value: u16) -> [u8; 2]
    ensures { result ≡ number_bytes 2 value }
{
    let mut bytes = [0; 2];
    BigEndian::write_u16(&mut bytes, value);
    bytes
}

#[tactic(auto, unfolding(field_grammar::specs::Fields::number_bytes))]
fn u32_bytes(value: u32) -> [u8; 4]
    ensures { result ≡ number_bytes 4 value }
{
    let mut bytes = [0; 4];
    BigEndian::write_u32(&mut bytes, value);
    bytes
}

#[tactic(auto, unfolding(field_grammar::specs::Fields::number_bytes))]
fn u64_bytes(value: u64) -> [u8; 8]
    ensures { result ≡ number_bytes 8 value }
{
    let mut bytes = [0; 8];
    BigEndian::write_u64(&mut bytes, value);
    bytes
}

#[tactic(auto, unfolding(field_grammar::specs::Fields::pad_bytes))]
fn pad_of(size: usize) -> &'static [u8]
    ensures pad { result.now ≡ pad_bytes size }
    ensures len { length result.now ≡ size % 2 }
{
    if size % 2 == 0 { &[] } else { &[0] }
}
