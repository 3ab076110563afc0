ghost use Rattle.std.specs.Prelude.{◌≡◌, ◌+◌, ◌==◌, ◌≤◌, ◌%◌, length, drop, IfOk, IfErr};
ghost use Rattle.std.specs.Prelude.{OnOk, OnErr};
ghost use Rattle.std.specs.List.{position};
ghost use Rattle.field_grammar.specs.Cursor.{cursor_at};
ghost use Rattle.field_grammar.specs.Answers.{Reads, ReadsAt};
ghost use Rattle.field_grammar.specs.Fields.{number, number_bytes, raw, pad, padded, padded_parts};
ghost use Rattle.field_grammar.specs.Fields.{short, short_parts, text_fault, short_text};
ghost use Rattle.field_grammar.specs.Fields.{padded_text, pad_bytes};
ghost use Rattle.field_grammar.specs.Grammar.{zero_ended};
ghost use Rattle.field_grammar.specs.declared.fault.FieldFault.TheVariants.{Short};
ghost use Rattle.field_codec.specs.Reader.{zero_ended_text, IsUnended, Passes, PassesAt, IsShort};
ghost use Rattle.field_codec.specs.Reader.{IsPadFault, IsPaddedFault, short_size};

use byteorder::{BigEndian, ByteOrder};
use field_grammar::FieldFault;
use std::marker::Model;

/// Reads fields from left to right. It is at an offset in the bytes, and a call that is refused
/// leaves it there.
///
/// A contract sees it as that position: the bytes `before` it, and the `rest` from it on. Each call
/// says what it read as it is written, and, for decoders, that it reads a field of a format.
#[derive(Drop)]
pub struct Reader<'a> {
    bytes: &'a [u8],
    offset: usize,
}

impl<'a> Model for Reader<'a> {
    ghost use Rattle.std.specs.Prelude.{◌≤◌, length};
    ghost use Rattle.field_grammar.specs.Cursor.{Cursor, cursor_at};

    ghost Value = { Cursor };

    ghost view = { λ r. cursor_at r.bytes.now r.offset };

    ghost invariant = { λ r. r.offset ≤ length r.bytes.now };
}

impl<'a> Reader<'a> {
    ghost use Rattle.field_grammar.specs.Cursor.{start};

    /// A reader at the start of the bytes.
    pub fn new(bytes: &'a [u8]) -> Reader<'a>
        ensures { result ≡ start bytes.now }
    {
        Reader { bytes, offset: 0 }
    }

    /// The offset of the reader in the bytes, from 0.
    pub fn place(&self) -> usize
        ensures { result ≡ length self.now.before }
    {
        self.offset
    }

    /// How many bytes are left.
    pub fn left(&self) -> usize
        ensures { result ≡ length self.now.rest }
    {
        self.bytes.len() - self.offset
    }

    /// How many bytes there are, before the reader and after it.
    pub fn len(&self) -> usize
        ensures { result ≡ length self.now.before + length self.now.rest }
    {
        self.bytes.len()
    }

    /// The bytes that were read so far.
    pub fn before(&self) -> &'a [u8]
        ensures { result.now ≡ self.now.before }
    {
        &self.bytes[..self.offset]
    }

    /// The next `count` bytes.
    pub fn take_raw(&mut self, count: usize) -> Result<&'a [u8], FieldFault>
        ensures ok { IfOk result (λ bytes. Passes bytes.now self.old self.new) }
        ensures len { IfOk result (λ bytes. length bytes.now ≡ count) }
        ensures err { IfErr result (IsShort count self.old) }
        ensures same { OnErr result (self.new ≡ self.old) }
        ensures reads { Reads (λ bytes. bytes.now) (raw count) self.old result self.new }
    {
        let (bytes, offset) = raw_at(self.bytes, self.offset, count)?;
        self.offset = offset;
        Ok(bytes)
    }

    /// The next byte, as a number.
    pub fn take_u8(&mut self) -> Result<u8, FieldFault>
        ensures ok { IfOk result (λ value. Passes (number_bytes 1 value) self.old self.new) }
        ensures err { IfErr result (IsShort 1 self.old) }
        ensures same { OnErr result (self.new ≡ self.old) }
        ensures reads { Reads (λ value. value) (number 1) self.old result self.new }
    {
        let (value, offset) = u8_at(self.bytes, self.offset)?;
        self.offset = offset;
        Ok(value)
    }

    /// The next 2 bytes, as a number.
    pub fn take_u16(&mut self) -> Result<u16, FieldFault>
        ensures ok { IfOk result (λ value. Passes (number_bytes 2 value) self.old self.new) }
        ensures err { IfErr result (IsShort 2 self.old) }
        ensures same { OnErr result (self.new ≡ self.old) }
        ensures reads { Reads (λ value. value) (number 2) self.old result self.new }
    {
        let (value, offset) = u16_at(self.bytes, self.offset)?;
        self.offset = offset;
        Ok(value)
    }

    /// The next 4 bytes, as a number.
    pub fn take_u32(&mut self) -> Result<u32, FieldFault>
        ensures ok { IfOk result (λ value. Passes (number_bytes 4 value) self.old self.new) }
        ensures err { IfErr result (IsShort 4 self.old) }
        ensures same { OnErr result (self.new ≡ self.old) }
        ensures reads { Reads (λ value. value) (number 4) self.old result self.new }
    {
        let (value, offset) = u32_at(self.bytes, self.offset)?;
        self.offset = offset;
        Ok(value)
    }

    /// The next 8 bytes, as a number.
    pub fn take_u64(&mut self) -> Result<u64, FieldFault>
        ensures ok { IfOk result (λ value. Passes (number_bytes 8 value) self.old self.new) }
        ensures err { IfErr result (IsShort 8 self.old) }
        ensures same { OnErr result (self.new ≡ self.old) }
        ensures reads { Reads (λ value. value) (number 8) self.old result self.new }
    {
        let (value, offset) = u64_at(self.bytes, self.offset)?;
        self.offset = offset;
        Ok(value)
    }

    /// What fills a text of `size` bytes up to an even number: a zero byte where `size` is odd,
    /// else nothing.
    pub fn take_pad(&mut self, size: usize) -> Result<(), FieldFault>
        ensures ok { OnOk result (Passes (pad_bytes size) self.old self.new) }
        ensures err { IfErr result (IsPadFault size self.old) }
        ensures same { OnErr result (self.new ≡ self.old) }
        ensures reads { Reads (λ unit. unit) (pad size) self.old result self.new }
    {
        let ((), offset) = pad_at(self.bytes, self.offset, size)?;
        self.offset = offset;
        Ok(())
    }

    /// A padded text: its length in two bytes, its bytes, and a zero byte where the length is odd.
    /// Where one of the three doesn't fit, the fault has the offset where the text begins.
    pub fn take_padded(&mut self) -> Result<&'a [u8], FieldFault>
        ensures ok { IfOk result (λ text. Passes (padded_text text.now) self.old self.new) }
        ensures err { IfErr result (IsPaddedFault self.old) }
        ensures same { OnErr result (self.new ≡ self.old) }
        ensures reads { Reads (λ text. text.now) padded self.old result self.new }
    {
        let (text, offset) = padded_at(self.bytes, self.offset)?;
        self.offset = offset;
        Ok(text)
    }

    /// A short text: its length in one byte, and its bytes. Where one of the two doesn't fit, the
    /// fault has the offset where the text begins.
    pub fn take_short(&mut self) -> Result<&'a [u8], FieldFault>
        ensures ok { IfOk result (λ text. Passes (short_text text.now) self.old self.new) }
        ensures err { IfErr result (IsShort (short_size self.old.rest) self.old) }
        ensures same { OnErr result (self.new ≡ self.old) }
        ensures reads { Reads (λ text. text.now) short self.old result self.new }
    {
        let (text, offset) = short_at(self.bytes, self.offset)?;
        self.offset = offset;
        Ok(text)
    }

    /// A text up to a zero byte, and the zero. Where no zero is left, the fault has the offset
    /// where the text begins.
    pub fn take_zero_ended(&mut self) -> Result<&'a [u8], FieldFault>
        ensures ok { IfOk result (λ text. Passes (zero_ended_text text.now) self.old self.new) }
        ensures err { IfErr result (IsUnended self.old) }
        ensures same { OnErr result (self.new ≡ self.old) }
        ensures reads { Reads (λ text. text.now) (zero_ended Short) self.old result self.new }
    {
        let (text, offset) = zero_ended_at(self.bytes, self.offset)?;
        self.offset = offset;
        Ok(text)
    }
}

fn first_zero(bytes: &[u8]) -> Option<usize>
    ensures { result ≡ position (λ byte. byte == 0) bytes.now }
{
    bytes.iter().position(|byte| *byte == 0)
}

fn zero_ended_at(bytes: &[u8], offset: usize) -> Result<(&[u8], usize), FieldFault>
    requires { offset ≤ length bytes.now }
    ensures ok { IfOk result (λ x. PassesAt bytes.now offset x.1 (zero_ended_text x.0.now)) }
    ensures err { IfErr result (IsUnended (cursor_at bytes.now offset)) }
    ensures reads { ReadsAt (λ text. text.now) (zero_ended Short) bytes.now offset result }
{
    match first_zero(&bytes[offset..]) {
        Some(size) => {
            let end = offset + size;
            Ok((&bytes[offset..end], end + 1))
        }
        None => Err(FieldFault::Short(offset as u64)),
    }
}

#[tactic(auto, unfolding(field_grammar::specs::Fields::raw))]
fn raw_at(bytes: &[u8], offset: usize, count: usize) -> Result<(&[u8], usize), FieldFault>
    requires { offset ≤ length bytes.now }
    ensures ok { IfOk result (λ x. PassesAt bytes.now offset x.1 x.0.now) }
    ensures len { IfOk result (λ x. length x.0.now ≡ count) }
    ensures err { IfErr result (IsShort count (cursor_at bytes.now offset)) }
    ensures reads { ReadsAt (λ b. b.now) (raw count) bytes.now offset result }
{
    if bytes.len() - offset < count {
        return Err(FieldFault::Short(offset as u64));
    }
    let end = offset + count;
    Ok((&bytes[offset..end], end))
}

#[tactic(auto, using(crate::proofs::Passing::u8_passes), unfolding(field_grammar::specs::Fields::number, field_grammar::specs::Fields::number_in, field_grammar::specs::Fields::number_bytes))]
fn u8_at(bytes: &[u8], offset: usize) -> Result<(u8, usize), FieldFault>
    requires { offset ≤ length bytes.now }
    ensures ok { IfOk result (λ x. PassesAt bytes.now offset x.1 (number_bytes 1 x.0)) }
    ensures err { IfErr result (IsShort 1 (cursor_at bytes.now offset)) }
    ensures reads { ReadsAt (λ n. n) (number 1) bytes.now offset result }
{
    let (b, offset) = raw_at(bytes, offset, 1)?;
    Ok((b[0], offset))
}

#[tactic(auto, using(crate::proofs::Passing::u16_passes), unfolding(field_grammar::specs::Fields::number, field_grammar::specs::Fields::number_in, field_grammar::specs::Fields::number_bytes))]
fn u16_at(bytes: &[u8], offset: usize) -> Result<(u16, usize), FieldFault>
    requires { offset ≤ length bytes.now }
    ensures ok { IfOk result (λ x. PassesAt bytes.now offset x.1 (number_bytes 2 x.0)) }
    ensures err { IfErr result (IsShort 2 (cursor_at bytes.now offset)) }
    ensures reads { ReadsAt (λ n. n) (number 2) bytes.now offset result }
{
    let (b, offset) = raw_at(bytes, offset, 2)?;
    Ok((BigEndian::read_u16(b), offset))
}

#[tactic(auto, using(crate::proofs::Passing::u32_passes), unfolding(field_grammar::specs::Fields::number, field_grammar::specs::Fields::number_in, field_grammar::specs::Fields::number_bytes))]
fn u32_at(bytes: &[u8], offset: usize) -> Result<(u32, usize), FieldFault>
    requires { offset ≤ length bytes.now }
    ensures ok { IfOk result (λ x. PassesAt bytes.now offset x.1 (number_bytes 4 x.0)) }
    ensures err { IfErr result (IsShort 4 (cursor_at bytes.now offset)) }
    ensures reads { ReadsAt (λ n. n) (number 4) bytes.now offset result }
{
    let (b, offset) = raw_at(bytes, offset, 4)?;
    Ok((BigEndian::read_u32(b), offset))
}

#[tactic(auto, using(crate::proofs::Passing::u64_passes), unfolding(field_grammar::specs::Fields::number, field_grammar::specs::Fields::number_in, field_grammar::specs::Fields::number_bytes))]
fn u64_at(bytes: &[u8], offset: usize) -> Result<(u64, usize), FieldFault>
    requires { offset ≤ length bytes.now }
    ensures ok { IfOk result (λ x. PassesAt bytes.now offset x.1 (number_bytes 8 x.0)) }
    ensures err { IfErr result (IsShort 8 (cursor_at bytes.now offset)) }
    ensures reads { ReadsAt (λ n. n) (number 8) bytes.now offset result }
{
    let (b, offset) = raw_at(bytes, offset, 8)?;
    Ok((BigEndian::read_u64(b), offset))
}

#[tactic(auto, unfolding(field_grammar::specs::Fields::pad))]
fn pad_part_at(bytes: &[u8], offset: usize, size: usize) -> Result<((), usize), FieldFault>
    requires { offset ≤ length bytes.now }
    ensures { ReadsAt (λ u. u) (pad size) bytes.now offset result }
{
    let (b, end) = raw_at(bytes, offset, size % 2)?;
    if size % 2 == 1 && b[0] != 0 {
        return Err(FieldFault::BadPad(offset as u64));
    }
    Ok(((), end))
}

#[tactic(auto, using(crate::proofs::Passing::pad_passes, crate::proofs::Refusing::pad_err))]
fn pad_at(bytes: &[u8], offset: usize, size: usize) -> Result<((), usize), FieldFault>
    requires { offset ≤ length bytes.now }
    ensures ok { IfOk result (λ x. PassesAt bytes.now offset x.1 (pad_bytes size)) }
    ensures err { IfErr result (IsPadFault size (cursor_at bytes.now offset)) }
    ensures reads { ReadsAt (λ u. u) (pad size) bytes.now offset result }
{
    let ((), end) = pad_part_at(bytes, offset, size)?;
    Ok(((), end))
}

/// A fault of a text's part, as one of the text that begins at this offset.
fn text_fault(fault: FieldFault, offset: usize) -> FieldFault
    ensures { result ≡ text_fault offset fault }
{
    match fault {
        FieldFault::Short(_) => FieldFault::Short(offset as u64),
        FieldFault::BadPad(part) => FieldFault::BadPad(part),
    }
}

#[tactic(auto, unfolding(field_grammar::specs::Fields::padded_parts))]
fn padded_parts_at(bytes: &[u8], offset: usize) -> Result<(&[u8], usize), FieldFault>
    requires { offset ≤ length bytes.now }
    ensures { ReadsAt (λ b. b.now) padded_parts bytes.now offset result }
{
    let (n, offset) = u16_at(bytes, offset)?;
    let (text, offset) = raw_at(bytes, offset, n as usize)?;
    let ((), offset) = pad_part_at(bytes, offset, n as usize)?;
    Ok((text, offset))
}

#[tactic(auto, unfolding(field_grammar::specs::Fields::short_parts))]
fn short_parts_at(bytes: &[u8], offset: usize) -> Result<(&[u8], usize), FieldFault>
    requires { offset ≤ length bytes.now }
    ensures { ReadsAt (λ b. b.now) short_parts bytes.now offset result }
{
    let (n, offset) = u8_at(bytes, offset)?;
    let (text, offset) = raw_at(bytes, offset, n as usize)?;
    Ok((text, offset))
}

#[tactic(auto, unfolding(field_grammar::specs::Fields::padded))]
fn padded_as_one(bytes: &[u8], offset: usize) -> Result<(&[u8], usize), FieldFault>
    requires { offset ≤ length bytes.now }
    ensures { ReadsAt (λ b. b.now) padded bytes.now offset result }
{
    padded_parts_at(bytes, offset).map_err(|fault| text_fault(fault, offset))
}

#[tactic(auto, using(crate::proofs::Passing::padded_passes, crate::proofs::Refusing::padded_err))]
fn padded_at(bytes: &[u8], offset: usize) -> Result<(&[u8], usize), FieldFault>
    requires { offset ≤ length bytes.now }
    ensures ok { IfOk result (λ x. PassesAt bytes.now offset x.1 (padded_text x.0.now)) }
    ensures err { IfErr result (IsPaddedFault (cursor_at bytes.now offset)) }
    ensures reads { ReadsAt (λ b. b.now) padded bytes.now offset result }
{
    let (text, end) = padded_as_one(bytes, offset)?;
    Ok((text, end))
}

#[tactic(auto, unfolding(field_grammar::specs::Fields::short))]
fn short_as_one(bytes: &[u8], offset: usize) -> Result<(&[u8], usize), FieldFault>
    requires { offset ≤ length bytes.now }
    ensures { ReadsAt (λ b. b.now) short bytes.now offset result }
{
    short_parts_at(bytes, offset).map_err(|fault| text_fault(fault, offset))
}

#[tactic(auto, using(crate::proofs::Passing::short_passes, crate::proofs::Refusing::short_err))]
fn short_at(bytes: &[u8], offset: usize) -> Result<(&[u8], usize), FieldFault>
    requires { offset ≤ length bytes.now }
    ensures ok { IfOk result (λ x. PassesAt bytes.now offset x.1 (short_text x.0.now)) }
    ensures err { IfErr result (IsShort (short_size (drop offset bytes.now))
        (cursor_at bytes.now offset)) }
    ensures reads { ReadsAt (λ b. b.now) short bytes.now offset result }
{
    let (text, end) = short_as_one(bytes, offset)?;
    Ok((text, end))
}
