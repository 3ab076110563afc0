//! Who a target is, and how that stands at the start of its disk.
ghost use Rattle.std.specs.Prelude.{◌≡◌, ◌≤◌, length, IfOk, IfErr};
ghost use Rattle.field_grammar.specs.Grammar.{SpelledAtStart, Fault};
ghost use Rattle.disk_layout.specs.Offsets.{IsBankSize, longest_identity};
ghost use Rattle.disk_layout.specs.Identity.{IsIdentity, identity_text, fault_offset, exact_byte};
ghost use Rattle.disk_layout.specs.Identity.{signature, bank_size, ident, check_sum, identity};
ghost use Rattle.disk_layout.specs.Reading.{Parses};

use crate::identity_bytes::IdentityBytes;
use crate::offsets::{LARGEST_BANK, SMALLEST_BANK};
use crc_fields::crc16;
use field_codec::{FieldFault, Reader};
use load_base::Ident;

/// What the start of a disk says of its target: the kind of its hardware, its position, its serial
/// number, and the size of each of its two banks, 4,096 to 67,108,864 bytes.
#[derive(Clone, Copy)]
pub struct Identity {
    pub hw: Ident,
    pub pos: Ident,
    pub serial: Ident,
    pub bank: u32,
}

impl Identity {
    /// The identity at the start of these bytes, or the first byte offset at which they can't go
    /// on.
    pub fn decode(prefix: &[u8]) -> Result<Identity, u64>
        ensures found { IfOk result (λ id. SpelledAtStart identity prefix.now id) }
        ensures size { IfOk result (λ id. IsBankSize id.bank) }
        ensures refused { IfErr result (λ offset. Fault identity prefix.now offset) }
    {
        read_identity(&mut Reader::new(prefix))
    }

    /// The bytes of this identity, at most 75, which are read as it again
    /// ([`crate::an_identity_is_read_again`]). It takes no memory.
    pub fn encode(&self) -> IdentityBytes
        requires { IsBankSize self.now.bank }
        ensures text { result ≡ identity_text self.now }
        ensures fits { IsIdentity self.now }
        ensures short { length result ≤ longest_identity }
    {
        IdentityBytes::of(self)
    }
}

#[tactic(auto, unfolding(crate::specs::Identity::identity))]
fn read_identity(reader: &mut Reader) -> Result<Identity, u64>
    ensures parses { Parses (λ id. id) identity reader.old result reader.new }
    ensures size { IfOk result (λ id. IsBankSize id.bank) }
{
    read_signature(reader)?;
    let bank = read_bank_size(reader)?;
    let hw = read_ident(reader)?;
    let pos = read_ident(reader)?;
    let serial = read_ident(reader)?;
    read_check_sum(reader)?;
    Ok(Identity {
        hw,
        pos,
        serial,
        bank,
    })
}

#[tactic(auto, unfolding(crate::specs::Identity::signature))]
fn read_signature(reader: &mut Reader) -> Result<(), u64>
    ensures { Parses (λ unit. unit) signature reader.old result reader.new }
{
    read_byte(reader, b'A')?;
    read_byte(reader, b'6')?;
    read_byte(reader, b'1')?;
    read_byte(reader, b'5')?;
    read_byte(reader, 0)?;
    read_byte(reader, 1)?;
    Ok(())
}

#[tactic(auto, unfolding(crate::specs::Identity::exact_byte))]
fn read_byte(reader: &mut Reader, byte: u8) -> Result<(), u64>
    ensures { Parses (λ unit. unit) (exact_byte byte) reader.old result reader.new }
{
    let offset = reader.place() as u64;
    let found = reader.take_u8().map_err(offset_of)?;
    if found == byte { Ok(()) } else { Err(offset) }
}

#[tactic(auto, unfolding(crate::specs::Identity::bank_size))]
fn read_bank_size(reader: &mut Reader) -> Result<u32, u64>
    ensures parses { Parses (λ size. size) bank_size reader.old result reader.new }
    ensures size { IfOk result (λ size. IsBankSize size) }
{
    let offset = reader.place() as u64;
    match reader.take_u32() {
        Ok(size) if SMALLEST_BANK <= size && size <= LARGEST_BANK => Ok(size),
        _ => Err(offset),
    }
}

#[tactic(auto, unfolding(crate::specs::Identity::ident))]
fn read_ident(reader: &mut Reader) -> Result<Ident, u64>
    ensures { Parses (λ text. text) ident reader.old result reader.new }
{
    let offset = reader.place() as u64;
    let Ok(text) = reader.take_short() else {
        return Err(offset);
    };
    match Ident::read(text) {
        Ok(ident) => Ok(ident),
        Err(_) => Err(offset),
    }
}

#[tactic(auto, unfolding(crate::specs::Identity::check_sum))]
fn read_check_sum(reader: &mut Reader) -> Result<(), u64>
    ensures { Parses (λ unit. unit) check_sum reader.old result reader.new }
{
    let offset = reader.place() as u64;
    let sum = crc16(reader.before());
    let said = reader.take_u16().map_err(offset_of)?;
    if said == sum { Ok(()) } else { Err(offset) }
}

fn offset_of(fault: FieldFault) -> u64
    ensures { result ≡ fault_offset fault }
{
    match fault {
        FieldFault::Short(offset) | FieldFault::BadPad(offset) => offset,
    }
}
