//! Numbers in decimal and in hexadecimal.
ghost use Rattle.std.specs.Prelude.{◌≡◌, ◌+◌, ◌*◌, ◌<◌, ◌≤◌, ◌++◌, IsOk, OnOk, OnErr};
ghost use Rattle.std.specs.Fmt.{decimal};
ghost use Rattle.std.specs.List.{flat_map};
ghost use Rattle.printed_text.specs.Lines.{hex_digit as hex_digit_of, hex_8, hex_16};

use load_base::{Bytes, NoMemory};
use std::alloc::Global;

/// A number in decimal.
pub fn put_number(alloc: Global, out: &mut Bytes, number: u64) -> Result<(), NoMemory>
    ensures ok { OnOk result (out.new.items ≡ out.old.items ++ decimal number) }
    ensures err { OnErr result (out.new.items ≡ out.old.items) }
{
    let digits = number.to_string(alloc)?;
    out.extend(digits.as_bytes())
}

/// Four upper-case hexadecimal digits.
#[tactic(auto, unfolding(crate::specs::Lines::hex_16))]
pub fn put_hex_16(out: &mut Bytes, number: u16) -> Result<(), NoMemory>
    ensures ok { OnOk result (out.new.items ≡ out.old.items ++ hex_16 number) }
    ensures err { OnErr result (out.new.items ≡ out.old.items) }
{
    out.extend(&[
        hex_digit(number / 4096),
        hex_digit(number / 256 % 16),
        hex_digit(number / 16 % 16),
        hex_digit(number % 16),
    ])
}

/// Two upper-case hexadecimal digits a byte.
pub fn put_hex(out: &mut Bytes, bytes: &[u8]) -> Result<(), NoMemory>
    ensures ok { OnOk result (out.new.items ≡ out.old.items ++ flat_map hex_8 bytes.now) }
    ensures err { OnErr result (out.new.items ≡ out.old.items) }
{
    out.reserve(2 * bytes.len())?;
    for byte in bytes {
        put_hex_8(out, *byte)?;
    }
    Ok(())
}

#[tactic(auto, unfolding(crate::specs::Lines::hex_8))]
fn put_hex_8(out: &mut Bytes, number: u8) -> Result<(), NoMemory>
    ensures ok { OnOk result (out.new.items ≡ out.old.items ++ hex_8 number) }
    ensures spare { out.old.spare ≤ out.new.spare + 2 }
    ensures has_spare { 2 ≤ out.old.spare → IsOk result }
{
    let number = u16::from(number);
    out.extend(&[hex_digit(number / 16), hex_digit(number % 16)])
}

fn hex_digit(digit: u16) -> u8
    requires { digit < 16 }
    ensures { result ≡ hex_digit_of digit }
{
    if digit < 10 {
        digit as u8 + b'0'
    } else {
        digit as u8 - 10 + b'A'
    }
}
