//! Decimal numbers of a script.
ghost use Rattle.std.specs.Prelude.{◌≡◌, ◌≤◌, IfOk};
ghost use Rattle.exchange_trace.specs.Scripts.{count_word, number_word, port_word, size_word};

use exchange_trace::ScriptFault;
use text_words::decimal_in;

/// The number of a datagram, or how many are to be delivered: 1 to 4,294,967,295.
pub fn count_in(line: u64, word: &[u8]) -> Result<u32, ScriptFault>
    ensures { result ≡ count_word line word.now }
{
    number_in(line, word, 1, u32::MAX)
}

/// A number of a power loss: 0 to 4,294,967,295.
pub fn any_number_in(line: u64, word: &[u8]) -> Result<u32, ScriptFault>
    ensures { result ≡ number_word line 0 4294967295 word.now }
{
    number_in(line, word, 0, u32::MAX)
}

/// A port: 0 to 65,535.
pub fn port_in(line: u64, word: &[u8]) -> Result<u16, ScriptFault>
    ensures { result ≡ port_word line word.now }
{
    Ok(number_in(line, word, 0, 65535)? as u16)
}

/// A block size, 8 to 65,464, or 0 for none.
pub fn size_in(line: u64, word: &[u8]) -> Result<Option<u16>, ScriptFault>
    ensures { result ≡ size_word line word.now }
{
    if word == b"0".as_slice() {
        return Ok(None);
    }
    Ok(Some(number_in(line, word, 8, 65464)? as u16))
}

/// A number in this range.
fn number_in(line: u64, word: &[u8], low: u32, high: u32) -> Result<u32, ScriptFault>
    ensures said { result ≡ number_word line low high word.now }
    ensures within { IfOk result (λ number. number ≤ high) }
{
    match decimal_in(word, low, high) {
        Some(number) => Ok(number),
        None => Err(ScriptFault::Number(line)),
    }
}
