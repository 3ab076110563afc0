//! The options of requests and of their answers.
ghost use Rattle.std.specs.Prelude.{◌≡◌, ◌≤◌, IfSome};
ghost use Rattle.std.specs.Char.{is_ascii_digit};
ghost use Rattle.std.specs.List.{list_all};
ghost use Rattle.tftp_packet.specs.Options.{lower_name, is_named, known_of, number_between};
ghost use Rattle.tftp_packet.specs.Options.{value_of, said_by, most, admits, is_new, with_known};
ghost use Rattle.tftp_packet.specs.Options.{one_option, all_options};
ghost use Rattle.tftp_packet.specs.Reading.{ReadsOn, IsSmall};

use crate::PacketFault;
use crate::reading::take_text;
use field_codec::Reader;
use std::str;

/// The options that this project knows, each where it is named with a value of its kind. A request
/// asks for them, and an OACK grants them (RFC 2347).
#[derive(Clone, Copy, Debug, Default, PartialEq, Eq)]
pub struct Options {
    /// How many bytes a block has, 8 to 65,464 (RFC 2348).
    pub blksize: Option<u16>,
    /// After how many seconds a packet is sent again, 1 to 255 (RFC 2349).
    pub timeout: Option<u8>,
    /// How many bytes the file has (RFC 2349).
    pub tsize: Option<u32>,
}

/// What becomes of an option that is unknown, or has a value that isn't of its kind.
#[derive(Clone, Copy)]
pub(crate) enum Others {
    /// It is passed over, in a request.
    PassedOver,
    /// It is refused, in an OACK.
    Refused,
}

impl Others {
    /// Whether an option may stand there that is one of this project's own, or isn't.
    fn admit(self, is_own: bool) -> bool
        ensures { result ≡ admits self is_own }
    {
        matches!(self, Others::PassedOver) || is_own
    }
}

/// An option that this project knows.
#[derive(Clone, Copy)]
pub(crate) enum Known {
    BlockSize,
    Timeout,
    TransferSize,
}

impl Known {
    /// The known option of this name, in any letter case.
    #[tactic(auto, unfolding(crate::specs::Options::known_of))]
    fn of_name(name: &[u8]) -> Option<Known>
        ensures { result ≡ known_of name.now }
    {
        if Known::BlockSize.is_named(name) {
            Some(Known::BlockSize)
        } else if Known::Timeout.is_named(name) {
            Some(Known::Timeout)
        } else if Known::TransferSize.is_named(name) {
            Some(Known::TransferSize)
        } else {
            None
        }
    }

    #[tactic(auto, unfolding(crate::specs::Options::is_named))]
    fn is_named(self, name: &[u8]) -> bool
        ensures { result ≡ is_named self name.now }
    {
        name.eq_ignore_ascii_case(self.name())
    }

    /// The option's name, in lower case.
    pub(crate) fn name(self) -> &'static [u8]
        ensures { result.now ≡ lower_name self }
    {
        match self {
            Known::BlockSize => b"blksize",
            Known::Timeout => b"timeout",
            Known::TransferSize => b"tsize",
        }
    }

    /// The option's value, where the bytes are of its kind.
    fn value(self, bytes: &[u8]) -> Option<u32>
        ensures value { result ≡ value_of self bytes.now }
        ensures small { IfSome result (λ n. n ≤ most self) }
    {
        match self {
            Known::BlockSize => number_between(8, 65_464, bytes),
            Known::Timeout => number_between(1, 255, bytes),
            Known::TransferSize => number_between(0, u32::MAX, bytes),
        }
    }
}

/// The number that decimal digits write, zeros leading or not, if it is in the range.
#[tactic(auto, using(crate::proofs::NumberLemmas::narrowed, crate::proofs::NumberLemmas::narrowed_none))]
fn number_between(low: u32, high: u32, digits: &[u8]) -> Option<u32>
    ensures value { result ≡ number_between low high digits.now }
    ensures small { IfSome result (λ n. n ≤ high) }
{
    let number = number(digits)?;
    if low <= number && number <= high {
        Some(number)
    } else {
        None
    }
}

#[tactic(auto, using(crate::proofs::NumberLemmas::no_digits, crate::proofs::NumberLemmas::digits_are_utf8, crate::proofs::NumberLemmas::parsed))]
fn number(digits: &[u8]) -> Option<u32>
    ensures { result ≡ number_between 0 4294967295 digits.now }
{
    // `parse` would pass over a plus, which is no digit.
    if !are_digits(digits) {
        return None;
    }
    let Ok(text) = str::from_utf8(digits) else {
        return None;
    };
    text.parse().ok()
}

fn are_digits(bytes: &[u8]) -> bool
    ensures { result ≡ list_all is_ascii_digit bytes.now }
{
    bytes.iter().all(u8::is_ascii_digit)
}

fn said_by(known: Option<Known>, value: &[u8]) -> Option<u32>
    ensures value { result ≡ said_by known value.now }
    ensures small { IsSmall known result }
{
    match known {
        Some(known) => known.value(value),
        None => None,
    }
}

/// The options that were read so far, and which of the known ones were named, with whatever value.
#[derive(Clone, Copy, Default)]
pub(crate) struct Seen {
    options: Options,
    blksize: bool,
    timeout: bool,
    tsize: bool,
}

impl Seen {
    /// Whether the option is unknown, or wasn't named before.
    fn is_new(&self, known: Option<Known>) -> bool
        ensures { result ≡ is_new self.now known }
    {
        match known {
            Some(Known::BlockSize) => !self.blksize,
            Some(Known::Timeout) => !self.timeout,
            Some(Known::TransferSize) => !self.tsize,
            None => true,
        }
    }

    /// The same with one more, which says this where it is known.
    fn with(self, known: Option<Known>, said: Option<u32>) -> Seen
        requires { IsSmall known said }
        ensures { result ≡ with_known self known said }
    {
        let mut seen = self;
        match known {
            Some(Known::BlockSize) => {
                seen.blksize = true;
                seen.options.blksize = said.map(|n| n as u16);
            }
            Some(Known::Timeout) => {
                seen.timeout = true;
                seen.options.timeout = said.map(|n| n as u8);
            }
            Some(Known::TransferSize) => {
                seen.tsize = true;
                seen.options.tsize = said;
            }
            None => {}
        }
        seen
    }
}

/// What all options up to the end of the bytes say.
#[tactic(auto, using(crate::proofs::Rest::options_go_on, crate::proofs::Rest::options_refused, crate::proofs::Rest::options_done, crate::proofs::Rest::option_takes))]
pub(crate) fn take_options(reader: &mut Reader, others: Others) -> Result<Options, PacketFault>
    ensures { ReadsOn (λ options. options) (all_options others) reader.old result reader.new }
{
    let mut seen = Seen::default();
    'options: while reader.left() > 0 {
        seen = take_option(reader, others, seen)?;
    }
    Ok(seen.options)
}

/// One option more. Its name is tested before its value is read.
#[tactic(auto, unfolding(crate::specs::Options::one_option, crate::specs::Options::may_follow, crate::specs::Options::may_have))]
fn take_option(reader: &mut Reader, others: Others, seen: Seen) -> Result<Seen, PacketFault>
    ensures { ReadsOn (λ seen. seen) (one_option others seen) reader.old result reader.new }
{
    let fault = PacketFault::Option(reader.place() as u64);
    let name = take_text(reader)?;
    let known = Known::of_name(name);
    if name.is_empty() || !seen.is_new(known) || !others.admit(known.is_some()) {
        return Err(fault);
    }
    let value = take_text(reader)?;
    let said = said_by(known, value);
    if !others.admit(said.is_some()) {
        return Err(fault);
    }
    Ok(seen.with(known, said))
}
