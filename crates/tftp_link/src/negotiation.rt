//! The negotiation of options: RFC 2347, RFC 2348, RFC 2349.
ghost use Rattle.std.specs.Prelude.{◌≡◌, ◌/◌, ◌≤◌, IfSome};
ghost use Rattle.tftp_link.specs.Negotiation.{is_empty, block_size_of, fits, fits_said, fitting};
ghost use Rattle.tftp_link.specs.Negotiation.{is_no_greater, may_grant};
ghost use Rattle.tftp_link.specs.Negotiation.{granted_to_reader, asked_by_writer, same_options};
ghost use Rattle.tftp_packet.specs.Options.{AreInRange};

use tftp_packet::Options;

/// The block size without the option `blksize` (RFC 1350, section 2).
pub(crate) const DEFAULT_BLOCK_SIZE: u16 = 512;

/// Whether no option stands there.
pub(crate) fn is_empty(options: &Options) -> bool
    ensures { result ≡ is_empty options.now }
{
    options.blksize.is_none() && options.timeout.is_none() && options.tsize.is_none()
}

/// The block size that the options say.
pub(crate) fn block_size_of(options: &Options) -> u16
    ensures { result ≡ block_size_of options.now }
{
    options.blksize.unwrap_or(DEFAULT_BLOCK_SIZE)
}

/// Whether a file of this length has a number for each of its blocks of the size.
pub(crate) fn fits(file_length: usize, size: u16) -> bool
    requires { 1 ≤ size }
    ensures { result ≡ fits file_length size }
{
    file_length / usize::from(size) < usize::from(u16::MAX)
}

/// Whether a file of this length fits the block size that was said, where one was.
pub(crate) fn fits_said(file_length: usize, said: Option<u16>) -> bool
    requires { IfSome said (λ size. 1 ≤ size) }
    ensures { result ≡ fits_said file_length said }
{
    match said {
        Some(size) => fits(file_length, size),
        None => true,
    }
}

/// The block size that was said, where a file of this length fits it.
pub(crate) fn fitting(file_length: usize, said: Option<u16>) -> Option<u16>
    requires { IfSome said (λ size. 1 ≤ size) }
    ensures fitting { result ≡ fitting file_length said }
    ensures of_said { IfSome result (λ size. said ≡ Some size) }
{
    if fits_said(file_length, said) {
        said
    } else {
        None
    }
}

/// What is granted to a request to read a file of this length: the file's length, and no block size
/// that it doesn't fit.
pub(crate) fn granted_to_reader(file_length: usize, asked: &Options) -> Options
    requires file { file_length ≤ 16777215 }
    requires options { AreInRange asked.now }
    ensures granted { result ≡ granted_to_reader file_length asked.now }
    ensures in_range { AreInRange result }
{
    Options {
        blksize: fitting(file_length, asked.blksize),
        timeout: asked.timeout,
        tsize: asked.tsize.map(|_| file_length as u32),
    }
}

/// What a request to write a file of this length asks for, where these options are wanted.
pub(crate) fn asked_by_writer(file_length: usize, wanted: &Options) -> Options
    requires { AreInRange wanted.now }
    ensures asked { result ≡ asked_by_writer file_length wanted.now }
    ensures in_range { AreInRange result }
{
    Options {
        blksize: fitting(file_length, wanted.blksize),
        timeout: wanted.timeout,
        tsize: wanted.tsize,
    }
}

/// Whether an OACK may grant these options where those were asked.
pub(crate) fn may_grant(asked: &Options, granted: &Options) -> bool
    ensures { result ≡ may_grant asked.now granted.now }
{
    !is_empty(asked)
        && is_no_greater(asked.blksize, granted.blksize)
        && (granted.timeout.is_none() || asked.timeout.is_some())
        && (granted.tsize.is_none() || asked.tsize.is_some())
}

/// Whether a block size that is granted, where one is, is no greater than the one asked.
fn is_no_greater(asked: Option<u16>, granted: Option<u16>) -> bool
    ensures { result ≡ is_no_greater asked granted }
{
    match (asked, granted) {
        (_, None) => true,
        (Some(asked), Some(granted)) => granted <= asked,
        (None, Some(_)) => false,
    }
}

/// Whether these are the same options with the same values.
pub(crate) fn same_options(one: &Options, other: &Options) -> bool
    ensures { result ≡ same_options one.now other.now }
{
    one == other
}
