//! The file that is sent.
ghost use Rattle.std.specs.Prelude.{◌≡◌};
ghost use Rattle.tftp_link.specs.Sender.{contents};

use load_base::Bytes;

/// The bytes of a file that is sent.
#[derive(Drop)]
pub enum FileBytes<'f> {
    /// Bytes that were made for this transfer.
    Owned(Bytes),
    /// Bytes that somebody else keeps.
    Lent(&'f [u8]),
}

impl<'f> FileBytes<'f> {
    /// The bytes.
    pub fn as_slice(&self) -> &[u8]
        ensures { result.now ≡ contents self.now }
    {
        match self {
            FileBytes::Owned(bytes) => bytes.as_slice(),
            FileBytes::Lent(bytes) => bytes,
        }
    }
}
