//! What becomes of a packet.
ghost use Rattle.std.specs.Prelude.{◌≡◌, true, false};
ghost use Rattle.tftp_link.specs.Answers.{Nothing, news_view};

/// What a packet brings to its end of a transfer.
#[derive(Clone, Copy, Debug, PartialEq, Eq)]
pub enum News<'a> {
    /// Nothing that the end's user has to know.
    Nothing,
    /// The payload of the next block, which is a full one.
    Block(&'a [u8]),
    /// The payload of the last block, which is shorter than the block size, perhaps empty. The file
    /// is whole.
    Last(&'a [u8]),
    /// The last block was acknowledged.
    Done,
    /// An ERROR with this code ended the transfer (RFC 1350, section 5).
    PeerError(u16),
}

/// What becomes of a packet.
#[derive(Clone, Copy, Debug, PartialEq, Eq)]
pub struct Step<'a> {
    /// Whether a packet is to be sent now, which `again` then gives.
    pub send: bool,
    /// Whether the packet was awaited: it is answered with something new, or ends the transfer. A
    /// repeat isn't, so that an end that counts its retries goes on counting.
    pub awaited: bool,
    pub news: News<'a>,
}

impl<'a> Step<'a> {
    /// The packet wasn't awaited: it is a repeat, which is answered again, or is dropped.
    pub(crate) fn unawaited(send: bool) -> Step<'a>
        ensures send { result.send ≡ send }
        ensures awaited { result.awaited ≡ false }
        ensures news { news_view result.news ≡ Nothing }
    {
        Step {
            send,
            awaited: false,
            news: News::Nothing,
        }
    }

    /// The packet was awaited, and the next one is sent.
    pub(crate) fn proceeding() -> Step<'a>
        ensures send { result.send ≡ true }
        ensures awaited { result.awaited ≡ true }
        ensures news { news_view result.news ≡ Nothing }
    {
        Step {
            send: true,
            awaited: true,
            news: News::Nothing,
        }
    }
}
