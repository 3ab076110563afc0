//! Where a transfer stands.
ghost use Rattle.std.specs.Prelude.{◌≡◌};
ghost use Rattle.tftp_link.specs.Answers.{is_live};

/// Where a transfer stands, at one of its ends.
#[derive(Clone, Copy, Debug, PartialEq, Eq)]
pub(crate) enum Phase {
    /// The request, which is this end's own, isn't answered yet.
    Waiting,
    Running,
    /// The file was taken whole, or its last block was acknowledged.
    Finished,
    /// An ERROR with this code ended it.
    Failed(u16),
}

impl Phase {
    /// Whether the transfer isn't over.
    pub(crate) fn is_live(self) -> bool
        ensures { result ≡ is_live self }
    {
        matches!(self, Phase::Waiting | Phase::Running)
    }
}
