//! What the sessions of a loader come to.
use load_base::{PartText, Text};

/// An operation.
#[derive(Clone, Copy, Debug, PartialEq, Eq)]
pub enum SessionKind {
    /// The loader asks what is installed.
    Info,
    /// The loader has loads installed.
    Upload,
}

/// The kind of a protocol file (docs/FORMATS.md).
#[derive(Clone, Copy, Debug, PartialEq, Eq)]
pub enum FileKind {
    /// The target's answer to the start of an information operation.
    Lci,
    /// What is installed.
    Lcl,
    /// How an information operation stands.
    Lcs,
    /// The target's answer to the start of an upload.
    Lui,
    /// The loads that an upload is to install.
    Lur,
    /// How an upload stands.
    Lus,
}

/// What a session came to.
#[derive(Drop)]
pub enum Outcome {
    /// By an LCL, or by an LUS with status 0x0003 after the LUR was acknowledged.
    Completed,
    /// An LCI or LUI with status 0x1000 arrived, with this text.
    Denied(Text),
    /// An LCS or LUS with status 0x1003 arrived, with this text.
    TargetStopped(Text),
    /// A tick came after five retries.
    GaveUp,
    /// An ERROR with this code ended the live transfer.
    PeerError(u16),
    /// A file that arrived isn't in its format, is longer than 65,536 bytes, or has a status that
    /// its row doesn't allow. The offset of the first fault: 0 where its length is wrong, 4 where
    /// its version is, that of the status, or 65,536.
    BadFile { kind: FileKind, offset: u64 },
    /// The media set lists no load with this part number.
    NotOnMedia(PartText),
    /// More than 32 parts were to be uploaded.
    TooMany,
    /// Another session was started while this one was live.
    Replaced,
    /// No port was left to draw.
    PortsSpent,
    /// It is live.
    Open,
}
