//! Why a target denies or stops an upload, or gives a session up.
use load_header::HeaderFault;
use load_protocol_files::FileFault;

/// Why the request of an upload is refused.
#[derive(Clone, Copy, Debug, PartialEq, Eq)]
pub enum RequestFault {
    /// The file isn't in its format.
    Spelling(FileFault),
    /// It asks for no load, or for more than 32. Their number.
    Loads(u16),
    /// It has more than 65,536 bytes.
    TooLong,
}

/// A reason. Files of a load are numbered from 1, the data files first and then the support files.
/// A bank and a length are in bytes.
#[derive(Clone, Copy, Debug, PartialEq, Eq)]
pub enum Reason {
    /// A1: an ERROR with this code ended the transfer of a load's file.
    FileNotServed { code: u16 },
    /// A2: a header isn't in its format, or has more than 65,536 bytes.
    HeaderRefused { fault: HeaderFault },
    /// A3: a header has another part number than the one requested.
    PartDiffers,
    /// A4: a load is for other hardware or another position.
    NotThisHardware,
    /// A5: the interlock refuses a load.
    RuleRefused,
    /// A6: a file has another length than its header says.
    FileLength { file: u16, said: u32, found: u32 },
    /// A7: a file has another CRC-16 than its header says.
    FileCrc { file: u16, said: u16, found: u16 },
    /// A8: a load has another CRC-32 than its header says.
    LoadCrc { said: u32, found: u32 },
    /// A9: the loads, at the last header with those that are kept, and their manifest don't fit the
    /// bank.
    BankFull { need: u64, have: u32 },
    /// A10: the active configuration has the last sequence number.
    SequenceSpent,
    /// A11: the request is refused.
    RequestRefused { fault: RequestFault },
    /// A12: a tick came after five retries.
    GaveUp,
    /// A13: no port was left to draw.
    PortsSpent,
    /// A14: with the loads that are kept, a configuration would have more than 32. Their number.
    TooManyLoads { loads: u16 },
}
