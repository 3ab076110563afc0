/// Why a field can't be read. Offsets are in bytes, from 0.
#[derive(Clone, Copy, Debug, PartialEq, Eq)]
pub enum FieldFault {
    /// The field passes the end of the bytes; the offset where it begins.
    Short(u64),
    /// A pad byte isn't zero; its offset.
    BadPad(u64),
}
