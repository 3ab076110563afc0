//! Tables with an entry for each byte, written by the entries of single bits.

/// The 256 entries of a table in which a byte's entry is the exclusive or of those of its bits,
/// from the entries of the eight bits alone, the lowest bit first.
macro_rules! entries {
    (@ [$($entry:expr),*]) => { [$($entry),*] };
    (@ [$($entry:expr),*] $bit:expr $(, $more:expr)*) => {
        entries!(@ [$($entry,)* $($entry ^ $bit),*] $($more),*)
    };
    ($($bit:expr),*) => { entries!(@ [0] $($bit),*) };
}

pub(crate) use entries;
