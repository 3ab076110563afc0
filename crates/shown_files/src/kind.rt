//! The kinds of files that are shown.
ghost use Rattle.std.specs.Prelude.{◌≡◌, ◌↔◌, IsTrue, IfSome, IfNone};
ghost use Rattle.shown_files.specs.Kinds.{EndsWith, IsNameOf};

/// A kind of file, by the end of its name.
#[derive(Clone, Copy, Debug, PartialEq, Eq)]
pub enum ShownKind {
    /// A load header, `.LUH`.
    Header,
    /// A list of a media set's loads, `LOADS.LUM`.
    LoadsList,
    /// A list of a media set's files, `FILES.LUM`.
    FilesList,
    /// A list of a media set's batches, `BATCHES.LUM`.
    BatchesList,
    /// A batch, `.LUB`.
    Batch,
    /// A configuration initialization file, `.LCI`.
    Lci,
    /// A configuration list file, `.LCL`.
    Lcl,
    /// A configuration status file, `.LCS`.
    Lcs,
    /// An upload initialization file, `.LUI`.
    Lui,
    /// An upload request file, `.LUR`.
    Lur,
    /// An upload status file, `.LUS`.
    Lus,
}

impl ShownKind {
    /// The kind of a file of this name; `None` where the name has none of the ends.
    pub fn of_name(name: &[u8]) -> Option<ShownKind>
        ensures some { IfSome result (λ kind. IsNameOf kind name.now) }
        ensures none { IfNone result ((kind : ShownKind) → ¬ IsNameOf kind name.now) }
    {
        if ends_with(name, b".LUH") {
            Some(ShownKind::Header)
        } else if ends_with(name, b"LOADS.LUM") {
            Some(ShownKind::LoadsList)
        } else if ends_with(name, b"FILES.LUM") {
            Some(ShownKind::FilesList)
        } else if ends_with(name, b"BATCHES.LUM") {
            Some(ShownKind::BatchesList)
        } else if ends_with(name, b".LUB") {
            Some(ShownKind::Batch)
        } else if ends_with(name, b".LCI") {
            Some(ShownKind::Lci)
        } else if ends_with(name, b".LCL") {
            Some(ShownKind::Lcl)
        } else if ends_with(name, b".LCS") {
            Some(ShownKind::Lcs)
        } else if ends_with(name, b".LUI") {
            Some(ShownKind::Lui)
        } else if ends_with(name, b".LUR") {
            Some(ShownKind::Lur)
        } else if ends_with(name, b".LUS") {
            Some(ShownKind::Lus)
        } else {
            None
        }
    }
}

fn ends_with(word: &[u8], end: &[u8]) -> bool
    ensures { IsTrue result ↔ EndsWith end.now word.now }
{
    word.len() >= end.len() && is_same(&word[word.len() - end.len()..], end)
}

fn is_same<'b>(one: &'b [u8], other: &'b [u8]) -> bool
    ensures { IsTrue result ↔ (one.now ≡ other.now) }
{
    one == other
}
