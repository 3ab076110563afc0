//! Lines of a text.
ghost use Rattle.std.specs.Prelude.{◌≡◌};
ghost use Rattle.text_words.specs.Words.{is_passed_over as is_passed};

/// Whether a line says nothing: it is empty or begins with `#`.
pub fn is_passed_over(line: &[u8]) -> bool
    ensures { result ≡ is_passed line.now }
{
    line.is_empty() || line[0] == b'#'
}
