//! A short text in an array of a fixed size.
ghost use Rattle.std.specs.Prelude.{◌≡◌, ◌≤◌, ◌<◌, ◌^◌, length};

use std::marker::Model;

/// A text of at most `N` bytes, with zeros after it, so that equal texts have equal arrays.
#[derive(Clone, Copy)]
pub(crate) struct Padded<const N: usize> {
    cells: [u8; N],
    // Half a word, since these texts are kept in the lines of a trace.
    len: u32,
}

impl<const N: usize> Model for Padded<N> {
    ghost use Rattle.std.specs.Prelude.{List, ℕ, length, take};
    ghost use Rattle.load_base.specs.Padded.{padded, IsPadded, padded-take, length-take_padded};

    ghost Value = { List ℕ };

    ghost view = { λ p. take p.len p.cells };

    ghost invariant = { λ p. IsPadded N p.cells p.len };

    ghost inverse = { λ text. record { cells = padded N text; len = length text } };

    ghost inverse_ok = { λ p is i. record {
      cells = padded-take N p.cells p.len is i;
      len = length-take_padded N p.cells p.len is i;
    } };
}

impl<const N: usize> Padded<N> {
    pub(crate) fn new(text: &[u8]) -> Padded<N>
        requires fits { length text.now ≤ N }
        requires short { length text.now < 2 ^ 32 }
        ensures { result ≡ text.now }
    {
        let mut cells = [0; N];
        cells[..text.len()].copy_from_slice(text);
        Padded {
            cells,
            len: text.len() as u32,
        }
    }

    pub(crate) fn as_slice(&self) -> &[u8]
        ensures { result.now ≡ self.now }
    {
        &self.cells[..self.len as usize]
    }
}
