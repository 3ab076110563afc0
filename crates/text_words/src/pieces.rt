//! What stands between the separators of bytes: the lines of a text, and the words of a line.
ghost use Rattle.std.specs.Prelude.{◌≡◌, ◌==◌, ◌∷◌, [], None, Some, MatchOption, length};
ghost use Rattle.std.specs.Prelude.{option_copied, option_map};
ghost use Rattle.std.specs.List.{slice_split, position};
ghost use Rattle.text_words.specs.Words.{pieces_left, one_of, two_of, three_of, four_of, five_of};

use std::marker::Model;

/// The pieces between the separators, from left to right; there is one more than separators.
///
/// A contract sees it as the list of the pieces that are left.
#[derive(Drop)]
pub struct Pieces<'a> {
    rest: Option<&'a [u8]>,
    separator: u8,
}

impl<'a> Model for Pieces<'a> {
    ghost use Rattle.std.specs.Prelude.{List, ℕ, option_copied};
    ghost use Rattle.text_words.specs.Words.{pieces_left};

    ghost Value = { List (List ℕ) };

    ghost view = { λ pieces. pieces_left pieces.separator (option_copied pieces.rest) };
}

impl<'a> Pieces<'a> {
    /// All pieces of these bytes.
    pub fn new(bytes: &'a [u8], separator: u8) -> Pieces<'a>
        ensures { result ≡ slice_split (λ byte. byte == separator) bytes.now }
    {
        Pieces {
            rest: Some(bytes),
            separator,
        }
    }

    /// What is left of bytes of which the first pieces were cut off, where something is left.
    pub fn left(rest: Option<&'a [u8]>, separator: u8) -> Pieces<'a>
        ensures { result ≡ pieces_left separator (option_copied rest.entry) }
    {
        Pieces { rest, separator }
    }

    /// Takes the first piece that is left.
    pub fn next(&mut self) -> Option<&'a [u8]>
        ensures { MatchOption result ((self.old ≡ []) × (self.new ≡ []))
            (λ piece. self.old ≡ piece.now ∷ self.new) }
    {
        let Some(bytes) = self.rest else {
            return None;
        };
        let (piece, rest) = cut(bytes, self.separator);
        self.rest = rest;
        Some(piece)
    }

    /// The one piece that is left; `None` where it isn't one.
    pub fn one(&mut self) -> Option<&'a [u8]>
        ensures { option_map (λ word. word.now) result ≡ one_of self.old }
    {
        let Some(word) = self.next() else {
            return None;
        };
        match self.next() {
            Some(_) => None,
            None => Some(word),
        }
    }

    /// The two pieces that are left.
    pub fn two(&mut self) -> Option<(&'a [u8], &'a [u8])>
        ensures { option_map (λ words. (words.0.now, words.1.now)) result ≡ two_of self.old }
    {
        let Some(first) = self.next() else {
            return None;
        };
        let Some(second) = self.one() else {
            return None;
        };
        Some((first, second))
    }

    /// The three pieces that are left.
    pub fn three(&mut self) -> Option<(&'a [u8], &'a [u8], &'a [u8])>
        ensures { option_map (λ words. (words.0.now, words.1.now, words.2.now)) result
            ≡ three_of self.old }
    {
        let Some(first) = self.next() else {
            return None;
        };
        let Some((second, third)) = self.two() else {
            return None;
        };
        Some((first, second, third))
    }

    /// The four pieces that are left.
    pub fn four(&mut self) -> Option<(&'a [u8], &'a [u8], &'a [u8], &'a [u8])>
        ensures { option_map (λ words. (words.0.now, words.1.now, words.2.now, words.3.now)) result
            ≡ four_of self.old }
    {
        let Some(first) = self.next() else {
            return None;
        };
        let Some(second) = self.next() else {
            return None;
        };
        let Some((third, fourth)) = self.two() else {
            return None;
        };
        Some((first, second, third, fourth))
    }

    /// The five pieces that are left, of which the first stands alone.
    pub fn five(&mut self) -> Option<(&'a [u8], (&'a [u8], &'a [u8], &'a [u8], &'a [u8]))>
        ensures { option_map (λ words. (
          words.0.now,
          (
            words.1.0.now,
            words.1.1.now,
            words.1.2.now,
            words.1.3.now,
          ),
        )) result ≡ five_of self.old }
    {
        let Some(first) = self.next() else {
            return None;
        };
        let Some(others) = self.four() else {
            return None;
        };
        Some((first, others))
    }

    /// How many pieces are left.
    #[tactic(auto, using(crate::proofs::Cuts::pieces_are))]
    pub fn count(&self) -> usize
        ensures { result ≡ length self.now }
    {
        let Some(bytes) = self.rest else {
            return 0;
        };
        let separator = self.separator;
        1 + bytes.iter().filter(|byte| **byte == separator).count()
    }
}

/// What stands before the first separator, and what stands after it, where there is one.
#[tactic(auto, using(crate::proofs::Cuts::cut_none, crate::proofs::Cuts::cut_some))]
pub fn cut(bytes: &[u8], separator: u8) -> (&[u8], Option<&[u8]>)
    ensures { slice_split (λ byte. byte == separator) bytes.now
        ≡ result.0.now ∷ pieces_left separator (option_copied result.1) }
{
    match first(bytes, separator) {
        Some(end) => (&bytes[..end], Some(&bytes[end + 1..])),
        None => (bytes, None),
    }
}

/// The offset of the first separator.
fn first(bytes: &[u8], separator: u8) -> Option<usize>
    ensures { result ≡ position (λ byte. byte == separator) bytes.now }
{
    bytes.iter().position(|byte| *byte == separator)
}
