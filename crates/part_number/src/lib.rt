//! Part numbers with their check digits.
#![tactic(auto)]

ghost use Rattle.std.specs.Prelude.{◌≡◌, ℕ, ◌<◌, ◌++◌, List, true, false, codes, length, fold};
ghost use Rattle.std.specs.Prelude.{bit_xor, ◌==◌, IsOk, IfOk, IfErr, IfSome, IfNone};
ghost use Rattle.std.specs.Bool.{Decides};
ghost use Rattle.std.specs.List.{list_all};
ghost use Rattle.load_base.specs.Bytes.{AllGood};
ghost use Rattle.load_base.specs.PartText.{IsPartText};
ghost use Rattle.load_base.specs.Verdicts.{judged, TellsFaults};
ghost use Rattle.part_number.specs.PartNumber.{IsPartNumber, IsPartNumberText, IsPartFault};
ghost use Rattle.part_number.specs.PartNumber.{IsFirstBadOffset, HasGoodCharacters};
ghost use Rattle.part_number.specs.PartNumber.{part_number_text, maker_of, product_of};
ghost use Rattle.part_number.specs.PartNumber.{check_digits_of, check_of, hexadecimal};
ghost use Rattle.part_number.specs.PartNumber.{hexadecimal_digit, is_part_character};
ghost use Rattle.part_number.specs.PartNumber.{is_hexadecimal_digit, is_hyphen_offset, is_good_at};
ghost use Rattle.part_number.specs.Verdicts.{part_fault_of};

mod printing;

use load_base::PartText;
use std::hash::{Hash, Hasher};
use std::marker::Model;

/// Why bytes are no [`PartNumber`].
#[derive(Clone, Copy, Debug, PartialEq, Eq)]
pub enum PartFault {
    /// P1: not 15 bytes. Their number.
    Length(u64),
    /// P2: another byte in place of a hyphen. Its offset, 5 or 10.
    Hyphen(u64),
    /// P3: a byte that no part number has at this offset: at 3 and 4 one that is no upper-case
    /// hexadecimal digit, and elsewhere one that isn't `A` to `Z` or `0` to `9`.
    Character(u64),
    /// P4: the check digits have the value `written`, and the characters give `computed`.
    Check { written: u8, computed: u8 },
}

/// A part number, `MMMCC-SSSS-SSSS`: a maker's three and a product's eight characters, each `A` to
/// `Z` or `0` to `9`, and between them two upper-case hexadecimal digits of the exclusive or of the
/// eleven. The form is this project's own (docs/FORMATS.md). A contract sees it as its text.
#[derive(Clone, Copy)]
pub struct PartNumber {
    text: [u8; 15],
}

impl Model for PartNumber {
    ghost use Rattle.std.specs.Prelude.{List, ℕ};
    ghost use Rattle.part_number.specs.PartNumber.{IsPartNumberText};

    ghost Value = { List ℕ };

    ghost view = { λ part. part.text };

    ghost invariant = { λ part. IsPartNumberText part.text };

    ghost inverse = { λ text. record { text = text } };
}

impl PartNumber {
    /// Reads a whole text. Its length is tested first, then its bytes in their order, and at last
    /// its check digits.
    #[tactic(auto, using(crate::proofs::Judged::part_is_read, crate::proofs::Judged::part_is_refused, crate::proofs::Judged::part_is_short))]
    pub fn read(bytes: &[u8]) -> Result<PartNumber, PartFault>
        ensures found { IfOk result (λ part. (part ≡ bytes.now) × IsPartNumberText bytes.now) }
        ensures only { IsPartNumberText bytes.now → IsOk result }
        ensures each_is_read { (maker product : List ℕ) → IsPartNumber bytes.now maker product
            → IsOk result }
        ensures refused { IfErr result (λ fault. IsPartFault bytes.now fault) }
        ensures judged { result ≡ judged part_fault_of bytes.now }
    {
        let Ok(text) = <[u8; 15]>::try_from(bytes) else {
            return Err(PartFault::Length(bytes.len() as u64));
        };
        match first_fault(&text) {
            Some(fault) => Err(fault),
            None => Ok(PartNumber { text }),
        }
    }

    /// The part number of a maker and a product. The only refusal is P3, with the offset that the
    /// first wrong character has in the finished text.
    #[tactic(auto, using(crate::proofs::Faults::fault_of_text, crate::proofs::Reading::made_from_text))]
    pub fn make(maker: &[u8; 3], product: &[u8; 8]) -> Result<PartNumber, PartFault>
        ensures made { IfOk result (λ part. IsPartNumber part maker.now product.now) }
        ensures only { AllGood is_part_character maker.now → AllGood is_part_character product.now
            → IsOk result }
        ensures refused { IfErr result (λ fault.
            (offset : ℕ) × (fault ≡ PartFault.Character offset)
            × IsFirstBadOffset (part_number_text maker.now product.now) offset) }
    {
        PartNumber::read(&text_of(maker, product))
    }

    /// The same text without the promise of its check digits.
    #[tactic(auto, using(crate::proofs::Texts::part_text_of_part))]
    pub fn text(&self) -> PartText
        ensures { result ≡ self.now }
    {
        match PartText::read(&self.text) {
            Ok(text) => text,
            // A part number has fifteen graphic characters.
            Err(_) => unreachable!(),
        }
    }

    /// Its bytes.
    pub fn as_slice(&self) -> &[u8]
        ensures bytes { result.now ≡ self.now }
        ensures is_part_number { IsPartNumberText self.now }
    {
        &self.text
    }
}

impl PartialEq for PartNumber {
    ghost use Rattle.std.specs.Cmp.{partial_equiv_from_equiv};
    ghost use Rattle.std.specs.Cmp.Lexicographic.{nat_list_eq_equiv};
    ghost use Rattle.load_base.specs.Bytes.{same_bytes};

    ghost eq = { same_bytes };

    ghost laws = { partial_equiv_from_equiv nat_list_eq_equiv };

    fn eq(&self, other: &PartNumber) -> bool {
        self.as_slice() == other.as_slice()
    }
}

impl Eq for PartNumber {
    ghost use Rattle.std.specs.Cmp.Lexicographic.{nat_list_eq_equiv};

    ghost laws = { nat_list_eq_equiv };
}

impl Hash for PartNumber {
    ghost use Rattle.std.specs.Hash as fed;
    ghost use Rattle.std.specs.Cmp.Lexicographic.{bytes_decides};
    ghost use Rattle.std.proofs.Common.{ap};

    ghost hash_input = { λ part. fed.slice fed.u8 part };

    ghost respects_eq = { λ one other same. ap (fed.slice fed.u8)
        ((bytes_decides one other).0 same) };

    fn hash<H: Hasher>(&self, state: &mut H) {
        self.as_slice().hash(state);
    }
}

/// Part numbers are equal where their texts are.
// For the proof: does nothing.
#[tactic(auto, using(load_base::proofs::EqualityLemmas::equal_bytes))]
pub fn part_number_equality_law()
    ensures { (one other : List ℕ)
        → Decides (⟦<PartNumber as PartialEq>⟧.eq one other) (one ≡ other) }
{}

/// Laws of part numbers and of their faults, a clause each, for callers that compare them.
// For the proof: does nothing.
#[tactic(auto, using(crate::proofs::Laws::laws))]
pub fn part_number_laws()
    // A text is the part number of one maker and one product, those that stand in it.
    ensures one_maker { (text maker product : List ℕ) → IsPartNumber text maker product
        → maker_of text ≡ maker }
    ensures one_product { (text maker product : List ℕ) → IsPartNumber text maker product
        → product_of text ≡ product }

    // So what `make` gives is read as the same.
    ensures made_is_read { (text maker product : List ℕ) → IsPartNumber text maker product
        → IsPartNumberText text }
    ensures is_part_text { (text maker product : List ℕ) → IsPartNumber text maker product
        → IsPartText text }

    // Bytes are a part number or have a first fault, one and not both.
    ensures no_fault { (text maker product : List ℕ) (fault : PartFault)
        → IsPartNumber text maker product → ¬ IsPartFault text fault }
    ensures one_fault { (text : List ℕ) (fault other : PartFault) → IsPartFault text fault
        → IsPartFault text other → fault ≡ other }

    // A function computes which from the bytes, and what is right has 15 bytes.
    ensures told { TellsFaults part_fault_of IsPartNumberText IsPartFault }
    ensures size { (text : List ℕ) → IsPartNumberText text → length text ≡ 15 }

    ensures known { part_number_text (codes "XYZ") (codes "00000001") ≡ codes "XYZ5A-0000-0001" }
{}

/// The finished text, whether or not its characters are good.
fn text_of(maker: &[u8; 3], product: &[u8; 8]) -> [u8; 15]
    ensures { result ≡ part_number_text maker.now product.now }
{
    let [m0, m1, m2] = *maker;
    let [p0, p1, p2, p3, p4, p5, p6, p7] = *product;
    let check = exclusive_or(&[m0, m1, m2, p0, p1, p2, p3, p4, p5, p6, p7]);
    let high = digit_of_value(check / 16);
    let low = digit_of_value(check % 16);
    [
        m0, m1, m2, high, low, b'-', p0, p1, p2, p3, b'-', p4, p5, p6, p7,
    ]
}

/// The first thing that is wrong with a text of the right length.
#[tactic(auto, using(crate::proofs::Reading::wrong_check))]
fn first_fault(text: &[u8; 15]) -> Option<PartFault>
    ensures none { IfNone result (IsPartNumberText text.now) }
    ensures first { IfSome result (IsPartFault text.now) }
{
    if let Some(offset) = first_bad(text) {
        return Some(misplaced(offset));
    }
    let written = written_check(text);
    let computed = computed_check(text);
    if written == computed {
        None
    } else {
        Some(PartFault::Check { written, computed })
    }
}

/// The offset of the first byte that isn't good there. Most texts have none, which
/// `has_good_characters` tells much faster than the search does.
fn first_bad(text: &[u8; 15]) -> Option<usize>
    ensures none { IfNone result (HasGoodCharacters text.now) }
    ensures first { IfSome result (λ offset. IsFirstBadOffset text.now offset) }
{
    if has_good_characters(text) {
        return None;
    }
    text.iter()
        .enumerate()
        .position(|(offset, byte)| !may_stand_at(offset, *byte))
}

#[tactic(auto, using(crate::proofs::Characters::good_by_parts))]
fn has_good_characters(text: &[u8; 15]) -> bool
    ensures { result ≡ true → HasGoodCharacters text.now }
{
    is_check_digit(text[3])
        && is_check_digit(text[4])
        && is_hyphen(text[5])
        && is_hyphen(text[10])
        && are_characters(&characters_of(text))
}

#[tactic(auto, unfolding(crate::specs::PartNumber::is_good_at))]
fn may_stand_at(offset: usize, byte: u8) -> bool
    ensures { result ≡ is_good_at offset byte }
{
    match offset {
        5 | 10 => is_hyphen(byte),
        3 | 4 => is_check_digit(byte),
        _ => is_character(byte),
    }
}

fn is_hyphen(byte: u8) -> bool
    ensures { result ≡ (byte == 45) }
{
    byte == b'-'
}

fn is_check_digit(byte: u8) -> bool
    ensures { result ≡ is_hexadecimal_digit byte }
{
    matches!(byte, b'0'..=b'9' | b'A'..=b'F')
}

fn are_characters(bytes: &[u8; 11]) -> bool
    ensures { result ≡ list_all is_part_character bytes.now }
{
    bytes.iter().all(|byte| is_character(*byte))
}

fn is_character(byte: u8) -> bool
    ensures { result ≡ is_part_character byte }
{
    matches!(byte, b'A'..=b'Z' | b'0'..=b'9')
}

fn misplaced(offset: usize) -> PartFault
    ensures hyphen { is_hyphen_offset offset ≡ true → result ≡ PartFault.Hyphen offset }
    ensures character { is_hyphen_offset offset ≡ false → result ≡ PartFault.Character offset }
{
    match offset {
        5 | 10 => PartFault::Hyphen(offset as u64),
        _ => PartFault::Character(offset as u64),
    }
}

/// The value of the check digits of a text.
#[tactic(auto, using(crate::proofs::Reading::first_digit_is_good, crate::proofs::Reading::second_digit_is_good, crate::proofs::Reading::values_of_check_digits))]
fn written_check(text: &[u8; 15]) -> u8
    requires { HasGoodCharacters text.now }
    ensures { check_digits_of text.now ≡ hexadecimal result }
{
    16 * value_of_digit(text[3]) + value_of_digit(text[4])
}

/// What they have to be.
#[tactic(auto, unfolding(crate::specs::PartNumber::check_of))]
fn computed_check(text: &[u8; 15]) -> u8
    ensures { result ≡ check_of (maker_of text.now) (product_of text.now) }
{
    exclusive_or(&characters_of(text))
}

/// The characters of the maker and of the product of a text.
#[tactic(auto, using(crate::proofs::Characters::characters_in_text))]
fn characters_of(text: &[u8; 15]) -> [u8; 11]
    ensures { result ≡ maker_of text.now ++ product_of text.now }
{
    let [m0, m1, m2, _, _, _, p0, p1, p2, p3, _, p4, p5, p6, p7] = *text;
    [m0, m1, m2, p0, p1, p2, p3, p4, p5, p6, p7]
}

fn exclusive_or(characters: &[u8; 11]) -> u8
    ensures { result ≡ fold bit_xor 0 characters.now }
{
    characters.iter().fold(0, |sum, character| sum ^ character)
}

#[tactic(auto, unfolding(crate::specs::PartNumber::hexadecimal_digit))]
fn digit_of_value(value: u8) -> u8
    requires { value < 16 }
    ensures { result ≡ hexadecimal_digit value }
{
    if value < 10 {
        b'0' + value
    } else {
        b'A' + (value - 10)
    }
}

/// The number below 16 whose digit this is.
#[tactic(auto, unfolding(crate::specs::PartNumber::hexadecimal_digit))]
fn value_of_digit(digit: u8) -> u8
    requires { is_hexadecimal_digit digit ≡ true }
    ensures value { hexadecimal_digit result ≡ digit }
    ensures small { result < 16 }
{
    match digit {
        b'0'..=b'9' => digit - b'0',
        _ => digit - b'A' + 10,
    }
}
