ghost use Rattle.std.specs.Prelude.{◌≡◌, ◌+◌, ◌↔◌, ◌∷◌, [], IsTrue, MatchOption};
ghost use Rattle.tokens.specs.Characters.{Is, sign_text, word_text};

use crate::token::{Sign, Word};

/// What a run of characters is made of.
#[derive(Clone, Copy, PartialEq, Eq, Debug)]
pub enum Kind {
    Letter,
    Digit,
    RowDigit,
}

/// Whether a character is of this kind.
pub fn is_kind(kind: Kind, c: char) -> bool
    ensures { IsTrue result ↔ Is kind c }
{
    match (kind, c) {
        (Kind::Letter, 'a'..='z') => true,
        (Kind::Digit, '0'..='9') => true,
        (Kind::RowDigit, '0' | '1') => true,
        _ => false,
    }
}

/// The value of a digit.
pub fn digit_of(c: char) -> Option<u32>
    ensures { MatchOption result (¬ Is Kind.Digit c) (λ digit. Is Kind.Digit c × (c ≡ 48 + digit)) }
{
    match c {
        '0'..='9' => Some(u32::from(c) - u32::from('0')),
        _ => None,
    }
}

/// The sign that a character is.
pub fn sign_of(c: char) -> Option<Sign>
    ensures { (sign : Sign) → (result ≡ Some sign) ↔ (sign_text sign ≡ c ∷ []) }
{
    match c {
        '(' => Some(Sign::Open),
        ')' => Some(Sign::Close),
        ' ' => Some(Sign::Space),
        '\n' => Some(Sign::Newline),
        _ => None,
    }
}

fn word_of_two(a: char, b: char) -> Option<Word>
    ensures { (word : Word) → (result ≡ Some word) ↔ (word_text word ≡ a ∷ b ∷ []) }
{
    match (a, b) {
        ('t', 'o') => Some(Word::To),
        _ => None,
    }
}

fn word_of_four(a: char, b: char, c: char, d: char) -> Option<Word>
    ensures { (word : Word) → (result ≡ Some word) ↔ (word_text word ≡ a ∷ b ∷ c ∷ d ∷ []) }
{
    match (a, b, c, d) {
        ('p', 'a', 'r', 't') => Some(Word::Part),
        ('d', 'r', 'o', 'p') => Some(Word::Drop),
        ('c', 'a', 'r', 'd') => Some(Word::Card),
        ('p', 'i', 'n', 's') => Some(Word::Pins),
        ('r', 'o', 'w', 's') => Some(Word::Rows),
        ('w', 'i', 'r', 'e') => Some(Word::Wire),
        _ => None,
    }
}

/// The word that these letters spell.
pub fn word_of(letters: &[u8]) -> Option<Word>
    ensures { (word : Word) → (result ≡ Some word) ↔ (word_text word ≡ letters.now) }
{
    match letters {
        [a, b] => word_of_two(char::from(*a), char::from(*b)),
        [a, b, c, d] => word_of_four(
            char::from(*a),
            char::from(*b),
            char::from(*c),
            char::from(*d),
        ),
        _ => None,
    }
}
