ghost use Rattle.std.specs.Prelude.{◌≡◌, ◌≢◌, ℕ, ◌++◌, List, MatchOption, codes};
ghost use Rattle.std.specs.Fmt.{decimal};
ghost use Rattle.tokens.specs.Characters.{word_text};
ghost use Rattle.tokens.specs.Phrases.{IsShort, opening_text, inputs_text};
ghost use Rattle.tokens.specs.declared.characters.Kind.TheVariants.{Letter, Digit};

use crate::characters::{Kind, word_of};
use crate::cursor::Cursor;
use crate::token::{Sign, Token, Word};

// What the lines have in common. Where it does not come next, the cursor may have gone past the beginning of it.
impl<'a> Cursor<'a> {
    ghost use Rattle.tokens.specs.Cursors.{rest, Ends};

    /// Goes past an opening bracket and a word, and says which it is.
    pub fn opening(&mut self) -> Option<Word>
        ensures { MatchOption result ((word : Word) (tail : List ℕ) → Ends Letter tail → rest self.old ≢ opening_text word tail) (λ word. Ends Letter (rest self.new) × (rest self.old ≡ opening_text word (rest self.new))) }
    {
        self.sign(Sign::Open)?;
        let run = self.run(Kind::Letter);
        let word = word_of(run)?;
        self.at += run.len();
        Some(word)
    }

    /// Goes past an opening bracket and this word.
    pub fn open(&mut self, word: Word) -> Option<()>
        ensures { MatchOption result ((tail : List ℕ) → Ends Letter tail → rest self.old ≢ opening_text word tail) (λ _. rest self.old ≡ opening_text word (rest self.new)) }
    {
        self.sign(Sign::Open)?;
        self.word(word)?;
        Some(())
    }

    /// The number that comes after a space.
    pub fn next_number(&mut self) -> Option<u32>
        ensures { MatchOption result ((n : ℕ) (tail : List ℕ) → IsShort n → Ends Digit tail → rest self.old ≢ codes " " ++ (decimal n ++ tail)) (λ n. IsShort n × Ends Digit (rest self.new) × (rest self.old ≡ codes " " ++ (decimal n ++ rest self.new))) }
    {
        self.sign(Sign::Space)?;
        let Some(Token::Number { value, .. }) = self.number() else {
            return None;
        };
        Some(value)
    }

    /// The number of inputs, as in ` (pins 3)`.
    pub fn inputs(&mut self) -> Option<usize>
        ensures { MatchOption result ((n : ℕ) (tail : List ℕ) → IsShort n → rest self.old ≢ inputs_text n tail) (λ n. IsShort n × (rest self.old ≡ inputs_text n (rest self.new))) }
    {
        self.sign(Sign::Space)?;
        self.open(Word::Pins)?;
        let inputs = self.next_number()?;
        self.sign(Sign::Close)?;
        Some(inputs as usize)
    }

    /// The line ends after a closing bracket and a newline.
    pub fn end(mut self) -> Option<()>
        ensures { MatchOption result (rest self.entry ≢ codes ")\n") (λ _. rest self.entry ≡ codes ")\n") }
    {
        self.sign(Sign::Close)?;
        self.sign(Sign::Newline)?;
        if !self.is_at_end() {
            return None;
        }
        Some(())
    }
}
