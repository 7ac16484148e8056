ghost use Rattle.std.specs.Prelude.{◌≡◌, ◌↔◌, ◌≤◌, ◌+◌, [], IsTrue, length};

use crate::characters::{Kind, is_kind, sign_of, word_of};
use crate::cursor::Cursor;
use crate::numerals::number_of;
use crate::token::{Sign, Token, Word};

impl<'a> Cursor<'a> {
    ghost use Rattle.tokens.specs.Cursors.{rest, Run, EatsSign, EatsWord, EatsNumber, EatsRows};

    /// At the start of a line.
    pub fn new(line: &'a [u8]) -> Cursor<'a>
        ensures line { result.line ≡ line.entry }
        ensures start { result.at ≡ 0 }
    {
        Cursor { line, at: 0 }
    }

    /// Whether nothing of the line is left.
    pub fn is_at_end(&self) -> bool
        ensures { IsTrue result ↔ (rest self.now ≡ []) }
    {
        self.at == self.line.len()
    }

    // The longest run of a kind that comes next.
    pub(super) fn run(&self, kind: Kind) -> &'a [u8]
        ensures { Run kind (rest self.now) result.now }
    {
        let rest = &self.line[self.at..];
        let end = rest
            .iter()
            .position(|byte| !is_kind(kind, char::from(*byte)));
        &rest[..end.unwrap_or(rest.len())]
    }

    /// Goes past this sign, if it comes next.
    pub fn sign(&mut self, sign: Sign) -> Option<Token<'a>>
        ensures { EatsSign sign self.old self.new result }
    {
        let at = self.at;
        let byte = self.line.get(at)?;
        if sign_of(char::from(*byte)) != Some(sign) {
            return None;
        }
        self.at += 1;
        Some(Token::Sign { sign, at })
    }

    /// Goes past this word, if it comes next and no letter follows it.
    pub fn word(&mut self, word: Word) -> Option<Token<'a>>
        ensures { EatsWord word self.old self.new result }
    {
        let at = self.at;
        let run = self.run(Kind::Letter);
        if word_of(run) != Some(word) {
            return None;
        }
        self.at += run.len();
        Some(Token::Word { word, at })
    }

    /// Goes past a number of one to five digits, if one comes next and no digit follows it.
    pub fn number(&mut self) -> Option<Token<'a>>
        ensures { EatsNumber self.old self.new result }
    {
        let at = self.at;
        let run = self.run(Kind::Digit);
        let value = number_of(run)?;
        self.at += run.len();
        Some(Token::Number { value, run, at })
    }

    /// Goes past the digits 0 and 1 of rows, as far as they go, if one comes next.
    pub fn rows(&mut self) -> Option<Token<'a>>
        ensures { EatsRows self.old self.new result }
    {
        let at = self.at;
        let run = self.run(Kind::RowDigit);
        if run.is_empty() {
            return None;
        }
        self.at += run.len();
        Some(Token::Rows { run, at })
    }
}
