ghost use Rattle.std.specs.Prelude.{◌≡◌, Some};
ghost use Rattle.refusals.specs.Numbers.{number};
ghost use Rattle.refusals.specs.Texts.{text};

use std::error::Error;
use std::fmt;

/// Why a call was refused. Each case has a fixed number, by which every layer and every answer text knows it.
#[derive(Clone, Copy, PartialEq, Eq, Debug)]
pub enum Refusal {
    NotAForm = 1,
    NotAPartNumber = 2,
    TooManyInputs = 3,
    WrongRowCount = 4,
    DriveOutOfRange = 5,
    WrongShelfSize = 6,
    NumberStands = 7,
    ShelfFull = 8,
    NumberDoesNotStand = 9,
    NoPartAgrees = 10,
    WrongTrialCount = 11,
    ReadingDiffers = 12,
    MemoryTooShort = 13,
    NotAWiring = 14,
}

impl Refusal {
    /// The number that answers and pages name it by.
    pub fn number(self) -> u8
        ensures { result ≡ number self }
    {
        self as u8
    }

    /// What it says to a person.
    pub fn reason(self) -> &'static str
        ensures { result.now ≡ text self }
    {
        match self {
            Refusal::NotAForm => "the text is none of the forms",
            Refusal::NotAPartNumber => "a part's number is from 1 to 9999",
            Refusal::TooManyInputs => "a table has at most ten inputs",
            Refusal::WrongRowCount => "a table of n inputs has 2^n rows",
            Refusal::DriveOutOfRange => {
                "a drive has a direction from 0 to 2 and a hold from 0 to 99"
            }
            Refusal::WrongShelfSize => "a shelf has 1 to 64 slots and 1,024 rows of memory a slot",
            Refusal::NumberStands => "a part of this number stands",
            Refusal::ShelfFull => "each slot has its part",
            Refusal::NumberDoesNotStand => "no part of this number stands",
            Refusal::NoPartAgrees => "no standing part agrees with the card",
            Refusal::WrongTrialCount => "a trial takes 2^n rows and as many readings",
            Refusal::ReadingDiffers => "a reading differs from the card's row",
            Refusal::MemoryTooShort => "the memory for the answer is too short",
            Refusal::NotAWiring => "a wiring names each pin below n once",
        }
    }
}

impl fmt::Display for Refusal {
    ghost output = { λ refusal. Some (text refusal) };

    fn fmt<W: fmt::Write>(&self, f: &mut fmt::Formatter<W>) -> fmt::Result {
        let reason = self.reason();
        write!(f, "{reason}")
    }
}

impl Error for Refusal {}
