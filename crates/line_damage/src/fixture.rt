use crate::lines::LINES;
use inventory::Shelf;
use rows::OnOff;
use shelf_line::answer_line;
use signatures::STANDARD_PILE;
use std::alloc::{AllocError, Global};

/// A shelf of five slots with four parts, and its row memory.
#[derive(Drop)]
pub struct Fixture {
    shelf: Shelf,
    memory: [OnOff; 5 * 1024],
}

impl Fixture {
    /// The shelf with its parts.
    pub fn new() -> Fixture {
        let mut fixture = Fixture {
            shelf: Shelf::open(5).unwrap(),
            memory: [OnOff::Off; 5 * 1024],
        };
        for line in LINES.iter().take(4) {
            fixture.answer(line.as_bytes(), &mut [0; 64]);
        }
        fixture
    }

    /// The answer to a line, empty when it is no text.
    pub fn answer<'a>(&mut self, line: &[u8], buffer: &'a mut [u8; 64]) -> &'a str {
        let Fixture { shelf, memory } = self;
        let len = answer_line(shelf, memory, &STANDARD_PILE, line, buffer).unwrap_or(0);
        str::from_utf8(buffer.get(..len).unwrap_or(&[])).unwrap_or("")
    }

    /// What the shelf answers to the lines that leave it as it is, which shows its parts and a free slot; and its row memory.
    pub fn state(&mut self, alloc: Global) -> Result<(String, [OnOff; 5 * 1024]), AllocError> {
        let mut answers = String::new(alloc);
        for line in LINES.iter().take(9) {
            answers.push_str(self.answer(line.as_bytes(), &mut [0; 64]))?;
        }
        Ok((answers, self.memory))
    }
}

/// The number of the refusal that is an answer.
pub fn refused_with(answer: &str) -> Option<u8> {
    let number = answer.strip_prefix("(no ")?.strip_suffix(")\n")?;
    number.parse().ok().filter(|n| matches!(n, 1..=4 | 7..=10))
}

/// Whether an answer names a part that fits.
pub fn names_part(answer: &str) -> Option<bool> {
    let words = answer.strip_prefix("(fit ")?.strip_suffix("))\n")?;
    let (number, words) = words.split_once(" (to")?;
    let (pins, struck) = words.split_once(") (struck ")?;
    let has_numbers = number.parse::<u16>().is_ok() && struck.parse::<u8>().is_ok();
    Some(has_numbers && pins.bytes().all(|byte| matches!(byte, b' ' | b'0'..=b'9')))
}
