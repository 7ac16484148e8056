ghost use Rattle.std.specs.Prelude.{◌≡◌, ◌<◌, ◌≤◌, All, Decides, length};
ghost use Rattle.every_wiring.specs.Agreement.{part_row, Agrees};

// The row in which the pin of each input has the value that the input has in this row.
fn part_row(pins: &[u8], row: usize) -> usize
    requires few { length pins.now ≤ 6 }
    requires low { All (λ pin. pin < 6) pins.now }
    ensures { result ≡ part_row pins.now row }
{
    let mut sum = 0;
    let mut left = row;
    for &pin in pins {
        if left % 2 == 1 {
            sum += 1usize << pin;
        }
        left /= 2;
    }
    sum
}

/// Whether card and part agree under the wiring that has these pins.
pub fn agree(card: &[u16], part: &[u16], pins: &[u8]) -> bool
    requires few { length pins.now ≤ 6 }
    requires low { All (λ pin. pin < 6) pins.now }
    ensures { Decides result (Agrees card.now part.now pins.now) }
{
    if card.len() != part.len() {
        return false;
    }
    for (row, code) in card.iter().enumerate() {
        if part.get(part_row(pins, row)).copied() != Some(*code) {
            return false;
        }
    }
    true
}
