ghost use Rattle.std.specs.Prelude.{◌≡◌, ◌↔◌, Ok};
ghost use Rattle.wire_sheet.specs.Lines.{Reads};
ghost use Rattle.wire_sheet.specs.Sheets.{sheet_text};

use crate::sheet::Sheet;
use crate::wire_line::WireLine;
use inventory::check_number;
use refusals::Refusal;
use tables::Wiring;

const LONGEST_LINE: usize = 1100;

impl Sheet {
    /// The number of the part.
    pub fn number(&self) -> u32
        ensures { result ≡ self.now.number }
    {
        self.number
    }

    /// From each card input to a pin.
    pub fn wiring(&self) -> &Wiring
        ensures { result.now ≡ self.now.wiring }
    {
        &self.wiring
    }

    /// Reads a wire line, its newline included. A sheet is read from its own text and from no other.
    pub fn read(line: &[u8]) -> Result<Sheet, Refusal>
        ensures answer { Reads line.now result }
        ensures exact { (sheet : Sheet) → (result ≡ Ok sheet) ↔ (line.now ≡ sheet_text sheet.number sheet.wiring) }
    {
        if line.len() > LONGEST_LINE {
            return Err(Refusal::NotAForm);
        }
        let line = WireLine::read(line).ok_or(Refusal::NotAForm)?;
        check_number(line.number)?;
        let wiring = Wiring::new(line.inputs, line.list.pins())?;
        Ok(Sheet {
            number: line.number,
            wiring,
        })
    }
}
