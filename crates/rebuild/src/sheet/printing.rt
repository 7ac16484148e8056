ghost use Rattle.std.specs.Prelude.{◌≡◌, take};
ghost use Rattle.rebuild.specs.Sheets.{IsSheet};

use crate::sheet::Printed;
use trial::Tried;
use wire_sheet::{Sheet, print_sheet};

impl Printed {
    /// The sheet of a tried wiring, printed and read back.
    pub fn of(tried: Tried) -> Printed
        ensures { IsSheet tried.number tried.wiring result }
    {
        let mut text = [0; 47];
        let Ok(len) = print_sheet(tried, &mut text) else {
            unreachable!()
        };
        let Ok(read) = Sheet::read(&text[..len]) else {
            unreachable!()
        };
        Printed { text, len, read }
    }

    /// The text of the sheet.
    pub fn text(&self) -> &[u8]
        ensures { result.now ≡ take self.now.len self.now.text }
    {
        &self.text[..self.len]
    }
}
