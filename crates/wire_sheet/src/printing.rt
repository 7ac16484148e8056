ghost use Rattle.std.specs.Prelude.{◌≡◌, ◌≤◌, length};
ghost use Rattle.refusals.specs.declared.refusal.Refusal.TheVariants.{MemoryTooShort};
ghost use Rattle.wire_sheet.specs.Sheets.{sheet_text, Printed};

use refusals::Refusal;
use texts::Text;
use trial::Tried;

/// Memory that a sheet did not go into. The tried wiring is as it was, and may be printed into other memory.
#[derive(Drop)]
pub struct TooShort {
    pub tried: Tried,
}

impl TooShort {
    /// The refusal of memory that is too short.
    pub fn refusal(&self) -> Refusal
        ensures { result ≡ MemoryTooShort }
    {
        Refusal::MemoryTooShort
    }
}

#[tactic(auto, using(crate::proofs::Lengths::lengths))]
fn text_of(tried: &Tried) -> Text
    ensures text { result ≡ sheet_text tried.now.number tried.now.wiring }
    ensures short { length result ≤ 47 }
{
    let mut text = Text::empty();
    text.put(b"(wire ");
    text.put_number(tried.number());
    text.put(b" (pins ");
    text.put_number(tried.wiring().inputs() as u32);
    text.put(b") (to");
    text.put_pins(tried.wiring().pins());
    text.put(b"))\n");
    text
}

/// Prints the sheet of a tried wiring into the front of the memory, and answers how long it is. That uses the tried wiring
/// up: it is printed once. Memory of 47 bytes is always enough.
pub fn print_sheet(tried: Tried, memory: &mut [u8]) -> Result<usize, TooShort>
    ensures answer { Printed tried memory.old result memory.new }
    ensures short { length (sheet_text tried.number tried.wiring) ≤ 47 }
{
    text_of(&tried)
        .copy_into(memory)
        .map_err(|_| TooShort { tried })
}
