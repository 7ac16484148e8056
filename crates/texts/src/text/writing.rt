ghost use Rattle.std.specs.Prelude.{◌≡◌, ◌+◌, ◌≤◌, [], ◌++◌, length};
ghost use Rattle.std.specs.Fmt.{decimal};
ghost use Rattle.texts.specs.Pins.{pins_text};

use crate::text::Text;
use arrayvec::ArrayVec;

impl Text {
    /// A text of no bytes.
    pub fn empty() -> Text
        ensures { result ≡ [] }
    {
        Text {
            bytes: ArrayVec::new(),
        }
    }

    /// What is put has to have room: whoever puts a text together knows how long it can get.
    pub fn put(&mut self, bytes: &[u8])
        requires { length self.old + length bytes.now ≤ 64 }
        ensures text { self.new ≡ self.old ++ bytes.now }
        ensures len { length self.new ≡ length self.old + length bytes.now }
    {
        self.bytes.try_extend_from_slice(bytes).unwrap();
    }

    /// The number's decimal digits.
    #[tactic(auto, using(crate::proofs::Lengths::steps))]
    pub fn put_number(&mut self, number: u32)
        requires { length self.old + length (decimal number) ≤ 64 }
        ensures text { self.new ≡ self.old ++ decimal number }
        ensures len { length self.new ≡ length self.old + length (decimal number) }
    {
        if number >= 10 {
            self.put_number(number / 10);
        }
        self.put(&[b'0' + (number % 10) as u8]);
    }

    /// Each pin after a space: the inside of a to-list.
    pub fn put_pins(&mut self, pins: &[u8])
        requires { length self.old + length (pins_text pins.now) ≤ 64 }
        ensures text { self.new ≡ self.old ++ pins_text pins.now }
        ensures len { length self.new ≡ length self.old + length (pins_text pins.now) }
    {
        for pin in pins {
            self.put(b" ");
            self.put_number(u32::from(*pin));
        }
    }
}
