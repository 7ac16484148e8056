ghost use Rattle.std.specs.Prelude.{◌≡◌, ◌≤◌};

use tables::Wiring;

/// What fit proposes: a part's number, the wiring, and how many pairs of an input and a pin are struck. Only fit makes
/// one. It is moved and never copied, so that what is done with it is done once; it may be given up.
#[derive(Drop)]
pub struct Proposal {
    pub(crate) number: u32,
    pub(crate) wiring: Wiring,
    pub(crate) struck: usize,
    ghost numbered: { (1 ≤ number) × (number ≤ 9999) },
    ghost few: { struck ≤ 100 },
}

impl Proposal {
    /// The number of the part.
    pub fn number(&self) -> u32
        ensures { result ≡ self.now.number }
    {
        self.number
    }

    /// From each card input to a pin.
    pub fn wiring(&self) -> &Wiring
        ensures { result.now ≡ self.now.wiring }
    {
        &self.wiring
    }

    /// How many pairs of a card input and a pin are struck.
    pub fn struck(&self) -> usize
        ensures { result ≡ self.now.struck }
    {
        self.struck
    }
}
