ghost use Rattle.std.specs.Prelude.{◌≡◌, ℕ, ◌<◌, false, [], length, slice_index_or};
ghost use Rattle.matching.specs.Struck.{struck, Strike};

/// Pairs of a card input and a pin that a wiring may not use.
#[derive(Clone, Copy)]
pub struct Strikes {
    struck: [[bool; 10]; 10],
    ghost wide: { (i : ℕ) → i < 10 → length (slice_index_or struck i []) ≡ 10 },
}

impl Strikes {
    /// No pair is struck.
    pub fn none() -> Strikes
        ensures { (i p : ℕ) → struck result.struck i p ≡ false }
    {
        Strikes {
            struck: [[false; 10]; 10],
        }
    }

    /// Strikes a pair. There is none where the input or the pin is ten or more.
    pub fn strike(&mut self, input: usize, pin: usize)
        ensures { Strike self.old.struck input pin self.new.struck }
    {
        if input < 10 && pin < 10 {
            self.struck[input][pin] = true;
        }
    }

    /// Whether a pair is struck.
    pub fn is_struck(&self, input: usize, pin: usize) -> bool
        ensures { result ≡ struck self.now.struck input pin }
    {
        self.struck.get(input).and_then(|row| row.get(pin)) == Some(&true)
    }
}
