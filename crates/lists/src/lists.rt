ghost use Rattle.std.specs.Prelude.{◌≡◌, ◌≤◌, length};

mod reading;

/// For each input of a table its list: its answers at every place, in order. Rows past the inputs and answers past the
/// places do not count.
#[derive(Clone, Copy)]
pub struct Lists {
    pub inputs: usize,
    pub places: usize,
    pub answers: [[u32; 64]; 10],
    ghost few: { inputs ≤ 10 },
    ghost short: { places ≤ 64 },
    ghost whole: { length answers ≡ 10 },
}

impl Lists {
    /// Of no inputs, at no places.
    pub const NONE: Lists = Lists {
        inputs: 0,
        places: 0,
        answers: [[0; 64]; 10],
    };
}
