ghost use Rattle.std.specs.Prelude.{◌≤◌};

/// What a slot in use says of its part: the number, and how many inputs it has.
#[derive(Clone, Copy)]
pub struct Label {
    pub number: u32,
    pub inputs: usize,
    ghost numbered: { (1 ≤ number) × (number ≤ 9999) },
    ghost few: { inputs ≤ 10 },
}
