ghost use Rattle.std.specs.Prelude.{◌≤◌};

mod making;
mod row;

/// Where a drive moves.
#[derive(Clone, Copy, PartialEq, Eq, Debug)]
pub enum Direction {
    Rest,
    Left,
    Right,
}

/// What a card drives in a row: a direction, and for how many ticks it is held.
#[derive(Clone, Copy, Debug)]
pub struct Drive {
    pub direction: Direction,
    pub hold: u8,
    ghost held: { hold ≤ 99 },
}
