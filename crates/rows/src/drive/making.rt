ghost use Rattle.refusals.specs.Due.{Outcome};
ghost use Rattle.rows.specs.Drives.{Directs, due, Is};

use crate::drive::{Direction, Drive};
use refusals::Refusal;

impl TryFrom<u8> for Direction {
    type Error = Refusal;

    ghost try_from_gives = { Directs };

    fn try_from(number: u8) -> Result<Direction, Refusal> {
        match number {
            0 => Ok(Direction::Rest),
            1 => Ok(Direction::Left),
            2 => Ok(Direction::Right),
            _ => Err(Refusal::DriveOutOfRange),
        }
    }
}

impl Drive {
    /// The drive of a direction's number (rest 0, left 1, right 2) and a hold of at most 99 ticks.
    pub fn new(direction: u8, hold: u8) -> Result<Drive, Refusal>
        ensures { Outcome (due direction hold) (Is direction hold) result }
    {
        let direction = Direction::try_from(direction)?;
        if hold > 99 {
            return Err(Refusal::DriveOutOfRange);
        }
        Ok(Drive { direction, hold })
    }
}
