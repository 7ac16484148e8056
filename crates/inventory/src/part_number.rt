ghost use Rattle.std.specs.Prelude.{◌≤◌};
ghost use Rattle.refusals.specs.Due.{Outcome};
ghost use Rattle.ledger.specs.Refused.{number_due};

use refusals::Refusal;

/// Whether this is the number of a part, from 1 to 9999.
pub fn check_number(number: u32) -> Result<(), Refusal>
    ensures { Outcome (number_due number) (λ _. (1 ≤ number) × (number ≤ 9999)) result }
{
    if !(1..=9999).contains(&number) {
        return Err(Refusal::NotAPartNumber);
    }
    Ok(())
}
