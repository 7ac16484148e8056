//! Worked examples, proved of the definitions that the contracts use.
#![tactic(auto)]

ghost use Rattle.std.specs.Prelude.{◌≡◌, length};
ghost use Rattle.worked_facts.specs.Cases.{cases, WorkedFacts};

/// Every worked example of the table holds. The answer is how many there are.
pub fn worked_facts_stand() -> usize
    ensures hold { WorkedFacts }
    ensures count { result ≡ length cases }
{
    20
}
