// Worked cases: runs and disputes on real SHA-256.
#![tactic(auto)]

ghost use Rattle.cases.specs.Table.{Worked};

// Every row of the table holds.
pub fn worked_cases()
    ensures { Worked }
{}
