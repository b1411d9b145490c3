#![tactic(auto)]

pub mod half;
pub mod house;
pub mod tally;
pub mod worked;

ghost use Rattle.rehearsal.specs.Cases.{EachHolds, cases};
ghost use Rattle.rehearsal.specs.Remarks.{NotTheBeginning, PassesTwice};

/// Each worked case holds of the definitions: its walk is legal, repeats no run and costs what it says,
/// and every legal walk to the mark costs at least as much; or there is no legal walk.
pub fn cases_stand()
    ensures cases { EachHolds cases }
    ensures beginning { NotTheBeginning }
    ensures twice { PassesTwice }
{}
