// The worked cases, about the definitions that the contracts of measures, layers, prices and the search cite.
#![tactic(auto)]

ghost use Rattle.worked.specs.Worked.{AllHold};

// Every worked case holds.
#[tactic(auto, using(crate::proofs::Holding::all_hold))]
pub fn worked_cases()
    ensures { AllHold }
{}
