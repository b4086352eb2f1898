//! Laws of the script. Each is the contract of a function that does nothing.
ghost use Rattle.dvg_driver.specs.Laws.{OneAction, PlaceTells};

/// A life has a place in the script exactly where the script allows it, and it rests exactly where
/// it is made of whole parts.
pub fn place_tells()
    ensures { PlaceTells }
{}

/// For each state of the HALT flag, exactly one action goes on a life that the script allows.
#[tactic(auto, using(crate::proofs::OneAction::one_action))]
pub fn one_action()
    ensures { OneAction }
{}
