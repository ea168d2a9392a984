ghost use Rattle.laws_beside.specs.Shown.{OthersCallNone, PollsCall, ScriptsCall};

/// A step in a turn of polls polls the work that is next, and finishes it if it ends.
#[tactic(auto, using(crate::proofs::ShownLemmas::polls_call))]
pub fn polls_call()
    ensures { PollsCall }
{}

/// A step of main that aborts a spawn, or waits for one, calls that on it.
#[tactic(auto, using(crate::proofs::ShownLemmas::scripts_call))]
pub fn scripts_call()
    ensures { ScriptsCall }
{}

/// Other steps call nothing on a spawn.
#[tactic(auto, using(crate::proofs::ShownLemmas::others_call_none))]
pub fn others_call_none()
    ensures { OthersCallNone }
{}
