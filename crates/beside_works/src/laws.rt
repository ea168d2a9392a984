ghost use Rattle.beside_works.specs.Aborters.{AbortsAreMet};

/// States that what new aborters have done is what their lines say, once they were met.
#[tactic(auto, using(crate::proofs::LineLemmas::aborts_are_met))]
pub fn aborts_are_met()
    ensures { AbortsAreMet }
{}
