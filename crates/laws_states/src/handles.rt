ghost use Rattle.laws_states.specs.Handles.{SetsNamedAtHome, SetsNamedOnce};

/// In a reached state a handle of a waitable set names a set of the handle's own instance.
#[tactic(auto, using(crate::proofs::SetHandles::sets_named_at_home))]
pub fn sets_are_named_at_home()
    ensures { SetsNamedAtHome }
{}

/// In a reached state no two handles name one waitable set.
#[tactic(auto, using(crate::proofs::SetHandles::sets_named_once))]
pub fn sets_are_named_once()
    ensures { SetsNamedOnce }
{}
