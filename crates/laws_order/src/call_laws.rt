ghost use Rattle.laws_order.specs.Given.{EnterKeeps, StartKeeps};
ghost use Rattle.laws_order.specs.Pieces.{PrepareKeeps, PrepareMakes};

/// A running thread that queues the start of a call which it prepared before keeps order in which it has an op that calls an export,
/// wherever it is in its script, whatever was done in between, where nothing has become of that call.
#[tactic(auto, using(crate::proofs::CallLemmas::prepare_makes, crate::proofs::StartLemmas::start_keeps))]
pub fn starts_keep()
    ensures prepared { PrepareMakes }
    ensures start { StartKeeps }
{}

/// A running thread that calls an export directly, with whatever values, keeps order in which it has a sync call of that export,
/// wherever it is in its script.
#[tactic(auto, using(crate::proofs::CallLemmas::enter_keeps))]
pub fn enters_keep()
    ensures { EnterKeeps }
{}

/// A call that is made, and not started yet, leaves a state in order, whoever it is made for, with
/// whatever values, for whatever goal but that of a direct one, and whosever turn it is.
#[tactic(auto, using(crate::proofs::NewLemmas::prepare_keeps))]
pub fn prepares_keep()
    ensures { PrepareKeeps }
{}
