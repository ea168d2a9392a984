//! Laws of passes that users of join handles rest on. The functions do nothing.
ghost use Rattle.std.specs.Prelude.{◌≡◌, ◌≢◌, ℕ};
ghost use mathlib.Core.Option.{some};
ghost use lib.ListN.{get_elem?};
ghost use Rattle.task_abort.specs.Cells.{view_of};
ghost use Rattle.task_abort.specs.PhaseLog.{Name, phase};
ghost use Rattle.task_abort.specs.Rule.{HasMetAll, AllKnown};
ghost use Rattle.task_abort.specs.Staged.{LateAreLast, StagedIsLegal, StagedKeepsAborters, StagedKeepsOwn, UnfinishedBefore};
ghost use Rattle.task_abort.specs.declared.log.LogEntry.{LogEntry};
ghost use Rattle.machine_data.specs.declared.statuses.Phase.TheVariants.{Running, Complete};
ghost use Rattle.task_abort.specs.declared.log.PhaseCall.TheVariants.{Abort, Finish};

use crate::cell::JoinPass;

/// States that the first pass, once it has met each pass that was split off from it and none of these was ever split,
/// has seen the calls of its callers and no others. (By the line of the rule on names that go on from a name.)
pub fn known_callers(pass: &JoinPass)
    requires { HasMetAll (view_of pass.now) }
    ensures { AllKnown (view_of pass.now) }
{
    // only the contract speaks of `pass`
    let _pass = pass;
}

/// States that the log put together by stages from the lists of such a pass and of the passes that it met, which made
/// aborts alone, is legal. (By the one legal log that the pass has seen.)
pub fn staged_log_is_legal(pass: &JoinPass)
    requires { AllKnown (view_of pass.now) }
    ensures { StagedIsLegal (view_of pass.now) }
{
    // only the contract speaks of `pass`
    let _pass = pass;
}

/// States that such a staged log has just the entries of each list, in the list's order, where the aborters are in the order of their
/// numbers. (What one caller's calls find never falls.)
pub fn staged_log_keeps_lists(pass: &JoinPass)
    requires { AllKnown (view_of pass.now) }
    ensures run { StagedKeepsOwn (view_of pass.now) }
    ensures aborters { StagedKeepsAborters (view_of pass.now) }
{
    // only the contract speaks of `pass`
    let _pass = pass;
}

/// States that such a staged log has the calls of caller 0 after its first n last, behind every entry of an aborter. (All
/// aborts were made before them.)
pub fn late_calls_are_last(pass: &JoinPass)
    requires { AllKnown (view_of pass.now) }
    ensures { LateAreLast (view_of pass.now) }
{
    // only the contract speaks of `pass`
    let _pass = pass;
}

/// States that before its own finish no call of such a pass finds `Complete`, where the passes that it met made aborts
/// alone. So a poll of the future that found another phase than `Running` found `AbortRequested`. (Only a finish makes a
/// phase `Complete`.)
pub fn unfinished_calls(pass: &JoinPass)
    requires { AllKnown (view_of pass.now) }
    ensures { UnfinishedBefore (view_of pass.now) }
{
    // only the contract speaks of `pass`
    let _pass = pass;
}

/// States that a pass that has seen an abort has seen a phase other than `Running`, and one that has seen a finish has
/// seen `Complete`. (No call lowers the phase.)
pub fn phases_of_seen_calls(pass: &JoinPass)
    ensures aborted { (m : ℕ) (e : LogEntry Name) → get_elem? (view_of pass.now).seen m ≡ some e → e.call ≡ Abort → phase (view_of pass.now).seen ≢ Running }
    ensures finished { (m : ℕ) (e : LogEntry Name) → get_elem? (view_of pass.now).seen m ≡ some e → e.call ≡ Finish → phase (view_of pass.now).seen ≡ Complete }
{
    // only the contract speaks of `pass`
    let _pass = pass;
}
