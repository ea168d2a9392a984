//! What the loop tells of groups after a step.
ghost use Rattle.std.specs.Prelude.{◌≡◌, IfOk, None, Some, false, is_some, true};
ghost use Rattle.task_loop.specs.Told.{TellsOut, TellsWhole, groups_before_work, groups_before_run, current_group, runs_on, turn_of};
ghost use Rattle.machine_data.specs.declared.records.Turn.TheVariants as turns;
ghost use Rattle.ops_turns.specs.Turn.{RunnerThere, running_of};
ghost use Rattle.core_primitives.specs.Groups.{asked};

use core_primitives::{ThreadPrimitives, View};
use core_state::TaskCore;
use machine_data::Turn;
use ops_turns::StepResult;
use store_notices::{GroupsBefore, tell_at_once, tell_moves};
use task_group::{HookError, Listeners, TaskGroupHook};
use task_store::finish_ended;

/// Returns the group of the thread that runs, as long as it is tracked; 0 if none runs.
#[inline(always)]
pub(crate) fn group_now(core: &TaskCore) -> u64
    ensures { result ≡ current_group core.now }
{
    match core.current() {
        Some(thread) => core.thread_group(thread),
        None => 0,
    }
}

// Tells the groups of a thread that is there by contract: nothing is tested.
#[inline(always)]
fn runner_group(core: &TaskCore) -> u64
    requires { RunnerThere core.now }
    ensures { result ≡ current_group core.now }
{
    core.none_is_zero();
    match core.current() {
        Some(thread) => core.group_unchecked(thread),
        None => 0,
    }
}

// Whether the thread runs on after a step.
#[inline(always)]
fn goes_on(thread: u64, stepped: &StepResult) -> bool
    ensures { result ≡ runs_on (turns.Run thread) (turn_of stepped.now) }
{
    match *stepped {
        StepResult::Runs(next) => next == thread,
        StepResult::Computes(next) => next == thread,
        _ => false,
    }
}

/// Tells what a step or a call gave before which these were the groups, and answers the group of the thread that runs after it, 0
/// if none does. An error is the hook's: after one to an exit or an enter the rest isn't told, and no group is forgotten.
#[inline(never)]
pub(crate) fn tell_all<G: TaskGroupHook>(
    core: &mut TaskCore,
    listeners: &mut Listeners<G>,
    asked: &GroupsBefore,
) -> Result<u64, HookError>
    ensures running { IfOk result (λ running. running ≡ current_group core.new) }
    ensures told { TellsOut asked.now result core.old core.new listeners.old listeners.new }
{
    let running = group_now(core);
    tell_moves(listeners, asked, running)?;
    finish_ended(core, listeners)?;
    Ok(group_now(core))
}

// Tells the notices if there is no hook. It is a function of its own, as few steps give more than a notice.
#[cold]
#[inline(never)]
fn tell_unhooked<G: TaskGroupHook>(
    core: &mut TaskCore,
    listeners: &mut Listeners<G>,
    asked: GroupsBefore,
) -> u64
    requires unhooked { is_some listeners.old.hook ≡ false }
    ensures running { result ≡ current_group core.new }
    ensures told { TellsWhole asked core.old core.new listeners.old listeners.new }
    ensures unhooked { is_some listeners.new.hook ≡ false }
{
    let Ok(running) = tell_all(core, listeners, &asked) else {
        unreachable!()
    };
    running
}

// Tells what a step gave after which a thread of the group `after` runs, at once where it finished no group, as most don't. There
// is no hook.
#[inline(always)]
fn tell_step<G: TaskGroupHook>(
    core: &mut TaskCore,
    listeners: &mut Listeners<G>,
    asked: GroupsBefore,
    after: u64,
) -> u64
    requires after { after ≡ current_group core.old }
    requires unhooked { is_some listeners.old.hook ≡ false }
    ensures running { result ≡ current_group core.new }
    ensures told { TellsWhole asked core.old core.new listeners.old listeners.new }
    ensures unhooked { is_some listeners.new.hook ≡ false }
{
    if !core.has_ended() && tell_at_once(listeners, &asked, after) {
        return after;
    }
    tell_unhooked(core, listeners, asked)
}

/// Tells what a step gave before which no thread ran, and answers the group of the thread that runs after it, 0 if none does.
/// `worked` is the group of the work that was worked on. An error is the hook's; after it the rest isn't told.
#[inline(always)]
pub(crate) fn tell_work<G: TaskGroupHook>(
    core: &mut TaskCore,
    listeners: &mut Listeners<G>,
    worked: Option<u64>,
) -> Result<u64, HookError>
    requires { RunnerThere core.old }
    ensures running { IfOk result (λ running. running ≡ current_group core.new) }
    ensures told { TellsOut (groups_before_work worked) result core.old core.new listeners.old listeners.new }
{
    let asked = GroupsBefore { running: 0, worked };
    if listeners.is_hooked() {
        return tell_all(core, listeners, &asked);
    }
    let after = runner_group(core);
    Ok(tell_step(core, listeners, asked, after))
}

/// Tells the groups the notices of a poll of a work, after which no thread runs.
#[inline(always)]
pub(crate) fn tell_poll<G: TaskGroupHook>(
    core: &mut TaskCore,
    listeners: &mut Listeners<G>,
    worked: Option<u64>,
) -> Result<u64, HookError>
    requires { running_of core.old ≡ None }
    ensures running { IfOk result (λ running. running ≡ current_group core.new) }
    ensures told { TellsOut (groups_before_work worked) result core.old core.new listeners.old listeners.new }
{
    let asked = GroupsBefore { running: 0, worked };
    if listeners.is_hooked() {
        return tell_all(core, listeners, &asked);
    }
    Ok(tell_step(core, listeners, asked, 0))
}

// The group of the thread that runs after a step of this thread, which is of the group `running`: one that runs on stays in it.
#[inline(always)]
fn group_after(core: &TaskCore, thread: u64, stepped: &StepResult, running: u64) -> u64
    requires there { RunnerThere core.now }
    requires stays { runs_on (turns.Run thread) (turn_of stepped.now) ≡ true → current_group core.now ≡ running }
    ensures { result ≡ current_group core.now }
{
    if goes_on(thread, stepped) {
        return running;
    }
    runner_group(core)
}

/// Tells what a step of this thread gave, which is of the group `running`, and answers the group of the thread that runs after it,
/// 0 if none does. An error is the hook's; after it the rest isn't told.
#[inline(always)]
pub(crate) fn tell_run<G: TaskGroupHook>(
    core: &mut TaskCore,
    listeners: &mut Listeners<G>,
    thread: u64,
    stepped: &StepResult,
    running: u64,
) -> Result<u64, HookError>
    requires there { RunnerThere core.old }
    requires stays { runs_on (turns.Run thread) (turn_of stepped.now) ≡ true → current_group core.old ≡ running }
    ensures running { IfOk result (λ running. running ≡ current_group core.new) }
    ensures told { TellsOut (groups_before_run running) result core.old core.new listeners.old listeners.new }
{
    let asked = GroupsBefore {
        running,
        worked: None,
    };
    if listeners.is_hooked() {
        return tell_all(core, listeners, &asked);
    }
    let after = group_after(core, thread, stepped, running);
    Ok(tell_step(core, listeners, asked, after))
}
