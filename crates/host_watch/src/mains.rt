//! Tests of the steps of a main.
ghost use Rattle.std.specs.Prelude.{◌≡◌, ◌↔◌, true};
ghost use Rattle.host_watch.specs.Watched.{IsShown, may_show, thread_shown, trapped_by, watched_says, work_shown};

use core_primitives::ResultPrimitives;
use machine_data::{Label, MainLabel};
use task_group::TaskGroupHook;
use task_loop::{Component, MainStep, MainTask, TaskError};
use task_store::{Access, HostWork, Whole};

/// A main whose steps are tested, in a run that isn't proved, against what the contract of a step says of its label.
#[derive(Drop)]
pub struct WatchedMain<M: Drop> {
    main: M,
}

impl<M: Drop> WatchedMain<M> {
    /// Makes a main that takes the steps of this one.
    pub fn new(main: M) -> Self
        ensures { result.main ≡ main }
    {
        WatchedMain { main }
    }

    /// Returns the main, as its steps have left it.
    pub fn into_main(self) -> M
        ensures { result ≡ self.main }
    {
        self.main
    }
}

// The thread that a step shows as its own.
fn thread_shown(step: &MainStep) -> Option<u64>
    ensures { result ≡ thread_shown step.now }
{
    match step {
        MainStep::Did(Label::Main(MainLabel::Start(_, thread))) => Some(*thread),
        _ => None,
    }
}

// The work that a step shows as its own.
fn work_shown(step: &MainStep) -> Option<u64>
    ensures { result ≡ work_shown step.now }
{
    match step {
        MainStep::Did(Label::Main(MainLabel::Spawn(_, work))) => Some(*work),
        _ => None,
    }
}

// Whether what is shown is the one that was made, or none was made.
fn is_shown(shown: Option<u64>, before: u64, after: u64) -> bool
    ensures { result ≡ true ↔ IsShown shown before after }
{
    match shown {
        Some(number) => number == after && before < after && after - before == 1,
        None => before == after,
    }
}

// The functions that test have the names of what they test, since an unproved run that stops says in which function it was.

// Tests that a start shows the thread that was made, and that no other step made one.
fn a_start_shows_its_thread(step: &MainStep, before: u64, after: u64)
    requires { IsShown (thread_shown step.now) before after }
{
    let is_right = is_shown(thread_shown(step), before, after);
    prove!(
        is_right,
        "a start shows the thread that was made, and no other step makes one"
    );
}

// Tests that a spawn shows the work that was made, and that no other step made one.
fn a_spawn_shows_its_work(step: &MainStep, before: u64, after: u64)
    requires { IsShown (work_shown step.now) before after }
{
    let is_right = is_shown(work_shown(step), before, after);
    prove!(
        is_right,
        "a spawn shows the work that was made, and no other step makes one"
    );
}

// Whether main may say so, by whether something was returned to it and whether some task was interesting.
fn may_show(step: &MainStep, returned: bool, interesting: bool) -> bool
    ensures { result ≡ may_show step.now returned interesting }
{
    match step {
        MainStep::Did(Label::Main(MainLabel::Finish(..))) => returned,
        MainStep::Did(Label::Main(MainLabel::Quiet)) => !interesting,
        _ => true,
    }
}

// Whether the store is trapped after the step, by whether it was before.
fn trapped_by(step: &MainStep, before: bool) -> bool
    ensures { result ≡ trapped_by step.now before }
{
    match step {
        MainStep::Did(Label::Main(MainLabel::StartRefused(..))) => true,
        _ => before,
    }
}

// Tests that some call had returned if a finish is shown, and that no task was interesting if `quiet` is.
fn a_finish_or_quiet_was_due(step: &MainStep, returned: bool, interesting: bool)
    requires { may_show step.now returned interesting ≡ true }
{
    let is_right = may_show(step, returned, interesting);
    prove!(
        is_right,
        "main finishes a call that has returned, and all is quiet if no task is interesting"
    );
}

// Tests that the store is trapped by a step if a refused start is shown, and else is trapped if it was before.
fn only_a_refused_start_traps(step: &MainStep, before: bool, after: bool)
    requires { after ≡ trapped_by step.now before }
{
    let is_right = after == trapped_by(step, before);
    prove!(
        is_right,
        "a start that was refused is shown as that, and no other step traps the store"
    );
}

impl<T, H: HostWork, G: TaskGroupHook, M: MainTask<T, H, G> + Drop> MainTask<T, H, G>
    for WatchedMain<M> {
    ghost says = { watched_says M.says };

    ghost stays = { λ main before after last known. M.stays main.main before after last known };

    fn step(
        &mut self,
        access: &mut Access<'_, T, Whole, H, G>,
        component: &Component,
    ) -> Result<MainStep, TaskError> {
        let before = access.store.state.made();
        let was_trapped = access.store.state.trapped();
        let returned = access.store.state.has_results();
        let interesting = access.store.state.has_interesting();
        match self.main.step(access, component) {
            Ok(step) => {
                let after = access.store.state.made();
                a_start_shows_its_thread(&step, before.threads, after.threads);
                a_spawn_shows_its_work(&step, before.works, after.works);
                a_finish_or_quiet_was_due(&step, returned, interesting);
                only_a_refused_start_traps(&step, was_trapped, access.store.state.trapped());
                Ok(step)
            }
            Err(error) => Err(error),
        }
    }
}
