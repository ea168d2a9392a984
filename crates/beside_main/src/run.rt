//! A run of a scenario, one step at a time: what its aborters have done is found at the cells of its spawns.
ghost use Rattle.std.specs.List.{last_or};
ghost use Rattle.std.specs.Prelude.{◌≡◌, ◌≢◌, ◌+◌, ◌<◌, ◌≤◌, IfOk, None, OnOk, false, true};
ghost use Rattle.beside_main.specs.Calls.{IsOpenLast, NotesOver, ends_poll, ends_work};
ghost use Rattle.beside_main.specs.Course.{Able, KeepsAsked, Took};
ghost use Rattle.machine_data.specs.declared.outcome.Outcome.TheVariants.{OutOfSteps};

use crate::asked::Cells;
use crate::cells::finish;
use crate::main_task::GatedMain;
use crate::spawns::note_spawn;
use beside_works::Gate;
use machine_data::{Component, Label, LoopLabel, NoMemory};
use task_loop::{Outcome, RunConcurrent, Trace};
use task_store::{ScriptedHost, Store};

/// A run of a scenario beside aborters: the run and its store, main, the trace, and the cells of its spawn lines.
#[derive(Drop)]
pub struct BesideRun<'a, G> {
    pub(crate) run: RunConcurrent,
    pub(crate) store: Store<(), ScriptedHost>,
    pub(crate) main: GatedMain<'a, G>,
    pub(crate) trace: Trace,
    pub(crate) cells: Cells,
    // How many steps are left.
    pub(crate) left: u32,
}

// Whether the run goes on after that.
fn is_open(outcome: Outcome) -> bool
    ensures open { result ≡ true → outcome ≡ OutOfSteps }
    ensures over { result ≡ false → outcome ≢ OutOfSteps }
{
    match outcome {
        Outcome::OutOfSteps => true,
        Outcome::Done(_) => false,
        Outcome::Trap(_) => false,
        Outcome::HostFailed(_) => false,
        Outcome::Deadlock(_) => false,
        Outcome::Idle => false,
    }
}

// Whether a label of a poll says that the work has ended.
fn ends_poll(label: LoopLabel) -> bool
    ensures { result ≡ ends_poll label }
{
    match label {
        LoopLabel::FutureEnds(_) => true,
        LoopLabel::FutureAborted(_) => true,
        LoopLabel::FuturePends(_) => false,
        LoopLabel::FutureFails(_) => false,
        LoopLabel::MainPends => false,
        LoopLabel::Rest => false,
        LoopLabel::Deadlock(_) => false,
        LoopLabel::Trap(_, _) => false,
    }
}

// Whether this label, if there is one, says that a work that was polled has ended.
fn ends_work(label: Option<Label>) -> bool
    ensures { result ≡ ends_work label }
{
    let Some(label) = label else {
        return false;
    };
    match label {
        Label::Loop(label) => ends_poll(label),
        Label::Main(_) => false,
        Label::Take(_) => false,
        Label::Data(_) => false,
        Label::Task(_) => false,
        Label::Set(_) => false,
        Label::Call(_) => false,
        Label::Thread(_) => false,
        Label::RetWakes(_, _, _) => false,
        Label::CallSyncPolls(_, _, _) => false,
    }
}

impl<'a, G: Gate> BesideRun<'a, G> {
    // Says at its cell that the spawn that was polled in this step is over, if its label says so.
    pub(crate) fn note_over(&mut self) -> Result<(), NoMemory>
        requires { IsOpenLast self.old.cells.polled self.old.cells.list.items }
        ensures cells { KeepsAsked self.old.cells self.new.cells }
        ensures calls { OnOk result (NotesOver (ends_work (last_or None self.old.trace)) self.old.cells self.new.cells) }
        ensures rest { self.new ≡ record self.old { cells = self.new.cells } }
    {
        let Some(place) = self.cells.polled else {
            return Ok(());
        };
        self.cells.polled = None;
        if ends_work(self.trace.last()) {
            return finish(&mut self.cells.list, place);
        }
        Ok(())
    }

    // Takes a step, and answers what the run has resulted in: `OutOfSteps` where it goes on.
    fn step(&mut self, component: &Component) -> Result<Outcome, NoMemory>
        requires able { Able component.now self.old }
        requires left { 0 < self.old.left }
        ensures took { IfOk result (λ o. Took component.now o self.old self.new) }
        ensures left { OnOk result (self.new.left + 1 ≡ self.old.left) }
    {
        self.left -= 1;
        let outcome = self.run.step_beside(
            component,
            &mut self.store,
            &mut self.main,
            &mut self.cells,
            &mut self.trace,
        )?;
        note_spawn(&mut self.cells.spawns, &self.main.script)?;
        self.note_over()?;
        Ok(outcome)
    }

    // Goes on until the run is over, until no step is left, or until nothing can go on, and answers what it has resulted in.
    pub(crate) fn go_on(&mut self, component: &Component) -> Result<Outcome, NoMemory>
        requires able { Able component.now self.old }
        ensures took { IfOk result (λ o. Took component.now o self.old self.new) }
        ensures left { IfOk result (λ o. o ≡ OutOfSteps → self.new.left ≡ 0) }
    {
        'steps: while self.left > 0 {
            let outcome = self.step(component)?;
            if !is_open(outcome) {
                return Ok(outcome);
            }
        }
        self.run.drive(
            component,
            &mut self.store,
            &mut self.main,
            0,
            &mut self.trace,
        )
    }
}
