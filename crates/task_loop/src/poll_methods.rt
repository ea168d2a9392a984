//! Polls of a run: it goes on until it yields, so that a host can do other things in between.
ghost use Rattle.std.specs.Prelude.{◌≡◌};
ghost use Rattle.task_loop.specs.HasRun.{Keeps, MayRun, PollGives, at};
ghost use Rattle.task_loop.specs.RunPolls.{stop_answer};

use crate::main_task::MainTask;
use crate::run::{Halt, RunConcurrent, Stop};
use crate::trace::Trace;
use machine_data::{Component, Outcome, Trap};
use ops_calls::TaskError;
use ops_turns::StepResult;
use run_trace::Polled;
use task_group::TaskGroupHook;
use task_store::{AccessorTask, FromHost, Store};

/// What a poll of a run has resulted in, where the run has neither trapped nor failed.
#[derive(Clone, Copy)]
pub enum RunPoll {
    /// Main has answered this.
    Done(u64),
    /// The run goes on at the next poll.
    Yielded,
    /// A turn has ended in which live works were polled, and nothing was queued.
    Rest,
    /// Nothing can go on, and that is no deadlock.
    Idle,
}

// What a poll answers whose turns stop at this.
fn answer_of(stop: Stop) -> Result<RunPoll, TaskError>
    ensures { result ≡ stop_answer stop }
{
    match stop {
        Stop::Ends(Outcome::Done(value)) => Ok(RunPoll::Done(value)),
        Stop::Ends(Outcome::Trap(trap)) => Err(TaskError::Trap(trap)),
        Stop::Ends(Outcome::Deadlock(trap)) => Err(TaskError::Trap(trap)),
        Stop::Ends(Outcome::HostFailed(work)) => Err(TaskError::HostFailed(work)),
        Stop::Ends(Outcome::Idle) => Ok(RunPoll::Idle),
        Stop::Ends(Outcome::OutOfSteps) => Ok(RunPoll::Yielded),
        Stop::Rests => Ok(RunPoll::Rest),
        Stop::Yields => Ok(RunPoll::Yielded),
    }
}

impl RunConcurrent {
    /// Goes on with the run as `drive` does, up to the first of these places: where main has answered, the answer; after a turn
    /// that rests; where nothing can go on, and that is no deadlock; where the run has trapped, is a deadlock or a host has failed,
    /// as an error; and where it yields: before a low entry is taken, before an entry is taken where 128 were since it last
    /// yielded, and where it has added `steps` labels. After the first two of these the next poll begins with the entry that is next
    /// then. Entries that `drive` took count too.
    ///
    /// What is asked of the store and of main is as for `drive`; and so is what is said if it is out of memory, and what is told of
    /// groups. Where the hook that is told of them answers an error, the poll answers trap 22, as `drive` does, and leaves the
    /// same.
    pub fn poll<T, H: AccessorTask<T> + FromHost, G: TaskGroupHook, M: MainTask<T, H, G>>(
        &mut self,
        component: &Component,
        store: &mut Store<T, H, G>,
        main: &mut M,
        steps: u32,
        trace: &mut Trace,
    ) -> Result<RunPoll, TaskError>
        requires may { MayRun M.says H.course component.now (at self.old main.old store.old trace.old) }
        ensures keeps { Keeps M.says (at self.old main.old store.old trace.old) (at self.new main.new store.new trace.new) }
        ensures polls { PollGives M.says H.course component.now G.listens steps result
            self.old main.old store.old trace.old self.new main.new store.new trace.new }
    {
        // read so that the proof knows the invariant of `store`
        let _hooked = store.listeners.is_hooked();
        match self.go_on::<Polled, T, H, G, M>(component, store, main, steps, &mut trace.labels) {
            Ok(stop) => return answer_of(stop),
            Err(Halt::NoMemory) => {
                store.set_trapped();
                return Err(TaskError::NoMemory);
            }
            Err(Halt::HookFailed) => {
                store.set_trapped();
                self.last = StepResult::Over;
                return Err(TaskError::Trap(Trap::HookFailed));
            }
        }
    }
}
