//! One step of a run.
ghost use Rattle.std.specs.Prelude.{◌≡◌};
ghost use Rattle.task_loop.specs.HasRun.{Keeps, MayRun, at};
ghost use Rattle.task_loop.specs.SingleSteps.{StepGives};

use crate::main_task::MainTask;
use crate::run::RunConcurrent;
use crate::tells::group_now;
use crate::trace::Trace;
use machine_data::{Component, Trap, Turn};
use ops_calls::TaskError;
use ops_turns::{StepResult, turn_of};
use task_group::TaskGroupHook;
use task_store::{AccessorTask, FromHost, Store};

impl RunConcurrent {
    /// Makes one step of a run that isn't over, adds its label to the trace, and returns whose turn it is then; none if nothing can go
    /// on, and that is no deadlock. A caller that goes on so takes the steps that `drive` takes. The yield budget stays. Refused for
    /// lack of memory, where no label is added, and with trap 22 if the hook that is told of groups answers an error. Neither traps the
    /// store, though the step may be half made: its caller has to trap it.
    pub fn step<T, H: AccessorTask<T> + FromHost, G: TaskGroupHook, M: MainTask<T, H, G>>(
        &mut self,
        component: &Component,
        store: &mut Store<T, H, G>,
        main: &mut M,
        trace: &mut Trace,
    ) -> Result<Option<Turn>, TaskError>
        requires may { MayRun M.says H.course component.now (at self.old main.old store.old trace.old) }
        ensures keeps { Keeps M.says (at self.old main.old store.old trace.old) (at self.new main.new store.new trace.new) }
        ensures rest { self.new ≡ record self.old { last = self.new.last } }
        ensures stepped { StepGives M.says H.course component.now result
            (at self.old main.old store.old trace.old) (at self.new main.new store.new trace.new) }
    {
        let mut running = group_now(&store.state);
        let labels = &mut trace.labels;
        let stepped = self.turn(component, store, main, labels, &mut running);
        match stepped {
            StepResult::Nothing => Ok(None),
            StepResult::Full => Err(TaskError::NoMemory),
            StepResult::HookFailed => Err(TaskError::Trap(Trap::HookFailed)),
            _ => {
                self.last = stepped;
                let turn = turn_of(stepped);
                Ok(Some(turn))
            }
        }
    }
}
