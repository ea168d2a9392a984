ghost use Rattle.std.specs.Prelude.{◌≡◌};
ghost use Rattle.task_loop.specs.HasRun.{MayStep, StepsTo};
ghost use Rattle.task_loop.specs.Says.{Says};
ghost use Rattle.task_loop.specs.Constants.{constants};
ghost use Rattle.ops_turns.specs.Later.{WorksLast};
ghost use Rattle.core_primitives.specs.StateView.{StateView};

use machine_data::Component;
use ops_calls::TaskError;
use ops_turns::MainStep;
use task_group::TaskGroupHook;
use task_store::{Access, HostWork, Whole};

/// The host's own task, which starts calls and waits for them. It is a script, or any other
/// program: then its part says so, and its labels need only be lawful in the store.
pub trait MainTask<T, H: HostWork, G: TaskGroupHook> {
    // What it says of itself: its part of the machine's state, its script, if it is one, what it needs of the component, what it knows of
    // the store, and what it says of a step. Of a whole run of steps that is said by `drive`.
    ghost says: { Says Self };

    /// Takes the next op, in a store in order, of a component that suits main, in which no thread runs and fewer than 2^61 - 4
    /// numbers were given. The label of an op that is done is lawful, and store and main are as it leaves them; else they are as
    /// before. Whether a run is active on the store, whether it is concurrent and its number stay. It answers no error but lack of
    /// memory and trap 22. After lack of memory who listens to groups was told some notices, or none, and nothing else is said of main
    /// and the store. Trap 22 is answered if the hook that is told of groups answered an error to a start: then main is as before, and
    /// so is the store, but trapped. An error of the hook is passed over in a refused start alone.
    fn step(
        &mut self,
        access: &mut Access<'_, T, Whole, H, G>,
        component: &Component,
    ) -> Result<MainStep, TaskError>
        requires may { MayStep says H.course component.now self.old access.old.store.now }
        ensures same { access.new.store.ghost_name ≡ access.old.store.ghost_name }
        ensures constants_stay { constants access.new.store.now ≡ constants access.old.store.now }
        ensures script { says.script self.new ≡ says.script self.old }
        ensures steps { StepsTo says H.course component.now result self.old access.old.store.now self.new access.new.store.now };

    // That is so whatever steps are made in the meantime.
    ghost stays: { (m : Self) (s t : StateView) → WorksLast s t → says.knows m s → says.knows m t };
}
