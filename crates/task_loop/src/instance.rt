ghost use Rattle.std.specs.Prelude.{◌≡◌, IfSome, IsSome};
ghost use Rattle.ops_calls.specs.OpAnswers.{at_once, nothing_answered};
ghost use Rattle.ops_calls.specs.HostOps.{MayDoHostOp, IsRunningIn};
ghost use Rattle.ops_calls.specs.MainCalls.{is_own_type};
ghost use Rattle.ops_calls.specs.Intrinsics.{pressure_op};
ghost use Rattle.machine_data.specs.Read.{instance_of};
ghost use Rattle.ops_turns.specs.WellFormed.{IsWellFormed};
ghost use Rattle.ops_turns.specs.Turn.{CoreInOrder, running_of};
ghost use Rattle.task_loop.specs.InstanceCalls.{DoesCancel, DoesHostOp, DoesReturn};

use crate::call_tells::{asked, tell_call, tell_refused};
use core_primitives::{ThreadPrimitives, View};
use machine_data::{Component, Op, TaskOp, Trap, Turn};
use ops_calls::{TaskError, host_op_nothing, is_own_type, pressure_op, task_return};
use task_group::TaskGroupHook;
use task_store::{Store, cancel_holds_borrows, return_holds_borrows};

/// Names an instance by its place, from 0.
#[derive(Clone, Copy, PartialEq, Eq)]
pub struct Instance {
    pub index: u32,
}

impl Instance {
    /// Does `task.return`: the task of the current thread, which is of this instance, ends as returned with the value, and the
    /// thread goes on after its op. The type, the encoding and the memory are those of the lifted function where all three are 0.
    /// Refused with trap 1 exactly where the task has ended, and else with trap 3 where they aren't 0 or the function isn't
    /// async-lifted, and else with trap 19 if the task still holds borrows (`call_context` of the state). Nothing is changed
    /// then.
    pub fn task_return<T, H, G: TaskGroupHook>(
        self,
        component: &Component,
        store: &mut Store<T, H, G>,
        ty: u32,
        encoding: u32,
        memory: u32,
        value: u64,
    ) -> Result<(), TaskError>
        requires covered { IsWellFormed component.now }
        requires runs { IsSome (running_of store.old.state) }
        requires order { IfSome (running_of store.old.state) (λ n. CoreInOrder component.now (Turn.Run n) store.old.state.core) }
        requires instance { IfSome (running_of store.old.state) (λ n. instance_of n store.old.state.core ≡ self.index) }
        ensures does { DoesReturn G.listens (is_own_type ty encoding memory) value store.old result store.new }
    {
        let Some(thread) = store.state.current() else {
            unreachable!()
        };
        let own_type = is_own_type(ty, encoding, memory);
        let before = asked(&store.state);
        if return_holds_borrows(&store.state, thread, own_type) {
            let why = TaskError::Trap(Trap::ScopeExit);
            return tell_refused(&mut store.state, &mut store.listeners, &before, why);
        }
        let number = store.state.number(thread);
        let answer = task_return(
            &mut store.state,
            component,
            number,
            ty,
            encoding,
            memory,
            value,
        );
        tell_call(&mut store.state, &mut store.listeners, &before, answer)
    }

    /// Ends the task as cancelled, once a cancel request was delivered to it. Refused with trap 2 if none was, else with trap 1 if
    /// the task has ended, and else with trap 19 if it still holds borrows. Nothing is changed then.
    pub fn task_cancel<T, H, G: TaskGroupHook>(
        self,
        component: &Component,
        store: &mut Store<T, H, G>,
    ) -> Result<(), TaskError>
        requires running { IsRunningIn component.now store.old.state }
        requires asks { MayDoHostOp self.index store.old.state }
        ensures does { DoesCancel G.listens component.now store.old result store.new }
    {
        let Some(thread) = store.state.current() else {
            unreachable!()
        };
        let before = asked(&store.state);
        if cancel_holds_borrows(&store.state, thread) {
            let why = TaskError::Trap(Trap::ScopeExit);
            return tell_refused(&mut store.state, &mut store.listeners, &before, why);
        }
        let answer = host_op_nothing(component, &mut store.state, Op::Task(TaskOp::TaskCancel));
        tell_call(&mut store.state, &mut store.listeners, &before, answer)
    }

    /// Raises or lowers the count of the instance's backpressure; falling to 0 it releases the held threads that are admitted then.
    /// Refused with trap 10 if it would leave 0 to 65535.
    pub fn backpressure_modify<T, H, G: TaskGroupHook>(
        self,
        component: &Component,
        store: &mut Store<T, H, G>,
        caller: u32,
        up: bool,
    ) -> Result<(), TaskError>
        requires running { IsRunningIn component.now store.old.state }
        requires asks { MayDoHostOp self.index store.old.state }
        requires caller { caller ≡ self.index }
        ensures does { DoesHostOp G.listens component.now (pressure_op up) at_once nothing_answered store.old result store.new }
    {
        // only the contract speaks of `caller`
        let _caller = caller;
        let before = asked(&store.state);
        let answer = host_op_nothing(component, &mut store.state, pressure_op(up));
        tell_call(&mut store.state, &mut store.listeners, &before, answer)
    }
}
