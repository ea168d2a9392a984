//! Waitable sets, as an instance's calls change them.
ghost use Rattle.std.specs.Prelude.{◌≡◌, ◌<◌, ◌^◌};
ghost use Rattle.ops_calls.specs.OpAnswers.{at_once, event_answered, nothing_answered, number_answered};
ghost use Rattle.ops_calls.specs.HostOps.{MayDoHostOp, IsRunningIn};
ghost use Rattle.ops_turns.specs.Turn.{given};
ghost use Rattle.task_loop.specs.InstanceCalls.{DoesHostOp, drop_set_op, join_op, may_pause, new_set_op, poll_set_op, wait_set_op};

use crate::call_tells::{asked, tell_call};
use crate::instance::Instance;
use machine_data::{Component, Op, Operand, SetOp};
use ops_calls::{Step, TaskError, begin_event, host_op_event, host_op_nothing, host_op_number};
use task_group::TaskGroupHook;
use task_store::Store;

impl Instance {
    /// Makes a new set of the instance, and answers its handle. Refused with trap 18 where its entry doesn't fit into the table, and
    /// else with trap 17 if no handle may be given.
    pub fn waitable_set_new<T, H, G: TaskGroupHook>(
        self,
        component: &Component,
        store: &mut Store<T, H, G>,
        caller: u32,
    ) -> Result<u32, TaskError>
        requires running { IsRunningIn component.now store.old.state }
        requires few { given store.old.state.core < 2 ^ 61 }
        requires asks { MayDoHostOp self.index store.old.state }
        requires caller { caller ≡ self.index }
        ensures does { DoesHostOp G.listens component.now new_set_op at_once number_answered store.old result store.new }
    {
        // only the contract speaks of `caller`
        let _caller = caller;
        let before = asked(&store.state);
        let answer = host_op_number(component, &mut store.state, Op::Set(SetOp::New { to: 0 }));
        tell_call(&mut store.state, &mut store.listeners, &before, answer)
    }

    /// Removes the set and its handle. Refused with trap 16 if the handle names no set, with trap 8 if a thread waits on it or has
    /// an entry for it, and with trap 25 if a member is left, in this order.
    pub fn waitable_set_drop<T, H, G: TaskGroupHook>(
        self,
        component: &Component,
        store: &mut Store<T, H, G>,
        caller: u32,
        set: u32,
    ) -> Result<(), TaskError>
        requires running { IsRunningIn component.now store.old.state }
        requires asks { MayDoHostOp self.index store.old.state }
        requires caller { caller ≡ self.index }
        ensures does { DoesHostOp G.listens component.now (drop_set_op set) at_once nothing_answered store.old result store.new }
    {
        // only the contract speaks of `caller`
        let _caller = caller;
        let before = asked(&store.state);
        let answer = host_op_nothing(
            component,
            &mut store.state,
            Op::Set(SetOp::Drop {
                set: Operand::Number(u64::from(set)),
            }),
        );
        tell_call(&mut store.state, &mut store.listeners, &before, answer)
    }

    /// Takes the task event, else that of a ready member of the set (the least one, as `first_ready` of `core_places` picks it), and
    /// answers its code, handle and result; 0, 0, 0 if nothing is there. Refused with trap 16 if the handle names no set.
    pub fn waitable_set_poll<T, H, G: TaskGroupHook>(
        self,
        component: &Component,
        store: &mut Store<T, H, G>,
        caller: u32,
        set: u32,
    ) -> Result<(u32, u32, u32), TaskError>
        requires running { IsRunningIn component.now store.old.state }
        requires asks { MayDoHostOp self.index store.old.state }
        requires caller { caller ≡ self.index }
        ensures does { DoesHostOp G.listens component.now (poll_set_op set) at_once event_answered store.old result store.new }
    {
        // only the contract speaks of `caller`
        let _caller = caller;
        let before = asked(&store.state);
        let answer = host_op_event(
            component,
            &mut store.state,
            Op::Set(SetOp::Poll {
                to: 0,
                set: Operand::Number(u64::from(set)),
            }),
        );
        tell_call(&mut store.state, &mut store.listeners, &before, answer)
    }

    /// Takes an event of the set as `waitable_set_poll` does, but if there is none the strand stops until one comes; `go_on` takes
    /// it further then. Refused with trap 16, and where the strand would have to stop and may not, with trap 9.
    pub fn waitable_set_wait<T, H, G: TaskGroupHook>(
        self,
        component: &Component,
        store: &mut Store<T, H, G>,
        caller: u32,
        set: u32,
    ) -> Result<Step<(u32, u32, u32)>, TaskError>
        requires running { IsRunningIn component.now store.old.state }
        requires asks { MayDoHostOp self.index store.old.state }
        requires caller { caller ≡ self.index }
        ensures does { DoesHostOp G.listens component.now (wait_set_op set) may_pause event_answered store.old result store.new }
    {
        // only the contract speaks of `caller`
        let _caller = caller;
        let before = asked(&store.state);
        let answer = begin_event(
            component,
            &mut store.state,
            Op::Set(SetOp::Wait {
                to: 0,
                set: Operand::Number(u64::from(set)),
            }),
        );
        tell_call(&mut store.state, &mut store.listeners, &before, answer)
    }

    /// Takes the waitable out of its set and joins it to the other one, or to none if that is 0; if it has an event, a waiter of
    /// the new set is woken. Refused with trap 16 where one of the two names nothing, and with trap 7 if the waitable is in the set
    /// of a sync call.
    pub fn waitable_join<T, H, G: TaskGroupHook>(
        self,
        component: &Component,
        store: &mut Store<T, H, G>,
        caller: u32,
        waitable: u32,
        set: u32,
    ) -> Result<(), TaskError>
        requires running { IsRunningIn component.now store.old.state }
        requires asks { MayDoHostOp self.index store.old.state }
        requires caller { caller ≡ self.index }
        ensures does { DoesHostOp G.listens component.now (join_op waitable set) at_once nothing_answered store.old result store.new }
    {
        // only the contract speaks of `caller`
        let _caller = caller;
        let before = asked(&store.state);
        let answer = host_op_nothing(
            component,
            &mut store.state,
            Op::Set(SetOp::Join {
                waitable: Operand::Number(u64::from(waitable)),
                set: Operand::Number(u64::from(set)),
            }),
        );
        tell_call(&mut store.state, &mut store.listeners, &before, answer)
    }
}
