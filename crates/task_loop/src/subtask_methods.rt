//! Calls of other instances and their subtasks, as an instance's calls begin, cancel and drop them.
ghost use Rattle.std.specs.Prelude.{◌≡◌, ◌<◌, IfSome, IsSome, false, true, ◌^◌};
ghost use Rattle.ops_calls.specs.OpAnswers.{at_once, nothing_answered, number_answered};
ghost use Rattle.ops_calls.specs.HostOps.{MayDoHostOp, IsRunningIn};
ghost use Rattle.ops_calls.specs.Directs.{IsDirect};
ghost use Rattle.ops_calls.specs.Intrinsics.{cancel_op};
ghost use Rattle.ops_calls.specs.Prepared.{CanStart};
ghost use Rattle.task_loop.specs.LoopCalls.{callee_of};
ghost use Rattle.machine_data.specs.Read.{is_async_lifted};
ghost use Rattle.machine_rules.specs.Scripts.{export_kind};
ghost use Rattle.ops_turns.specs.Turn.{running_of, given};
ghost use Rattle.task_loop.specs.InstanceCalls.{BeginsWhole, CanCall, DoesHostOp, EntersCall, ExitsCall, PreparesCall, StartsCall, drop_subtask_op, may_pause};

use crate::call::Func;
use crate::call_tells::{asked, tell_call, tell_refused};
use crate::instance::Instance;
use core_primitives::View;
use machine_data::{CallOp, Component, Op, Operand, Trap};
use ops_calls::{
    QualifiedThreadId, Step, TaskError, begin_number, cancel_op, enter_call, exit_call,
    host_op_nothing, prepare_call, start_prepared,
};
use task_group::TaskGroupHook;
use task_store::{Store, exit_holds_borrows};

impl Instance {
    /// Asks a subtask to end, and answers its end: 2 or 4, 3 for a call whose start was withdrawn, or 4294967295 if it hasn't ended
    /// and `async_` is set; else the strand stops until the end comes. Where the callee is to go on first, the strand stops, too.
    /// Refused with trap 16, 7, 5 and 9 as `cancel` and `cancel_sync` are.
    pub fn subtask_cancel<T, H, G: TaskGroupHook>(
        self,
        component: &Component,
        store: &mut Store<T, H, G>,
        caller: u32,
        async_: bool,
        subtask: u32,
    ) -> Result<Step<u32>, TaskError>
        requires running { IsRunningIn component.now store.old.state }
        requires asks { MayDoHostOp self.index store.old.state }
        requires caller { caller ≡ self.index }
        ensures does { DoesHostOp G.listens component.now (cancel_op async_ subtask) may_pause number_answered store.old result store.new }
    {
        // only the contract speaks of `caller`
        let _caller = caller;
        let before = asked(&store.state);
        let answer = begin_number(component, &mut store.state, cancel_op(async_, subtask));
        tell_call(&mut store.state, &mut store.listeners, &before, answer)
    }

    /// Takes the subtask out of its set, and frees its handle. Refused with trap 16 if the handle names no subtask, with trap 7 if
    /// it is in the set of a sync call, and with trap 6 if it hasn't ended or its end wasn't taken, in this order. A guest has to take
    /// the end first, as only then it knows that nobody uses what it lent to the call.
    pub fn subtask_drop<T, H, G: TaskGroupHook>(
        self,
        component: &Component,
        store: &mut Store<T, H, G>,
        caller: u32,
        subtask: u32,
    ) -> Result<(), TaskError>
        requires running { IsRunningIn component.now store.old.state }
        requires asks { MayDoHostOp self.index store.old.state }
        requires caller { caller ≡ self.index }
        ensures does { DoesHostOp G.listens component.now (drop_subtask_op subtask) at_once nothing_answered store.old result store.new }
    {
        // only the contract speaks of `caller`
        let _caller = caller;
        let op = Op::Call(CallOp::Drop {
            subtask: Operand::Number(u64::from(subtask)),
        });
        let before = asked(&store.state);
        let answer = host_op_nothing(component, &mut store.state, op);
        tell_call(&mut store.state, &mut store.listeners, &before, answer)
    }

    /// Begins a direct call: the callee, of a sync or blocking export of an earlier instance, is made with as many
    /// words as it takes, and its thread, which is answered, runs on top of the current one. Refused with trap 18 where its three
    /// entries don't fit into the table, and else with trap 17 if no handle may be given. Such a callee can't pause, so it needs no
    /// turn of its own.
    pub fn enter_guest_sync_call<T, H, G: TaskGroupHook>(
        self,
        component: &Component,
        store: &mut Store<T, H, G>,
        callee: Func,
        params: &[u64],
    ) -> Result<QualifiedThreadId, TaskError>
        requires running { IsRunningIn component.now store.old.state }
        requires few { given store.old.state.core < 2 ^ 61 }
        requires asks { MayDoHostOp self.index store.old.state }
        requires callee { CanCall component.now self.index (callee_of callee) params.now }
        requires direct { is_async_lifted (export_kind component.now (callee_of callee)) ≡ false }
        ensures does { EntersCall G.listens component.now (callee_of callee) params.now store.old result store.new }
    {
        let callee = callee.callee();
        let before = asked(&store.state);
        let answer = enter_call(component, &mut store.state, callee, params);
        tell_call(&mut store.state, &mut store.listeners, &before, answer)
    }

    /// Does a direct call's second half, by its first thread: its task ends as returned with the value, the thread ends, and the
    /// one under it runs; the caller's op is under way, and `go_on` takes it to its answer. Refused with trap 9 if the export is
    /// blocking and a check of its instance fails, and else with trap 19 if the task still holds borrows (`call_context` of the
    /// state). Nothing is changed then.
    pub fn exit_guest_sync_call<T, H, G: TaskGroupHook>(
        self,
        component: &Component,
        store: &mut Store<T, H, G>,
        value: u64,
    ) -> Result<(), TaskError>
        requires running { IsRunningIn component.now store.old.state }
        requires asks { MayDoHostOp self.index store.old.state }
        requires direct { IfSome (running_of store.old.state) (λ n. IsDirect n store.old.state.core) }
        ensures does { ExitsCall G.listens component.now value store.old result store.new }
    {
        let Some(thread) = store.state.current() else {
            unreachable!()
        };
        let before = asked(&store.state);
        if exit_holds_borrows(&store.state, thread) {
            let why = TaskError::Trap(Trap::ScopeExit);
            return tell_refused(&mut store.state, &mut store.listeners, &before, why);
        }
        let answer = exit_call(component, &mut store.state, value);
        tell_call(&mut store.state, &mut store.listeners, &before, answer)
    }

    /// Prepares a call of an export of an earlier instance, which `start_call` starts. In between its caller may still do what the call
    /// needs. It is made with as many words as the callee takes, and its
    /// first thread, which is New, is answered. The result of an async caller's call goes to the register, 0 to 15. Refused with
    /// trap 18 exactly where its three entries don't fit into the table. Where it is refused, or it is out of memory, nothing is
    /// changed.
    pub fn prepare_call<T, H, G: TaskGroupHook>(
        self,
        component: &Component,
        store: &mut Store<T, H, G>,
        callee: Func,
        params: &[u64],
        register: u8,
        async_caller: bool,
    ) -> Result<QualifiedThreadId, TaskError>
        requires running { IsRunningIn component.now store.old.state }
        requires few { given store.old.state.core < 2 ^ 61 }
        requires asks { MayDoHostOp self.index store.old.state }
        requires callee { CanCall component.now self.index (callee_of callee) params.now }
        requires register { register < 16 }
        requires queued { async_caller ≡ false → is_async_lifted (export_kind component.now (callee_of callee)) ≡ true }
        ensures does { PreparesCall G.listens component.now (callee_of callee) params.now async_caller register store.old result store.new }
    {
        let callee = callee.callee();
        let before = asked(&store.state);
        let answer = prepare_call(
            component,
            &mut store.state,
            callee,
            params,
            register,
            async_caller,
        );
        tell_call(&mut store.state, &mut store.listeners, &before, answer)
    }

    /// Starts a call that the current thread has prepared: its start becomes the switch entry, and the
    /// current thread goes behind the callee's, as `call` does where it begins. The strand has stopped, which is answered; `go_on`
    /// takes the call further once the current thread is resumed.
    pub fn start_call<T, H, G: TaskGroupHook>(
        self,
        component: &Component,
        store: &mut Store<T, H, G>,
        callee: QualifiedThreadId,
    ) -> Result<Step<u64>, TaskError>
        requires asks { MayDoHostOp self.index store.old.state }
        requires runs { IsSome (running_of store.old.state) }
        requires prepared { IfSome (running_of store.old.state) (λ n. CanStart n callee store.old.state) }
        ensures does { StartsCall G.listens callee store.old result store.new }
        ensures whole { BeginsWhole callee store.old.state store.new.state }
    {
        // only the contract speaks of `component`
        let _component = component;
        let before = asked(&store.state);
        let answer = start_prepared(&mut store.state, callee);
        tell_call(&mut store.state, &mut store.listeners, &before, answer)
    }
}
