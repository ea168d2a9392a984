//! Threads, as an instance's calls make, suspend and resume them.
ghost use Rattle.std.specs.Prelude.{◌≡◌, ◌<◌, ◌^◌};
ghost use Rattle.ops_calls.specs.OpAnswers.{at_once, nothing_answered, number_answered};
ghost use Rattle.ops_calls.specs.HostOps.{MayDoHostOp, HasPaused, IsRunningIn};
ghost use Rattle.ops_calls.specs.Intrinsics.{suspension_op};
ghost use Rattle.ops_turns.specs.Turn.{given};
ghost use Rattle.task_loop.specs.InstanceCalls.{DoesHostOp, GoesOn, ResumesThread, index_op, may_pause, new_thread_op};

use crate::call_tells::{asked, tell_call};
use crate::instance::Instance;
use machine_data::{Component, Op, Operand, ThreadOp};
use ops_calls::{
    Answer, ResumeThread, Step, SuspensionTarget, TaskError, begin_nothing, go_on, host_op_number,
    resume_thread, suspension_op,
};
use task_group::TaskGroupHook;
use task_store::Store;

impl Instance {
    /// Returns the handle of the running thread.
    pub fn thread_index<T, H, G: TaskGroupHook>(
        self,
        component: &Component,
        store: &mut Store<T, H, G>,
    ) -> Result<u32, TaskError>
        requires running { IsRunningIn component.now store.old.state }
        requires asks { MayDoHostOp self.index store.old.state }
        ensures does { DoesHostOp G.listens component.now index_op at_once number_answered store.old result store.new }
    {
        let before = asked(&store.state);
        let answer = host_op_number(
            component,
            &mut store.state,
            Op::Thread(ThreadOp::Index { to: 0 }),
        );
        tell_call(&mut store.state, &mut store.listeners, &before, answer)
    }

    /// Makes a further thread of the task, which isn't started, with the context in r0, and answers its handle. Refused with trap 13 if
    /// the slot has no line, with trap 14 if it is a bad one, with trap 18 where its two entries don't fit into the table, and with
    /// trap 17 if no handle may be given, in this order. A slot above 255 is as 255.
    pub fn thread_new_indirect<T, H, G: TaskGroupHook>(
        self,
        component: &Component,
        store: &mut Store<T, H, G>,
        caller: u32,
        slot: u32,
        context: u64,
    ) -> Result<u32, TaskError>
        requires running { IsRunningIn component.now store.old.state }
        requires few { given store.old.state.core < 2 ^ 61 }
        requires asks { MayDoHostOp self.index store.old.state }
        requires caller { caller ≡ self.index }
        ensures does { DoesHostOp G.listens component.now (new_thread_op slot context) at_once number_answered store.old result store.new }
    {
        // only the contract speaks of `caller`
        let _caller = caller;
        let before = asked(&store.state);
        let answer = host_op_number(
            component,
            &mut store.state,
            Op::Thread(ThreadOp::New {
                to: 0,
                slot: slot.min(255) as u8,
                context: Operand::Number(context),
            }),
        );
        tell_call(&mut store.state, &mut store.listeners, &before, answer)
    }

    /// Stops the strand: its thread is suspended, or where it yields it has a low entry. A target that is to be resumed becomes the
    /// switch entry; one to be promoted moves there, if it has yielded. Else a check comes first, and where it fails a suspension
    /// is refused with trap 9 and a yield is done at once. Refused with trap 16 if the target names no thread, and with trap 11 if
    /// it can't be resumed.
    pub fn suspension_intrinsic<T, H, G: TaskGroupHook>(
        self,
        component: &Component,
        store: &mut Store<T, H, G>,
        caller: u32,
        yielding: bool,
        target: SuspensionTarget,
    ) -> Result<Step<()>, TaskError>
        requires running { IsRunningIn component.now store.old.state }
        requires asks { MayDoHostOp self.index store.old.state }
        requires caller { caller ≡ self.index }
        ensures does { DoesHostOp G.listens component.now (suspension_op yielding target) may_pause nothing_answered store.old result store.new }
    {
        // only the contract speaks of `caller`
        let _caller = caller;
        let before = asked(&store.state);
        let answer = begin_nothing(component, &mut store.state, suspension_op(yielding, target));
        tell_call(&mut store.state, &mut store.listeners, &before, answer)
    }

    /// Lets the thread of this instance that the handle names go on: next, where it has yielded and is to be promoted, or where it
    /// is suspended or wasn't started; or later, as `resume_later` has it, and then that op is done. Else the current thread goes
    /// on where it is, and may suspend or yield next. Answers false exactly where a thread that is to be promoted hasn't yielded,
    /// and nothing is changed then. Refused with trap 16 if the handle names no thread, and with trap 11 if that is the current
    /// one, or one that isn't to be promoted and is neither suspended nor unstarted; nothing is changed then.
    pub fn resume_thread<T, H, G: TaskGroupHook>(
        self,
        component: &Component,
        store: &mut Store<T, H, G>,
        caller: u32,
        thread: u32,
        how: ResumeThread,
    ) -> Result<bool, TaskError>
        requires running { IsRunningIn component.now store.old.state }
        requires asks { MayDoHostOp self.index store.old.state }
        requires caller { caller ≡ self.index }
        ensures does { ResumesThread G.listens component.now how thread store.old result store.new }
    {
        // only the contract speaks of `caller`
        let _caller = caller;
        let before = asked(&store.state);
        let answer = resume_thread(component, &mut store.state, thread, how);
        tell_call(&mut store.state, &mut store.listeners, &before, answer)
    }

    /// Takes the op of the current thread further that has paused; it is the one at the thread's place. Its answer is an event
    /// for a wait, nothing for a suspension, else one number, and it goes to the host: the thread's registers and its place in
    /// its script stay. Refused as its rule says; nothing is changed then.
    pub fn go_on<T, H, G: TaskGroupHook>(
        self,
        component: &Component,
        store: &mut Store<T, H, G>,
    ) -> Result<Step<Answer>, TaskError>
        requires running { IsRunningIn component.now store.old.state }
        requires paused { HasPaused self.index store.old.state }
        ensures does { GoesOn G.listens component.now store.old result store.new }
    {
        let before = asked(&store.state);
        let answer = go_on(component, &mut store.state);
        tell_call(&mut store.state, &mut store.listeners, &before, answer)
    }
}
