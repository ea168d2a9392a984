//! The calls of a store's state that begin or end a task, or have another thread run. What that gives of groups is told.
ghost use Rattle.std.specs.Prelude.{Err, IfSome, IsSome, None, Ok, false, is_some, true, ◌+◌, ◌<◌, ◌^◌, ◌≡◌};
ghost use Rattle.ops_state.specs.Currents.{LeavesNobody, MayRun, now_runs, number_in, runner};
ghost use Rattle.ops_state.specs.Ends.{MayEnd};
ghost use Rattle.ops_state.specs.Named.{IsLive};
ghost use Rattle.task_group.specs.Listeners.{AnsweredErr};
ghost use Rattle.task_loop.specs.Begun.{SettlesGroups};
ghost use Rattle.task_loop.specs.Ended.{group_left};
ghost use Rattle.task_loop.specs.GuestCalls.{EndsThread, MakesTask, SetsThread};
ghost use Rattle.task_loop.specs.Hooked.{IfHookOk};
ghost use Rattle.task_loop.specs.NewTasks.{MakesCall};
ghost use Rattle.task_loop.specs.Told.{current_group};
ghost use Rattle.machine_data.specs.Maps.{get};
ghost use Rattle.ops_turns.specs.Turn.{given};
ghost use Rattle.core_primitives.specs.StateView.{thread_of};

use crate::call_tells::{asked, take_back};
use core_primitives::{CallPrimitives, ResultPrimitives, ThreadId, ThreadPrimitives, View};
use core_state::TaskCore;
use machine_data::{ExportKind, NoticeKind, Trap};
use ops_calls::{QualifiedThreadId, TaskError};
use ops_state::CurrentThread;
use store_notices::tell_moves;
use task_group::{Listeners, TaskGroupHook, TaskGroupId};
use task_store::{Store, finish_ended};

// The group that is made next.
pub(crate) fn next_group(core: &TaskCore) -> TaskGroupId
    requires { core.now.core.made.groups + 1 < 2 ^ 64 }
    ensures { result.number ≡ core.now.core.made.groups + 1 }
{
    TaskGroupId {
        number: core.made().groups + 1,
    }
}

// Makes a call in a new group, where there is no hook.
fn make_with_group<T, H, G: TaskGroupHook>(
    store: &mut Store<T, H, G>,
    kind: ExportKind,
    instance: u32,
) -> Result<QualifiedThreadId, TaskError>
    requires instance { IsSome (get store.old.state.core.instances instance) }
    requires given { given store.old.state.core < 2 ^ 61 }
    requires unhooked { is_some store.old.listeners.hook ≡ false }
    ensures makes { MakesCall G.listens kind instance None store.old result store.new }
    ensures rest { store.new ≡ record store.old { state = store.new.state; listeners = store.new.listeners } }
{
    let group = next_group(&store.state);
    let id = ops_calls::new_guest_task(&mut store.state, kind, instance, None)?;
    let _told = store.listeners.tell(NoticeKind::Start, group);
    Ok(id)
}

// Makes the call if there is a hook. The hook is told of the group before the call is made, as it may refuse it. If it is out of
// memory then, the group finishes at once.
fn make_hooked<T, H, G: TaskGroupHook>(
    store: &mut Store<T, H, G>,
    kind: ExportKind,
    instance: u32,
) -> Result<QualifiedThreadId, TaskError>
    requires instance { IsSome (get store.old.state.core.instances instance) }
    requires given { given store.old.state.core < 2 ^ 61 }
    requires listens { G.listens ≡ true }
    requires hooked { is_some store.old.listeners.hook ≡ true }
    ensures makes { MakesCall G.listens kind instance None store.old result store.new }
    ensures rest { store.new ≡ record store.old { state = store.new.state; listeners = store.new.listeners } }
{
    if !store.state.fits(4) {
        return Err(TaskError::Trap(Trap::TableFull));
    }
    let group = next_group(&store.state);
    if store.listeners.tell(NoticeKind::Start, group).is_err() {
        return Err(TaskError::Trap(Trap::HookFailed));
    }
    match ops_calls::new_guest_task(&mut store.state, kind, instance, None) {
        Ok(id) => Ok(id),
        Err(e) => Err(take_back(&mut store.listeners, group, e)),
    }
}

// Makes a call, in the group of its caller's call or in a new one.
fn make<T, H, G: TaskGroupHook>(
    store: &mut Store<T, H, G>,
    kind: ExportKind,
    instance: u32,
    caller: Option<QualifiedThreadId>,
) -> Result<QualifiedThreadId, TaskError>
    requires instance { IsSome (get store.old.state.core.instances instance) }
    requires caller { IfSome caller (λ id. IsLive store.old.state id) }
    requires given { given store.old.state.core < 2 ^ 61 }
    ensures makes { MakesCall G.listens kind instance caller store.old result store.new }
    ensures rest { store.new ≡ record store.old { state = store.new.state; listeners = store.new.listeners } }
{
    match caller {
        Some(_) => ops_calls::new_guest_task(&mut store.state, kind, instance, caller),
        None => {
            if store.listeners.is_hooked() {
                make_hooked(store, kind, instance)
            } else {
                make_with_group(store, kind, instance)
            }
        }
    }
}

// What was made is answered. In a trapped store all groups have ended, which is told then; it is refusal 22 if the hook answered an
// error to that.
fn settle<G: TaskGroupHook>(
    core: &mut TaskCore,
    listeners: &mut Listeners<G>,
    id: QualifiedThreadId,
) -> Result<QualifiedThreadId, TaskError>
    ensures answer { IfHookOk G.listens listeners.old listeners.new (result ≡ Ok id) }
    ensures failed { AnsweredErr listeners.old listeners.new → result ≡ Err (TaskError.Trap Trap.HookFailed) }
    ensures settles { SettlesGroups core.old.core.trapped core.old core.new listeners.old listeners.new }
{
    if !core.trapped() {
        return Ok(id);
    }
    // read so that the proof knows the invariant of `listeners`
    let _hooked = listeners.is_hooked();
    let Ok(()) = finish_ended(core, listeners) else {
        return Err(TaskError::Trap(Trap::HookFailed));
    };
    Ok(id)
}

/// Makes a call of this kind, of the first export of an instance, and answers its first thread, as `new_guest_task` of the store's
/// state does. It is of the group of the caller's call, or of a new one where it has no caller, whose start is told; in a trapped
/// store all groups are finished at once. Refused with trap 18 exactly where its entries, 3 or 4 with the group, don't fit into the
/// table, and else with trap 22 exactly where the hook answered an error. Where it is refused, and if it is out of memory, nothing
/// is made and as many groups are left, though a hook was told the start of the new one, and its finish if it was out of memory
/// then; unless the hook answered its error to a finish in a trapped store. Without a hook nothing is told. However it ends, order
/// is kept at whatever turn, for a component in which that export has this kind.
pub fn new_guest_task<T, H, G: TaskGroupHook>(
    store: &mut Store<T, H, G>,
    kind: ExportKind,
    instance: u32,
    caller: Option<QualifiedThreadId>,
) -> Result<QualifiedThreadId, TaskError>
    requires instance { IsSome (get store.old.state.core.instances instance) }
    requires caller { IfSome caller (λ id. IsLive store.old.state id) }
    requires given { given store.old.state.core < 2 ^ 61 }
    ensures does { MakesTask G.listens kind instance caller store.old result store.new }
{
    match make(store, kind, instance, caller) {
        Ok(id) => settle(&mut store.state, &mut store.listeners, id),
        Err(e) => Err(e),
    }
}

// The group of the thread that is to run, as long as it is tracked; 0 if none is.
fn group_to_run(core: &TaskCore, thread: CurrentThread) -> u64
    ensures { result ≡ current_group (now_runs thread core.now) }
{
    match thread {
        CurrentThread::Guest(id) => core.thread_group(id.thread),
        CurrentThread::None => 0,
    }
}

/// Changes the thread that runs, or lets none run, and returns the thread that ran, as `set_thread` of the store's state does. The
/// exit from the one's group and the enter into the other's are told before that. Refused with trap 22 exactly where the hook
/// answered an error, and then the store's state is as before. Order goes over from a turn of the one to a turn of the other, where
/// that one may be resumed.
pub fn set_thread<T, H, G: TaskGroupHook>(
    store: &mut Store<T, H, G>,
    thread: CurrentThread,
) -> Result<CurrentThread, TaskError>
    requires may { MayRun store.old.state thread }
    requires leaves { LeavesNobody (runner store.old.state) (number_in store.old.state thread) store.old.state.core }
    ensures does { SetsThread G.listens thread store.old result store.new }
{
    // read so that the proof knows the invariant of `store`
    let _hooked = store.listeners.is_hooked();
    let before = asked(&store.state);
    let group = group_to_run(&store.state, thread);
    let Ok(()) = tell_moves(&mut store.listeners, &before, group) else {
        return Err(TaskError::Trap(Trap::HookFailed));
    };
    ops_state::set_thread(&mut store.state, thread)
}

// The group of the thread that runs once this one has ended, 0 if none does.
fn group_left(core: &TaskCore, thread: ThreadId) -> u64
    ensures { result ≡ group_left (thread_of core.now thread) core.now }
{
    let Some(current) = core.current() else {
        return 0;
    };
    if core.number(current) == core.number(thread) {
        return 0;
    }
    core.thread_group(current)
}

/// Ends a thread as `cleanup_thread` of the store's state does. The exit from its group is told, where the thread was the one that
/// ran, before it has ended, and the finish of that group after it, where nothing is left of it. Refused with trap 4
/// exactly where no thread would be left of a task that hasn't ended, and then nothing is changed and nothing is told; and with trap
/// 22 exactly where the hook answered an error. After one to the exit nothing is changed. After one to the finish the thread has
/// ended, as its group is finished all the same. Order
/// is kept if it was the thread's turn, which is main's then.
pub fn cleanup_thread<T, H, G: TaskGroupHook>(
    store: &mut Store<T, H, G>,
    thread: QualifiedThreadId,
) -> Result<(), TaskError>
    requires live { IsLive store.old.state thread }
    requires may { MayEnd (thread_of store.old.state thread.thread) store.old.state.core }
    ensures does { EndsThread G.listens (thread_of store.old.state thread.thread) store.old result store.new }
{
    let last = store.state.is_last_thread(thread.thread);
    let end = store.state.end_of(store.state.task_of(thread.thread));
    if last && end.is_none() {
        return Err(TaskError::Trap(Trap::NoAsyncResult));
    }
    // read so that the proof knows the invariant of `store`
    let _hooked = store.listeners.is_hooked();
    store.state.none_is_zero();
    let before = asked(&store.state);
    let after = group_left(&store.state, thread.thread);
    let Ok(()) = tell_moves(&mut store.listeners, &before, after) else {
        return Err(TaskError::Trap(Trap::HookFailed));
    };
    let answer = ops_state::cleanup_thread(&mut store.state, thread);
    let Ok(()) = finish_ended(&mut store.state, &mut store.listeners) else {
        return Err(TaskError::Trap(Trap::HookFailed));
    };
    answer
}
