//! Dropping a subtask.
ghost use Rattle.std.specs.Prelude.{◌≡◌, ◌<◌, IsSome, true, ℕ};
ghost use Rattle.ops_subtasks.specs.Named.{lost_subtask, SettlesSubtask};
ghost use Rattle.laws_states.specs.Order.{WorksQueued};
ghost use Rattle.machine_data.specs.Read.{instance_of, subtask_at, subtask_ended};
ghost use Rattle.machine_data.specs.declared.records.Subtask.TheVariants as subtasks;
ghost use Rattle.ops_guests.specs.Does.{DoesRule};
ghost use Rattle.machine_rules.specs.Cancels.{drop_rule, unnamed};
ghost use Rattle.core_primitives.specs.Apart.{work_entries};
ghost use Rattle.core_primitives.specs.Names.{subtask_in};
ghost use Rattle.core_primitives.specs.StateView.{KeepsBut, thread_of, work_of};
ghost use Rattle.ops_guests.specs.Works.{NamesTold};

use crate::joins::is_watched;
use core_primitives::{JoinId, Primitives, SubtaskId, ThreadId, WorkId};
use machine_data::{CallLabel, Label, Trap};
use ops_guests::{OpAnswer, OpResult};
use ops_moves::settle_call;

// A work is gone, if it is there.
fn delete_work<W: Primitives>(w: &mut W, work: WorkId)
    requires unqueued { work_entries (work_of (W.view w.old) work) (W.view w.old).core.queues.high ≡ 0 }
    ensures { SettlesSubtask (subtasks.Host (work_of (W.view w.old) work)) (W.view w.old) (W.view w.new) }
{
    w.none_is_zero();
    if w.work_number(work) > 0 {
        w.delete_work(work);
    }
}

// What has no handle any more is gone, if nothing else keeps it.
fn settle<W: Primitives>(w: &mut W, subtask: SubtaskId)
    requires live { (k : ℕ) → subtask_in (W.view w.old).tags subtask ≡ subtasks.Guest k → 0 < k }
    requires unqueued { (i : ℕ) → subtask_in (W.view w.old).tags subtask ≡ subtasks.Host i → work_entries i (W.view w.old).core.queues.high ≡ 0 }
    ensures { SettlesSubtask (subtask_in (W.view w.old).tags subtask) (W.view w.old) (W.view w.new) }
{
    match subtask {
        SubtaskId::Guest(call) => settle_call(w, call),
        SubtaskId::Host(work) => delete_work(w, work),
    }
}

// An ended subtask leaves its set, and its handle is gone.
#[tactic(auto, unfolding(machine_rules::specs::Cancels::unnamed))]
fn part<W: Primitives>(w: &mut W, thread: ThreadId, handle: u32, subtask: SubtaskId)
    requires live { 0 < thread_of (W.view w.old) thread }
    requires names { IsSome (subtask_at (instance_of (thread_of (W.view w.old) thread) (W.view w.old).core) handle (W.view w.old).core) }
    requires ended { subtask_ended (subtask_in (W.view w.old).tags subtask) (W.view w.old).core ≡ true }
    requires works { WorksQueued (W.view w.old).core }
    ensures core { (W.view w.new).core ≡ unnamed (thread_of (W.view w.old) thread) handle (subtask_in (W.view w.old).tags subtask) (W.view w.old).core }
    ensures thread { thread_of (W.view w.new) thread ≡ thread_of (W.view w.old) thread }
    ensures current { (W.view w.new).current ≡ (W.view w.old).current }
    ensures tags { KeepsBut (lost_subtask (subtask_in (W.view w.old).tags subtask)) (W.view w.old).tags (W.view w.new).tags }
{
    w.none_is_zero();
    let instance = w.instance_of(thread);
    w.set_join(subtask, JoinId::Nowhere);
    w.set_subtask_handle(subtask, None);
    w.free_handle(instance, handle);
    settle(w, subtask);
}

/// Does `drop X`.
pub fn drop_subtask<W: Primitives>(w: &mut W, thread: ThreadId, handle: u64) -> OpResult
    requires live { 0 < thread_of (W.view w.old) thread }
    requires works { WorksQueued (W.view w.old).core }
    ensures does { DoesRule NamesTold (λ d n ch s. drop_rule d n handle s) thread (W.view w.old) result (W.view w.new) }
    ensures thread { thread_of (W.view w.new) thread ≡ thread_of (W.view w.old) thread }
    ensures current { (W.view w.new).current ≡ (W.view w.old).current }
{
    w.none_is_zero();
    let number = w.number(thread);
    let instance = w.instance_of(thread);
    let Some(subtask) = w.subtask_at(instance, handle) else {
        return OpResult::Traps(Trap::BadHandle);
    };
    if is_watched(w, subtask) {
        return OpResult::Traps(Trap::WaitableSyncAndAsync);
    }
    if !w.has_ended(subtask) {
        return OpResult::Traps(Trap::SubtaskDropNotResolved);
    }
    if w.event(subtask).is_some() {
        return OpResult::Traps(Trap::SubtaskDropNotResolved);
    }
    part(w, thread, handle as u32, subtask);
    OpResult::Continues(
        Label::Call(CallLabel::Drop(number)),
        number,
        OpAnswer::Nothing,
    )
}
