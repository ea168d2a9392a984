//! The taking of a start.
ghost use Rattle.ops_guests.specs.Rules.{takes_start};
ghost use Rattle.ops_guests.specs.Does.{PicksRule};
ghost use Rattle.std.specs.Prelude.{◌≡◌, ◌<◌, IfOk, IfSome, None, OnErr, OnOk, false, true};
ghost use Rattle.machine_data.specs.Labels.{held_label, take_label};
ghost use Rattle.machine_data.specs.Read.{admits, at_handle_limit, task_of, under_of};
ghost use Rattle.machine_data.specs.declared.records.Subtask.TheVariants as subtasks;
ghost use Rattle.machine_data.specs.declared.records.Why.TheVariants as whys;
ghost use Rattle.ops_moves.specs.Idle.{CanPublish, IsJoinThere, IsWaiting};
ghost use Rattle.ops_guests.specs.Running.{IsStartTaken};
ghost use Rattle.ops_guests.specs.Shown.{goes_as};
ghost use Rattle.machine_rules.specs.Takes.{may_tell_starting, start_begins, start_holds, start_sets_flags, starting_is_published, starting_told};
ghost use Rattle.core_primitives.specs.Changes.{IsFirstToWake};
ghost use Rattle.core_primitives.specs.StateView.{call_of, on_core, thread_of, thread_if_any};

use crate::op_result::{OpAnswer, OpResult};
use core_primitives::{CallId, NoMemory, PlaceId, Primitives, ThreadId, WhyId};
use machine_data::{ExportKind, Label, Mark, Status, TakeLabel, Trap};
use ops_moves::{own_foot, stop, tell, tell_waiter};

// The taken thread goes on, and this one was woken.
fn goes_on(mark: Mark, thread: u64, woken: Option<u64>) -> OpResult
    ensures { result ≡ goes_as (take_label mark thread woken) thread }
{
    match woken {
        None => OpResult::Continues(
            Label::Take(TakeLabel::Thread(mark, thread)),
            thread,
            OpAnswer::NoneDue,
        ),
        Some(woken) => OpResult::Continues(
            Label::Take(TakeLabel::ThreadWakes(mark, thread, woken)),
            thread,
            OpAnswer::NoneDue,
        ),
    }
}

// Takes an entry that isn't admitted.
fn held_label(mark: Mark, thread: u64, woken: Option<u64>) -> Label
    ensures { result ≡ held_label mark thread woken }
{
    match woken {
        None => Label::Take(TakeLabel::Held(mark, thread)),
        Some(woken) => Label::Take(TakeLabel::HeldWakes(mark, thread, woken)),
    }
}

fn woken_number<W: Primitives>(w: &W, waiter: Option<ThreadId>) -> Option<u64>
    ensures { result ≡ thread_if_any (W.view w.now) waiter }
{
    match waiter {
        None => None,
        Some(thread) => Some(w.number(thread)),
    }
}

// A sync export saves and sets `do_not_suspend`; a blocking one and a callback set `do_not_enter`.
fn set_flags<W: Primitives>(w: &mut W, thread: ThreadId, kind: ExportKind)
    ensures { W.view w.new ≡ on_core (start_sets_flags (thread_of (W.view w.old) thread) kind) (W.view w.old) }
{
    let instance = w.instance_of(thread);
    match kind {
        ExportKind::Sync => {
            let flag = w.may_not_suspend(instance);
            w.set_saved_own(thread, Some(flag));
            w.set_do_not_suspend(instance, true);
        }
        ExportKind::Stackful => {}
        _ => w.set_do_not_enter(instance, true),
    }
}

// Whether a start of the thread, which is there, may begin.
fn admits_start<W: Primitives>(w: &W, thread: ThreadId) -> bool
    requires { 0 < thread_of (W.view w.now) thread }
    ensures { result ≡ admits (thread_of (W.view w.now) thread) (W.view w.now).core whys.Start }
{
    if !w.is_barred(thread) {
        return true;
    }
    let instance = w.instance_of(thread);
    !w.may_not_enter(instance) && w.backpressure(instance) == 0
}

// The call's first thread has its handle, Started is told, and the flags of its kind are set.
#[tactic(auto, unfolding(machine_rules::specs::Takes::start_begins))]
fn begin<W: Primitives>(
    w: &mut W,
    thread: ThreadId,
    waiter: Option<ThreadId>,
) -> Result<(), NoMemory>
    requires live { 0 < thread_of (W.view w.old) thread }
    requires can { CanPublish (subtasks.Guest (task_of (thread_of (W.view w.old) thread) (W.view w.old).core)) waiter (W.view w.old) }
    requires limit { at_handle_limit (W.view w.old).core ≡ false }
    ensures ok { OnOk result (W.view w.new ≡ on_core (start_begins (thread_of (W.view w.old) thread) (thread_if_any (W.view w.old) waiter)) (W.view w.old)) }
    ensures err { OnErr result (W.view w.new ≡ W.view w.old) }
{
    let call = w.task_of(thread);
    let kind = w.kind(call);
    w.name_thread(thread)?;
    w.set_started(call);
    tell(w, call, Status::Started, waiter);
    set_flags(w, thread, kind);
    w.set_place(thread, PlaceId::Running);
    Ok(())
}

// The waiter that is woken where Starting is told now, if it wasn't told before.
#[tactic(auto, unfolding(machine_rules::specs::Takes::may_tell_starting))]
fn starting_waiter<W: Primitives>(w: &W, call: CallId, told: bool) -> Option<ThreadId>
    requires there { IsJoinThere (subtasks.Guest (call_of (W.view w.now) call)) (W.view w.now).core }
    requires told { told ≡ starting_is_published (call_of (W.view w.now) call) (W.view w.now).core }
    ensures choice { may_tell_starting (call_of (W.view w.now) call) (thread_if_any (W.view w.now) result) (W.view w.now).core ≡ true }
    ensures live { IfSome result (λ id. 0 < thread_of (W.view w.now) id) }
    ensures waits { IfSome result (λ id. IsWaiting (thread_of (W.view w.now) id) (W.view w.now).core) }
    ensures first { IfSome result (λ id. IsFirstToWake id (W.view w.now)) }
{
    if told { None } else { tell_waiter(w, call) }
}

// Starting is told once.
#[tactic(auto, unfolding(machine_rules::specs::Takes::starting_told))]
fn tell_starting<W: Primitives>(w: &mut W, call: CallId, waiter: Option<ThreadId>, told: bool)
    requires told { told ≡ starting_is_published (call_of (W.view w.old) call) (W.view w.old).core }
    requires can { CanPublish (subtasks.Guest (call_of (W.view w.old) call)) waiter (W.view w.old) }
    ensures { W.view w.new ≡ on_core (starting_told (call_of (W.view w.old) call) (thread_if_any (W.view w.old) waiter)) (W.view w.old) }
{
    if !told {
        w.set_starting_published(call);
        tell(w, call, Status::Starting, waiter);
    }
}

// Starting is told, if it wasn't before, the thread of the call is held with its entry, and its strand stops.
#[tactic(auto, unfolding(machine_rules::specs::Takes::start_holds, machine_rules::specs::Takes::take_holds))]
fn hold_start<W: Primitives>(
    w: &mut W,
    thread: ThreadId,
    call: CallId,
    waiter: Option<ThreadId>,
    told: bool,
)
    requires call { call_of (W.view w.old) call ≡ task_of (thread_of (W.view w.old) thread) (W.view w.old).core }
    requires told { told ≡ starting_is_published (call_of (W.view w.old) call) (W.view w.old).core }
    requires live { 0 < thread_of (W.view w.old) thread }
    requires taken { IsStartTaken (thread_of (W.view w.old) thread) (W.view w.old).core }
    requires bottom { under_of (thread_of (W.view w.old) thread) (W.view w.old).core ≡ None }
    requires can { CanPublish (subtasks.Guest (task_of (thread_of (W.view w.old) thread) (W.view w.old).core)) waiter (W.view w.old) }
    ensures { W.view w.new ≡ on_core (start_holds (thread_of (W.view w.old) thread) (thread_if_any (W.view w.old) waiter)) (W.view w.old) }
{
    tell_starting(w, call, waiter, told);
    let foot = own_foot(w, thread);
    stop(w, foot);
    w.arrive(thread);
    w.set_place(thread, PlaceId::Held(WhyId::Start));
}

/// Does a start that was taken from the mark, of a thread that nobody is under. If it is out of memory, all is as before.
#[tactic(auto, unfolding(machine_rules::specs::Takes::running))]
pub fn take_start<W: Primitives>(
    w: &mut W,
    mark: Mark,
    thread: ThreadId,
) -> Result<OpResult, NoMemory>
    requires live { 0 < thread_of (W.view w.old) thread }
    requires taken { IsStartTaken (thread_of (W.view w.old) thread) (W.view w.old).core }
    requires bottom { under_of (thread_of (W.view w.old) thread) (W.view w.old).core ≡ None }
    requires there { IsJoinThere (subtasks.Guest (task_of (thread_of (W.view w.old) thread) (W.view w.old).core)) (W.view w.old).core }
    ensures picks { IfOk result (λ op_result. PicksRule (takes_start mark) thread (W.view w.old) op_result (W.view w.new)) }
    ensures tags { (W.view w.new).tags ≡ (W.view w.old).tags }
    ensures current { (W.view w.new).current ≡ (W.view w.old).current }
    ensures err { OnErr result (W.view w.new ≡ W.view w.old) }
{
    let number = w.number(thread);
    let call = w.task_of(thread);
    if !admits_start(w, thread) {
        let told = w.starting_is_published(call);
        let waiter = starting_waiter(w, call, told);
        let woken = woken_number(w, waiter);
        hold_start(w, thread, call, waiter, told);
        return Ok(OpResult::Stops(held_label(mark, number, woken)));
    }
    if w.is_explicit(thread) {
        w.set_place(thread, PlaceId::Running);
        return Ok(goes_on(mark, number, None));
    }
    if w.at_handle_limit() {
        return Ok(OpResult::Traps(Trap::HandleLimit));
    }
    let waiter = tell_waiter(w, call);
    let woken = woken_number(w, waiter);
    begin(w, thread, waiter)?;
    Ok(goes_on(mark, number, woken))
}
