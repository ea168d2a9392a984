//! Calls of hosts.
ghost use Rattle.std.specs.Prelude.{◌≡◌, ◌+◌, ◌<◌, ◌^◌, IfOk, None, OnErr, false, true};
ghost use Rattle.ops_subtasks.specs.First.{first_heard, first_named};
ghost use Rattle.ops_subtasks.specs.Named.{LosesWork};
ghost use Rattle.ops_subtasks.specs.Queued.{NamesQueued, queued_answer};
ghost use Rattle.ops_subtasks.specs.Rules.{answers_work, calls_host, calls_sync_host};
ghost use Rattle.machine_data.specs.Maps.{get};
ghost use Rattle.machine_data.specs.Read.{at_handle_limit, fits};
ghost use Rattle.ops_guests.specs.Does.{DoesRule, KeepsNames};
ghost use Rattle.ops_guests.specs.Running.{IsRunning};
ghost use Rattle.machine_rules.specs.Calls.{Later, call_sync_host_stops, host_valued, host_with_handle, next_work};
ghost use Rattle.core_primitives.specs.Apart.{work_entries};
ghost use Rattle.core_primitives.specs.StateView.{Keeps, on_core, thread_of, work_of};
ghost use Rattle.core_primitives.specs.Records.{MakesWork};

use crate::returns::stop_blocked;
use crate::takes::value_of_work;
use core_primitives::{NoMemory, Primitives, SubtaskId, ThreadId, WorkId};
use machine_data::{CallLabel, HostDef, HostPoll, Label, Trap};
use ops_guests::{OpAnswer, OpResult};
use ops_moves::{check, passes_check};

// What the first poll of a host finds.
#[derive(Clone, Copy)]
pub(crate) enum First {
    // It was ready, with this value.
    AtOnce(u64),
    Failing,
    // It pends, and goes on so.
    Later(HostDef),
}

// What the first poll of the host finds, whose work answers so if it is open.
fn first_of(host: HostDef, answer: HostPoll) -> First
    ensures { first_named result ≡ first_heard host answer }
{
    match host {
        HostDef::Settled {
            polls: Some(0),
            value: Some(value),
        } => First::AtOnce(value),
        HostDef::Settled {
            polls: Some(0),
            value: None,
        } => First::Failing,
        HostDef::Settled { polls, value } => First::Later(HostDef::Settled {
            polls: polls.map(|polls| polls - 1),
            value,
        }),
        HostDef::Open => match answer {
            HostPoll::Pending => First::Later(HostDef::Open),
            HostPoll::Value(value) => First::AtOnce(value),
            HostPoll::Failed => First::Failing,
        },
    }
}

// The host was ready at its first poll: the value goes to the result's register.
#[tactic(auto, unfolding(machine_rules::specs::Calls::host_valued))]
fn take_value<W: Primitives>(w: &mut W, thread: ThreadId, register: u8, value: u64)
    requires few { (W.view w.old).core.made.works + 1 < 2 ^ 64 }
    ensures { W.view w.new ≡ on_core (host_valued (thread_of (W.view w.old) thread) register value) (W.view w.old) }
{
    w.count_work();
    w.set_register(thread, register, value);
}

// The work is made, and the answer is packed of its handle and Started.
fn queue_work<W: Primitives>(
    w: &mut W,
    thread: ThreadId,
    register: u8,
    host: HostDef,
) -> Result<(u32, WorkId), NoMemory>
    requires live { 0 < thread_of (W.view w.old) thread }
    requires few { (W.view w.old).core.made.works + 1 < 2 ^ 64 }
    requires room { fits 1 (W.view w.old).core ≡ true }
    requires limit { at_handle_limit (W.view w.old).core ≡ false }
    ensures value { IfOk result (λ r. r.0 ≡ queued_answer thread (W.view w.old)) }
    ensures work { IfOk result (λ r. work_of (W.view w.new) r.1 ≡ next_work (W.view w.old).core) }
    ensures core { IfOk result (λ r. (W.view w.new).core ≡ host_with_handle (thread_of (W.view w.old) thread) register host (W.view w.old).core) }
    ensures tags { Keeps (W.view w.old).tags (W.view w.new).tags }
    ensures current { (W.view w.new).current ≡ (W.view w.old).current }
    ensures err { OnErr result (W.view w.new ≡ W.view w.old) }
{
    let handle = w.new_handle(w.instance_of(thread));
    let work = w.queue_call(thread, register, host)?;
    Ok((16 * handle + 1, work))
}

// A `call` whose host pends.
fn call_pending_host<W: Primitives>(
    w: &mut W,
    thread: ThreadId,
    register: u8,
    host: HostDef,
) -> Result<(OpResult, Option<WorkId>), NoMemory>
    requires live { 0 < thread_of (W.view w.old) thread }
    requires few { (W.view w.old).core.made.works + 1 < 2 ^ 64 }
    ensures does { IfOk result (λ r. DoesRule KeepsNames (calls_host register (Later host)) thread (W.view w.old) r.0 (W.view w.new)) }
    ensures work { IfOk result (λ r. NamesQueued (Later host) (W.view w.old) r (W.view w.new)) }
    ensures err { OnErr result (W.view w.new ≡ W.view w.old) }
{
    if !w.fits(1) {
        return Ok((OpResult::Traps(Trap::TableFull), None));
    }
    if w.at_handle_limit() {
        return Ok((OpResult::Traps(Trap::HandleLimit), None));
    }
    let number = w.number(thread);
    let next = w.made().works + 1;
    let (value, work) = queue_work(w, thread, register, host)?;
    let label = Label::Call(CallLabel::CallPolls(value, number, next));
    let op_result = OpResult::Continues(label, number, OpAnswer::Number(value));
    Ok((op_result, Some(work)))
}

// A `call` of a host of whose first poll this has come.
fn call_host_found<W: Primitives>(
    w: &mut W,
    thread: ThreadId,
    register: u8,
    first: First,
) -> Result<(OpResult, Option<WorkId>), NoMemory>
    requires live { 0 < thread_of (W.view w.old) thread }
    requires few { (W.view w.old).core.made.works + 1 < 2 ^ 64 }
    ensures does { IfOk result (λ r. DoesRule KeepsNames (calls_host register (first_named first)) thread (W.view w.old) r.0 (W.view w.new)) }
    ensures work { IfOk result (λ r. NamesQueued (first_named first) (W.view w.old) r (W.view w.new)) }
    ensures err { OnErr result (W.view w.new ≡ W.view w.old) }
{
    let number = w.number(thread);
    // The thread is there, which is asked once for all that is looked up of it.
    match number {
        0 => unreachable!(),
        _ => {}
    }
    let next = w.made().works + 1;
    match first {
        First::Failing => Ok((OpResult::Fails(next), None)),
        First::AtOnce(value) => {
            take_value(w, thread, register, value);
            let label = Label::Call(CallLabel::CallPolls(2, number, next));
            Ok((
                OpResult::Continues(label, number, OpAnswer::Number(2)),
                None,
            ))
        }
        First::Later(left) => call_pending_host(w, thread, register, left),
    }
}

/// Does `call R Q H`: the host was polled once, and if it is open its work has answered so. Where it pends, the id of its work is
/// answered, too. If it is out of memory, all is as before.
pub fn call_host<W: Primitives>(
    w: &mut W,
    thread: ThreadId,
    register: u8,
    host: HostDef,
    answer: HostPoll,
) -> Result<(OpResult, Option<WorkId>), NoMemory>
    requires live { 0 < thread_of (W.view w.old) thread }
    requires few { (W.view w.old).core.made.works + 1 < 2 ^ 64 }
    ensures does { IfOk result (λ r. DoesRule KeepsNames (calls_host register (first_heard host answer)) thread (W.view w.old) r.0 (W.view w.new)) }
    ensures work { IfOk result (λ r. NamesQueued (first_heard host answer) (W.view w.old) r (W.view w.new)) }
    ensures err { OnErr result (W.view w.new ≡ W.view w.old) }
{
    let first = first_of(host, answer);
    call_host_found(w, thread, register, first)
}

// The work is made, and after a check the strand stops and its top is blocked on the work.
fn stop_on_host<W: Primitives>(
    w: &mut W,
    thread: ThreadId,
    host: HostDef,
) -> Result<WorkId, NoMemory>
    requires live { 0 < thread_of (W.view w.old) thread }
    requires running { IsRunning (thread_of (W.view w.old) thread) (W.view w.old).core }
    requires few { (W.view w.old).core.made.works + 1 < 2 ^ 64 }
    requires room { fits 1 (W.view w.old).core ≡ true }
    ensures { MakesWork (call_sync_host_stops (thread_of (W.view w.old) thread) host) (W.view w.old) result (W.view w.new) }
{
    let instance = w.instance_of(thread);
    let work = w.queue_sync_call(thread, host)?;
    check(w, instance);
    stop_blocked(w, thread, SubtaskId::Host(work));
    Ok(work)
}

// A `call_sync` whose host pends.
fn call_sync_pending_host<W: Primitives>(
    w: &mut W,
    thread: ThreadId,
    host: HostDef,
) -> Result<(OpResult, Option<WorkId>), NoMemory>
    requires live { 0 < thread_of (W.view w.old) thread }
    requires running { IsRunning (thread_of (W.view w.old) thread) (W.view w.old).core }
    requires few { (W.view w.old).core.made.works + 1 < 2 ^ 64 }
    ensures does { IfOk result (λ r. DoesRule KeepsNames (calls_sync_host (Later host)) thread (W.view w.old) r.0 (W.view w.new)) }
    ensures work { IfOk result (λ r. NamesQueued (Later host) (W.view w.old) r (W.view w.new)) }
    ensures err { OnErr result (W.view w.new ≡ W.view w.old) }
{
    if !w.fits(1) {
        return Ok((OpResult::Traps(Trap::TableFull), None));
    }
    if !passes_check(w, w.instance_of(thread)) {
        return Ok((OpResult::Traps(Trap::CannotBlockSyncTask), None));
    }
    let number = w.number(thread);
    let next = w.made().works + 1;
    let work = stop_on_host(w, thread, host)?;
    let label = Label::Call(CallLabel::PausesPolls(number, next));
    Ok((OpResult::Stops(label), Some(work)))
}

// A `call_sync` of a host of whose first poll this has come.
fn call_sync_host_found<W: Primitives>(
    w: &mut W,
    thread: ThreadId,
    first: First,
) -> Result<(OpResult, Option<WorkId>), NoMemory>
    requires live { 0 < thread_of (W.view w.old) thread }
    requires running { IsRunning (thread_of (W.view w.old) thread) (W.view w.old).core }
    requires few { (W.view w.old).core.made.works + 1 < 2 ^ 64 }
    ensures does { IfOk result (λ r. DoesRule KeepsNames (calls_sync_host (first_named first)) thread (W.view w.old) r.0 (W.view w.new)) }
    ensures work { IfOk result (λ r. NamesQueued (first_named first) (W.view w.old) r (W.view w.new)) }
    ensures err { OnErr result (W.view w.new ≡ W.view w.old) }
{
    let number = w.number(thread);
    let next = w.made().works + 1;
    match first {
        First::Failing => Ok((OpResult::Fails(next), None)),
        First::AtOnce(value) => {
            w.count_work();
            let label = Label::CallSyncPolls(number, value, next);
            Ok((
                OpResult::Continues(label, number, OpAnswer::Value(value)),
                None,
            ))
        }
        First::Later(left) => call_sync_pending_host(w, thread, left),
    }
}

/// Does `call_sync R H`, as it begins: the host was polled once, and if it is open its work has answered so. Where it pends, the id
/// of its work is answered, too. If it is out of memory, all is as before.
pub fn call_sync_host<W: Primitives>(
    w: &mut W,
    thread: ThreadId,
    host: HostDef,
    answer: HostPoll,
) -> Result<(OpResult, Option<WorkId>), NoMemory>
    requires live { 0 < thread_of (W.view w.old) thread }
    requires running { IsRunning (thread_of (W.view w.old) thread) (W.view w.old).core }
    requires few { (W.view w.old).core.made.works + 1 < 2 ^ 64 }
    ensures does { IfOk result (λ r. DoesRule KeepsNames (calls_sync_host (first_heard host answer)) thread (W.view w.old) r.0 (W.view w.new)) }
    ensures work { IfOk result (λ r. NamesQueued (first_heard host answer) (W.view w.old) r (W.view w.new)) }
    ensures err { OnErr result (W.view w.new ≡ W.view w.old) }
{
    let first = first_of(host, answer);
    call_sync_host_found(w, thread, first)
}

/// Does `call_sync R H`, once the work that it was blocked on has ended: the work is gone.
pub fn go_on_calling_host<W: Primitives>(w: &mut W, thread: ThreadId, work: WorkId) -> OpResult
    requires live { 0 < thread_of (W.view w.old) thread }
    requires work { 0 < work_of (W.view w.old) work }
    requires unqueued { work_entries (work_of (W.view w.old) work) (W.view w.old).core.queues.high ≡ 0 }
    ensures does { DoesRule (LosesWork (work_of (W.view w.old) work)) (answers_work (work_of (W.view w.old) work)) thread (W.view w.old) result (W.view w.new) }
    ensures gone { get (W.view w.new).core.works (work_of (W.view w.old) work) ≡ None }
    ensures thread { thread_of (W.view w.new) thread ≡ thread_of (W.view w.old) thread }
{
    let number = w.number(thread);
    let value = value_of_work(w, work).unwrap_or(0);
    w.delete_work(work);
    OpResult::Continues(
        Label::Call(CallLabel::CallSync(number, value)),
        number,
        OpAnswer::Value(value),
    )
}
