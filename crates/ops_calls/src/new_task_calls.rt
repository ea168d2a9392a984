//! Calls whose threads are New.
ghost use Rattle.std.specs.Prelude.{◌≡◌, ◌<◌, ◌^◌, IfOk, IfSome, IsSome, OnErr, OnOk, true};
ghost use Rattle.ops_state.specs.Named.{IsLive};
ghost use Rattle.ops_calls.specs.Tasks.{KeepsFor, Begins, entries_of, task_made, TaskKeepsOrder};
ghost use Rattle.machine_data.specs.Maps.{get};
ghost use Rattle.machine_data.specs.Read.{fits};
ghost use Rattle.machine_rules.specs.Calls.{next_thread};
ghost use Rattle.ops_turns.specs.Turn.{given};
ghost use Rattle.core_primitives.specs.StateView.{call_of, thread_of};

use core_primitives::Primitives;
use machine_data::{Callee, ExportKind, Goal, NoMemory, Trap};
use ops_state::{QualifiedThreadId, TaskError};

// How many entries of the table a call takes.
fn entries_for(caller: Option<QualifiedThreadId>) -> usize
    ensures { result ≡ entries_of caller }
{
    match caller {
        Some(_) => 3,
        None => 4,
    }
}

// The call, whose entries fit. If it is out of memory, all is as before.
fn make_task<W: Primitives>(
    w: &mut W,
    kind: ExportKind,
    instance: u32,
    caller: Option<QualifiedThreadId>,
) -> Result<QualifiedThreadId, NoMemory>
    requires instance { IsSome (get (W.view w.old).core.instances instance) }
    requires caller { IfSome caller (λ id. IsLive (W.view w.old) id) }
    requires given { given (W.view w.old).core < 2 ^ 61 }
    requires room { fits (entries_of caller) (W.view w.old).core ≡ true }
    ensures thread { IfOk result (λ id. thread_of (W.view w.new) id.thread ≡ next_thread (W.view w.old).core) }
    ensures task { IfOk result (λ id. call_of (W.view w.new) id.task ≡ next_thread (W.view w.old).core) }
    ensures core { OnOk result ((W.view w.new).core ≡ task_made kind instance caller (W.view w.old)) }
    ensures current { (W.view w.new).current ≡ (W.view w.old).current }
    ensures tags { OnOk result (KeepsFor caller (W.view w.old) (W.view w.old).tags (W.view w.new).tags) }
    ensures err { OnErr result (W.view w.new ≡ W.view w.old) }
{
    let callee = Callee {
        instance,
        export: 0,
    };
    let (thread, task) = match caller {
        Some(from) => w.make_call(from.thread, callee, kind, Goal::Nowhere, &[])?,
        None => w.make_call_by_main(callee, kind, Goal::Nowhere, &[])?,
    };
    Ok(QualifiedThreadId { task, thread })
}

/// Makes a call of this kind, of the first export of an instance, and answers its first thread. The thread is New, at the first op
/// of its start script, with registers 0; the call is interesting, and its result goes nowhere. It is of the group of the caller's
/// call, or of a new one where it has no caller. Refused with trap 18 exactly where its entries, 3 or 4 with the group, don't fit
/// into the table, and then nothing is changed. If it is out of memory, the state is as before. In a trapped store all groups are
/// finished, and so a new one is finished at once. Order is kept at whatever turn, for a component in which that export has this
/// kind.
pub fn new_guest_task<W: Primitives>(
    w: &mut W,
    kind: ExportKind,
    instance: u32,
    caller: Option<QualifiedThreadId>,
) -> Result<QualifiedThreadId, TaskError>
    requires instance { IsSome (get (W.view w.old).core.instances instance) }
    requires caller { IfSome caller (λ id. IsLive (W.view w.old) id) }
    requires given { given (W.view w.old).core < 2 ^ 61 }
    ensures begins { Begins kind instance caller (W.view w.old) (fits (entries_of caller) (W.view w.old).core) result (W.view w.new) }
    ensures order { TaskKeepsOrder kind instance (W.view w.old).core (W.view w.new).core }
{
    if !w.fits(entries_for(caller)) {
        return Err(TaskError::Trap(Trap::TableFull));
    }
    let Ok(id) = make_task(w, kind, instance, caller) else {
        return Err(TaskError::NoMemory);
    };
    if w.trapped() {
        w.set_trapped();
    }
    Ok(id)
}
