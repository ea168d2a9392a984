//! The withdrawal of a start.
ghost use Rattle.ops_subtasks.specs.Starts.{taken_out};
ghost use Rattle.ops_subtasks.specs.Named.{WithdrawsCall};
ghost use Rattle.std.specs.Prelude.{◌≡◌, ◌<◌, None, false, true};
ghost use Rattle.machine_data.specs.Moves.{less_switch, withdrawn};
ghost use Rattle.machine_data.specs.Read.{place_of};
ghost use Rattle.machine_rules.specs.Places.{HasPlace, is_fresh};
ghost use Rattle.core_primitives.specs.StateView.{call_of, thread_of};

use core_primitives::{CallId, Primitives, ThreadId};
use machine_data::CallEnd;

// Whether the thread's entry is at switch.
fn is_switched<W: Primitives>(w: &W, thread: ThreadId) -> bool
    ensures yes { result ≡ true → less_switch (thread_of (W.view w.now) thread) (W.view w.now).core.queues.switch ≡ None }
    ensures no { result ≡ false → less_switch (thread_of (W.view w.now) thread) (W.view w.now).core.queues.switch ≡ (W.view w.now).core.queues.switch }
{
    match w.switch() {
        Some(other) => w.number(thread) == w.number(other),
        None => false,
    }
}

// The thread's entry is gone, wherever it is.
fn take_out<W: Primitives>(w: &mut W, thread: ThreadId)
    ensures { W.view w.new ≡ taken_out thread (W.view w.old) }
{
    let switched = is_switched(w, thread);
    w.unqueue(thread);
    if switched {
        w.set_switch(None);
    }
}

// The start of the call's first thread is withdrawn, wherever it is.
#[tactic(auto, unfolding(machine_data::specs::Moves::withdrawn))]
pub(crate) fn withdraw<W: Primitives>(w: &mut W, call: CallId, first: ThreadId)
    requires live { 0 < call_of (W.view w.old) call }
    requires first { thread_of (W.view w.old) first ≡ call_of (W.view w.old) call }
    requires place { HasPlace (call_of (W.view w.old) call) (W.view w.old).core }
    requires fresh { is_fresh (place_of (call_of (W.view w.old) call) (W.view w.old).core) ≡ true }
    ensures { WithdrawsCall call (W.view w.old) (W.view w.new) }
{
    take_out(w, first);
    w.remove_thread(first);
    w.set_end(call, CallEnd::StartCancelled);
    w.set_exited(call);
    w.set_uninteresting(call);
}
