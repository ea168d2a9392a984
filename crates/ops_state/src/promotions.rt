//! Promotions: an entry moves to switch, where none is there.
ghost use Rattle.laws_order.specs.Pieces.{KeepsOrder};
ghost use Rattle.std.specs.Prelude.{◌≡◌, ◌<◌, IsSome, is_some, true};
ghost use Rattle.ops_state.specs.Named.{IsLive};
ghost use Rattle.ops_state.specs.Promotions.{is_ready_to_begin, local_promoted, thread_promoted};
ghost use Rattle.laws_states.specs.Order.{is_open};
ghost use Rattle.machine_data.specs.Maps.{get};
ghost use Rattle.machine_data.specs.Read.{is_at};
ghost use Rattle.machine_data.specs.declared.component.Component.{Component};
ghost use Rattle.machine_data.specs.declared.records.Turn.{Turn};
ghost use Rattle.machine_rules.specs.Places.{HasPlace};
ghost use Rattle.core_primitives.specs.StateView.{on_core, thread_of};

use crate::name_calls::QualifiedThreadId;
use core_primitives::{Primitives, ThreadId};
use machine_data::{Place, Why};
use ops_guests::has_yielded;
use ops_moves::{promote, promote_unless};

// The thread's start or delivery is queued.
fn is_ready_to_begin<W: Primitives>(w: &W, thread: ThreadId) -> bool
    ensures { result ≡ is_at (thread_of (W.view w.now) thread) (W.view w.now).core is_ready_to_begin }
{
    match w.place(thread) {
        Some(Place::Ready { mark: _, why }) => !matches!(why, Why::Resumption),
        _ => false,
    }
}

// The thread's start, delivery or resumption of a yield moves to switch, unless an entry is there.
fn move_ready<W: Primitives>(w: &mut W, thread: ThreadId)
    requires live { 0 < thread_of (W.view w.old) thread }
    requires placed { HasPlace (thread_of (W.view w.old) thread) (W.view w.old).core }
    ensures { W.view w.new ≡ on_core (thread_promoted (thread_of (W.view w.old) thread)) (W.view w.old) }
{
    if is_ready_to_begin(w, thread) || has_yielded(w, thread) {
        promote_unless(w, thread);
    }
}

/// Moves a thread's start, delivery or resumption of a yield to switch, unless an entry is there. Answers whether an entry is at
/// switch afterwards. The thread has its place, and so an entry just where that says so: its item isn't in hand. Order is kept.
pub fn promote_thread_work_item<W: Primitives>(w: &mut W, thread: QualifiedThreadId) -> bool
    requires live { IsLive (W.view w.old) thread }
    requires placed { HasPlace (thread_of (W.view w.old) thread.thread) (W.view w.old).core }
    ensures answer { result ≡ is_some (W.view w.new).core.queues.switch }
    ensures moved { W.view w.new ≡ on_core (thread_promoted (thread_of (W.view w.old) thread.thread)) (W.view w.old) }
    ensures order { (c : Component) (p : Turn) → is_open p ≡ true → KeepsOrder c p (W.view w.old).core p (W.view w.new).core }
{
    move_ready(w, thread.thread);
    w.switch().is_some()
}

// The instance's first entry moves to switch, unless an entry is there.
fn move_first<W: Primitives>(w: &mut W, instance: u32)
    requires { IsSome (get (W.view w.old).core.instances instance) }
    ensures { W.view w.new ≡ on_core (local_promoted instance) (W.view w.old) }
{
    if w.switch().is_none() {
        if let Some(thread) = w.first_entry(instance) {
            promote(w, thread);
        }
    }
}

/// Moves the oldest entry of an instance at high, and else the oldest at low, to switch, unless an entry is there. Answers whether
/// an entry is at switch afterwards. Order is kept.
pub fn promote_instance_local_thread_work_item<W: Primitives>(w: &mut W, instance: u32) -> bool
    requires { IsSome (get (W.view w.old).core.instances instance) }
    ensures answer { result ≡ is_some (W.view w.new).core.queues.switch }
    ensures moved { W.view w.new ≡ on_core (local_promoted instance) (W.view w.old) }
    ensures order { (c : Component) (p : Turn) → is_open p ≡ true → KeepsOrder c p (W.view w.old).core p (W.view w.new).core }
{
    move_first(w, instance);
    w.switch().is_some()
}
