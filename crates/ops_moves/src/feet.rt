//! The foot of a strand.
ghost use Rattle.std.specs.Prelude.{◌≡◌, ◌<◌, None};
ghost use Rattle.machine_data.specs.Read.{foot_of, under_of};
ghost use Rattle.core_primitives.specs.StateView.{thread_of};

use core_primitives::{Primitives, ThreadId};

// Walks down a strand, in a function of its own, since most threads are their strand's foot.
#[tactic(auto, using(crate::proofs::FootLemmas::foot_at), unfolding(machine_data::specs::Read::foot_of))]
#[inline(never)]
fn way_down<W: Primitives>(w: &W, thread: ThreadId) -> ThreadId
    requires { 0 < thread_of (W.view w.now) thread }
    ensures is { thread_of (W.view w.now) result ≡ foot_of (thread_of (W.view w.now) thread) (W.view w.now).core }
    ensures live { 0 < thread_of (W.view w.now) result }
{
    let mut foot = thread;
    for step in 0..w.threads() {
        let Some(below) = w.under(foot) else {
            return foot;
        };
        foot = below;
        // the loop counts its steps, so that it ends
        let _ = step;
    }
    foot
}

/// Returns the foot of a thread's strand.
#[tactic(auto, using(crate::proofs::FootLemmas::foot_at), unfolding(machine_data::specs::Read::foot_of))]
#[inline(always)]
pub fn foot_of<W: Primitives>(w: &W, thread: ThreadId) -> ThreadId
    requires { 0 < thread_of (W.view w.now) thread }
    ensures is { thread_of (W.view w.now) result ≡ foot_of (thread_of (W.view w.now) thread) (W.view w.now).core }
    ensures live { 0 < thread_of (W.view w.now) result }
{
    match w.under(thread) {
        None => thread,
        Some(_) => way_down(w, thread),
    }
}

/// Returns the foot of the strand of a thread that nobody is under: the thread itself, with no look at its record.
#[inline(always)]
pub fn own_foot<W: Primitives>(w: &W, thread: ThreadId) -> ThreadId
    requires live { 0 < thread_of (W.view w.now) thread }
    requires bottom { under_of (thread_of (W.view w.now) thread) (W.view w.now).core ≡ None }
    ensures is { thread_of (W.view w.now) result ≡ foot_of (thread_of (W.view w.now) thread) (W.view w.now).core }
    ensures live { 0 < thread_of (W.view w.now) result }
{
    // only the contract speaks of `w`
    let _w = w;
    thread
}
