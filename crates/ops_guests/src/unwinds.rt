//! A trap: the strand that ran is gone, and the store is trapped.
ghost use Rattle.std.specs.Prelude.{◌≡◌, ◌<◌};
ghost use Rattle.machine_data.specs.Read.{strand_of};
ghost use Rattle.machine_data.specs.Write.{remove_threads};
ghost use Rattle.ops_guests.specs.Running.{IsTopmost};
ghost use Rattle.ops_guests.specs.Works.{KeepsTold};
ghost use Rattle.machine_rules.specs.Step.{unwound};
ghost use Rattle.core_primitives.specs.StateView.{thread_of};

use core_primitives::{Primitives, ThreadId};

// The threads of a strand are gone, from its top down.
fn remove_strand<W: Primitives>(w: &mut W, thread: ThreadId)
    requires live { 0 < thread_of (W.view w.old) thread }
    requires top { IsTopmost (thread_of (W.view w.old) thread) (W.view w.old).core }
    ensures core { (W.view w.new).core ≡ remove_threads (strand_of (thread_of (W.view w.old) thread) (W.view w.old).core) (W.view w.old).core }
    ensures current { (W.view w.new).current ≡ (W.view w.old).current }
    ensures works { KeepsTold (W.view w.old) (W.view w.new) }
{
    let mut top = thread;
    loop {
        let below = w.under(top);
        w.remove_thread(top);
        let Some(next) = below else {
            return;
        };
        top = next;
    }
}

/// Unwinds the thread's strand, traps the store and finishes all groups.
#[tactic(auto, unfolding(machine_rules::specs::Step::unwound))]
pub fn unwind_thread<W: Primitives>(w: &mut W, thread: ThreadId)
    requires live { 0 < thread_of (W.view w.old) thread }
    requires top { IsTopmost (thread_of (W.view w.old) thread) (W.view w.old).core }
    ensures core { (W.view w.new).core ≡ unwound (thread_of (W.view w.old) thread) (W.view w.old).core }
    ensures current { (W.view w.new).current ≡ (W.view w.old).current }
    ensures works { KeepsTold (W.view w.old) (W.view w.new) }
{
    remove_strand(w, thread);
    w.set_trapped();
}
