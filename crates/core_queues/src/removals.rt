//! Entries that leave their marks.
ghost use Rattle.std.specs.Prelude.{◌≡◌};
ghost use Rattle.table_links.specs.Links.{IsLinks};
ghost use Rattle.machine_data.specs.Moves.{unqueued};
ghost use Rattle.machine_data.specs.declared.statuses.Mark.TheVariants as marks;
ghost use Rattle.core_records.specs.Rows.{IsKeyed};
ghost use Rattle.core_records.specs.Seen.{IsSoundCore, parts_of, seen};
ghost use Rattle.core_records.specs.Sound.{bare};
ghost use Rattle.machine_rules.specs.Takes.{popped};
ghost use Rattle.core_primitives.specs.StateView.{on_core, thread_of};
ghost use Rattle.core_queues.specs.OrderKeys.{RowsAre, left};

use crate::order_keys::{entry_of, first_marked};
use core_primitives::ThreadId;
use core_records::{CoreParts, Queued};
use machine_data::Mark;

// The entry's nodes leave the chains that they are in.
#[inline(always)]
pub(crate) fn leave(parts: &mut CoreParts, queued: Queued)
    requires sound { IsSoundCore parts.old }
    requires keyed { IsKeyed (bare (parts_of parts.old)) queued }
    ensures rows { RowsAre (bare (parts_of parts.old)) parts.new.marks parts.new.instance_queues (left (bare (parts_of parts.old)) queued) }
    ensures rest { parts.new ≡ (record parts.old { marks = parts.new.marks; instance_queues = parts.new.instance_queues }) }
    ensures links { IsLinks parts.old.marks }
{
    parts.marks.no_node_is_twice();
    parts.marks.remove(queued.mark);
    if queued.instance.is_some() {
        parts.instance_queues.no_node_is_twice();
        parts.instance_queues.remove(queued.instance_queue);
    }
}

/// Removes the thread's entry from high, or else from low.
pub fn unqueue(parts: &mut CoreParts, thread: ThreadId)
    requires { IsSoundCore parts.old }
    ensures sound { IsSoundCore parts.new }
    ensures new { seen parts.new ≡ on_core (unqueued (thread_of (seen parts.old) thread)) (seen parts.old) }
{
    if let Some(found) = core_records::thread(parts, thread) {
        let queued = entry_of(thread.rep(), *found);
        leave(parts, queued);
    }
}

fn pop_high(parts: &mut CoreParts)
    requires { IsSoundCore parts.old }
    ensures sound { IsSoundCore parts.new }
    ensures new { seen parts.new ≡ on_core (popped marks.High) (seen parts.old) }
{
    let chain = parts.high;
    if let Some(queued) = first_marked(&parts.marks, chain) {
        leave(parts, queued);
    }
}

fn pop_low(parts: &mut CoreParts)
    requires { IsSoundCore parts.old }
    ensures sound { IsSoundCore parts.new }
    ensures new { seen parts.new ≡ on_core (popped marks.Low) (seen parts.old) }
{
    let chain = parts.low;
    if let Some(queued) = first_marked(&parts.marks, chain) {
        leave(parts, queued);
    }
}

/// Removes the first entry of the mark.
#[inline(always)]
pub fn pop(parts: &mut CoreParts, mark: Mark)
    requires { IsSoundCore parts.old }
    ensures sound { IsSoundCore parts.new }
    ensures new { seen parts.new ≡ on_core (popped mark) (seen parts.old) }
{
    match mark {
        Mark::Switch => {
            parts.switch = None;
        }
        Mark::High => pop_high(parts),
        Mark::Low => pop_low(parts),
    }
}
