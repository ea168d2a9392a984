//! The order in which threads begin to wait or to be held.
ghost use Rattle.std.specs.Prelude.{◌≡◌, IfSome, IsSome, true};
ghost use Rattle.machine_data.specs.Write.{arrive, counted_arrival};
ghost use Rattle.machine_data.specs.declared.scenario.Version.TheVariants as versions;
ghost use Rattle.core_picks.specs.Arrived.{ComesAt, Rekeys};
ghost use Rattle.table_links.specs.Links.{is_made, link_of, list_of};
ghost use Rattle.core_records.specs.Seen.{IsSoundCore, seen};
ghost use Rattle.core_primitives.specs.StateView.{on_core, thread_of};

use core_primitives::ThreadId;
use core_records::{CoreParts, GuestThread, Node, Single};
use machine_data::Version;
use table_lists::{OrderKey, OrderedLists};
use table_records::RecordTable;

// One more has come: the count stays at the end of its type.
fn later(arrivals: u64) -> u64
    ensures { result ≡ counted_arrival versions.Two arrivals }
{
    if arrivals < u64::MAX {
        arrivals + 1
    } else {
        arrivals
    }
}

// The record of the thread has when it came.
fn write_arrival(threads: &mut RecordTable<Single<GuestThread>>, id: ThreadId, arrival: u64)
    ensures { ComesAt arrival id threads.old threads.new }
{
    if let Ok(entry) = threads.get_mut(id) {
        entry.thread.came = arrival;
    }
}

// The node keeps its chain, if it is in one, under another order key.
fn rekey(places: &mut OrderedLists, node: Node, order_key: OrderKey)
    requires made { is_made places.old node.index ≡ true }
    requires live { IfSome (link_of places.old node.index) (λ l. IsSome (list_of places.old l.0)) }
    ensures { Rekeys places.old places.new node.index order_key (link_of places.old node.index) }
{
    match places.get(node) {
        Some((chain, _)) => places.file(node, chain, order_key),
        None => {}
    }
}

// The thread comes after all that wait or are held. Where it is filed itself, which is seldom, it is filed anew.
#[inline(never)]
fn arrive_last(parts: &mut CoreParts, thread: ThreadId)
    requires sound { IsSoundCore parts.old }
    requires second { parts.old.version ≡ versions.Two }
    ensures sound { IsSoundCore parts.new }
    ensures new { seen parts.new ≡ on_core (arrive (thread_of (seen parts.old) thread)) (seen parts.old) }
{
    let arrival = parts.arrivals;
    parts.arrivals = later(arrival);
    if let Some(found) = core_records::thread(parts, thread) {
        let node = found.node;
        let order_key = OrderKey {
            task: arrival,
            thread: 0,
            place: thread.rep(),
        };
        write_arrival(&mut parts.threads, thread, arrival);
        rekey(&mut parts.places, node, order_key);
    }
}

/// Makes the thread, which is about to wait or to be held, the last of all that wait or are held. In version 1, where these go by
/// their places, nothing is done.
#[inline(always)]
pub fn arrive(parts: &mut CoreParts, thread: ThreadId)
    requires { IsSoundCore parts.old }
    ensures sound { IsSoundCore parts.new }
    ensures new { seen parts.new ≡ on_core (arrive (thread_of (seen parts.old) thread)) (seen parts.old) }
{
    match parts.version {
        Version::One => {}
        Version::Two => arrive_last(parts, thread),
    }
}
