//! The waiting threads of calls: where a cancel may take any of these they are filed beside the waiters of sets.
ghost use Rattle.std.specs.Prelude.{◌≡◌, Ok, Some};
ghost use Rattle.core_places.specs.Waits.{MayRefile, RefilesWait, filing_at, wait_filing};
ghost use Rattle.core_records.specs.Kinds.{item_of};
ghost use Rattle.core_records.specs.Seen.{IsSoundCore};
ghost use Rattle.task_table.specs.TableAnswers.{item_at};

use crate::moves::{member_order_key, refresh_key};
use core_primitives::ThreadId;
use core_records::{CoreParts, GuestThread, Node};
use machine_data::Place;
use table_lists::{OrderKey, OrderedLists};
use task_wait::GuestTaskKey;

/// What a thread is to be among the waiting ones of its call: its node there, the chain if it waits from now on, and its order key.
#[derive(Clone, Copy)]
pub(crate) struct WaitFiling {
    pub node: Node,
    pub chain: Option<usize>,
    pub order_key: OrderKey,
}

// What a thread that has this node is to be among the waiting ones of its call. It isn't inlined: few threads have one.
#[inline(never)]
fn filing_for(
    parts: &CoreParts,
    id: ThreadId,
    thread: &GuestThread,
    node: Node,
    to: &Place,
) -> WaitFiling
    requires sound { IsSoundCore parts.now }
    requires there { Ok thread.now ≡ item_at item_of parts.now.threads id.rep id.serial }
    ensures { result ≡ filing_at parts.now id.rep thread.now to.now node }
{
    let order_key = member_order_key(thread.entry, id.rep());
    match to {
        Place::Waiting { .. } => WaitFiling {
            node,
            chain: parts.calls.there::<GuestTaskKey>(thread.task).waits,
            order_key,
        },
        _ => WaitFiling {
            node,
            chain: None,
            order_key,
        },
    }
}

/// Returns what the thread is to be among the waiting ones of its call, at this place from now on. Few threads have a node there.
#[inline(always)]
pub(crate) fn wait_filing(
    parts: &CoreParts,
    id: ThreadId,
    thread: &GuestThread,
    to: &Place,
) -> Option<WaitFiling>
    requires sound { IsSoundCore parts.now }
    requires there { Ok thread.now ≡ item_at item_of parts.now.threads id.rep id.serial }
    ensures { result ≡ wait_filing parts.now id.rep thread.now to.now }
{
    match thread.wait {
        Some(node) => Some(filing_for(parts, id, thread, node, to)),
        None => None,
    }
}

// Files a thread that has a node among the waiting ones of its call. It isn't inlined, as few threads have one.
#[inline(never)]
fn refile(waits: &mut OrderedLists, filing: WaitFiling)
    requires { MayRefile waits.old (Some filing) }
    ensures { RefilesWait waits.old waits.new (Some filing) }
{
    refresh_key(waits, filing.node, filing.chain, filing.order_key);
}

/// Files the thread as it is to be among the waiting ones of its call.
#[inline(always)]
pub(crate) fn refile_wait(waits: &mut OrderedLists, wait: Option<WaitFiling>)
    requires { MayRefile waits.old wait }
    ensures { RefilesWait waits.old waits.new wait }
{
    if let Some(filing) = wait {
        refile(waits, filing);
    }
}
