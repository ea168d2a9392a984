//! The items that are queued and taken.
ghost use Rattle.laws_order.specs.KeptOrder.{StaysInOrder, put_back};
ghost use Rattle.std.specs.Prelude.{◌≡◌, ◌≢◌, ◌<◌, Ok, Some};
ghost use Rattle.ops_state.specs.Items.{CanGet, IsItemOf, MayPut, MayQueue, Takes, in_hand, item_put, PutKeepsOrderBack, PutKeepsOrderBeside, live_why_of};
ghost use Rattle.ops_state.specs.Named.{IsLive};
ghost use Rattle.machine_data.specs.Moves.{why_of};
ghost use Rattle.machine_data.specs.Read.{next_entry};
ghost use Rattle.machine_data.specs.declared.statuses.Mark.{Mark};
ghost use Rattle.machine_data.specs.declared.records.Why.TheVariants as whys;
ghost use Rattle.machine_rules.specs.Places.{Placed};
ghost use Rattle.machine_rules.specs.Primitives.{put_at};
ghost use Rattle.core_primitives.specs.Names.{delivery_in, why_in};
ghost use Rattle.core_primitives.specs.StateView.{on_core, thread_of};
ghost use Rattle.laws_order.specs.WakesKept.{NoWakeLost};

use crate::error::TaskError;
use crate::name_calls::{QualifiedThreadId, qualified};
use core_primitives::{DeliveryId, EntryId, Primitives, StatePrimitives, ThreadId, WhyId, WorkId};
use machine_data::{Delivery, Mark, Why};
use ops_moves::{put_high, put_low, put_switch};

/// What is queued.
#[derive(Clone, Copy)]
pub enum Item {
    /// The start of a call.
    StartImplicit(QualifiedThreadId),
    /// The start of a thread that another one made.
    StartExplicit(QualifiedThreadId),
    Deliver(QualifiedThreadId, DeliveryId),
    Resume(QualifiedThreadId),
    /// A host work that becomes live.
    PushFuture(WorkId),
    /// A call of a host that has ended.
    FinishHost(WorkId),
}

// A thread without an entry gets one.
fn put<W: Primitives>(w: &mut W, thread: ThreadId, mark: Mark, why: WhyId)
    requires live { 0 < thread_of (W.view w.old) thread }
    requires may { MayPut mark (thread_of (W.view w.old) thread) (why_in (W.view w.old).tags why) (W.view w.old).core }
    ensures { W.view w.new ≡ on_core (put_at mark (thread_of (W.view w.old) thread) (why_in (W.view w.old).tags why)) (W.view w.old) }
{
    match mark {
        Mark::Switch => put_switch(w, thread, why),
        Mark::High => put_high(w, thread, why),
        Mark::Low => put_low(w, thread, why),
    }
}

// The item's entry comes to the mark.
fn put_item<W: Primitives + StatePrimitives>(w: &mut W, item: Item, mark: Mark)
    requires { MayQueue mark item (W.view w.old) }
    ensures { W.view w.new ≡ on_core (item_put (W.view w.old).tags mark item) (W.view w.old) }
{
    match item {
        Item::StartImplicit(id) => put(w, id.thread, mark, WhyId::Start),
        Item::StartExplicit(id) => put(w, id.thread, mark, WhyId::Start),
        Item::Deliver(id, delivery) => put(w, id.thread, mark, WhyId::Delivery(delivery)),
        Item::Resume(id) => put(w, id.thread, mark, WhyId::Resumption),
        Item::PushFuture(work) => w.push_work(work),
        Item::FinishHost(work) => w.push_host(work),
    }
}

/// Queues an item that is nowhere, at the end of its mark; what was at switch goes to the front of high. A start is of a thread
/// that is New, and a delivery or a resumption of one that isn't and that isn't kept back. A work's item comes to high. It is the
/// machine's Put, and is never refused. Order is kept where the thread's place is one from which it may get that entry: at switch,
/// only while a thread runs. Where the item was in hand, and is no start, it is out of hand then.
pub fn push_work_item<W: Primitives + StatePrimitives>(
    w: &mut W,
    item: Item,
    mark: Mark,
) -> Result<(), TaskError>
    requires { MayQueue mark item (W.view w.old) }
    ensures answer { result ≡ Ok tt }
    ensures put { W.view w.new ≡ on_core (item_put (W.view w.old).tags mark item) (W.view w.old) }
    ensures order { mark ≢ Mark.Switch → CanGet item (W.view w.old) → StaysInOrder (W.view w.old).core (W.view w.new).core }
    ensures beside { PutKeepsOrderBeside mark item (W.view w.old) (W.view w.new) }
    ensures back { PutKeepsOrderBack mark item (W.view w.old) (W.view w.new) }
{
    put_item(w, item, mark);
    Ok(())
}

// The start of a thread.
fn start_of<W: Primitives>(w: &W, id: QualifiedThreadId) -> Item
    requires live { IsLive (W.view w.now) id }
    requires why { why_of (thread_of (W.view w.now) id.thread) (W.view w.now).core ≡ whys.Start }
    ensures { IsItemOf (W.view w.now) (thread_of (W.view w.now) id.thread) result }
{
    if w.is_explicit(id.thread) {
        Item::StartExplicit(id)
    } else {
        Item::StartImplicit(id)
    }
}

// What the thread's delivery is for.
fn delivery_of<W: Primitives>(w: &W, thread: ThreadId, delivery: Delivery) -> DeliveryId
    requires { why_of (thread_of (W.view w.now) thread) (W.view w.now).core ≡ whys.Delivery delivery }
    ensures { whys.Delivery (delivery_in (W.view w.now).tags result) ≡ live_why_of (thread_of (W.view w.now) thread) (W.view w.now).core }
{
    match delivery {
        Delivery::Yield => DeliveryId::Yield,
        Delivery::Cancel => DeliveryId::Cancel,
        Delivery::Set { set: _ } => match w.delivered_set(thread) {
            Some(set) => DeliveryId::Set(set),
            None => unreachable!(),
        },
    }
}

// The item of a thread that is queued.
fn item_of<W: Primitives>(w: &W, thread: ThreadId) -> Item
    requires { 0 < thread_of (W.view w.now) thread }
    ensures { IsItemOf (W.view w.now) (thread_of (W.view w.now) thread) result }
{
    let id = qualified(w, thread);
    match w.why(thread) {
        Why::Start => start_of(w, id),
        Why::Delivery { delivery } => Item::Deliver(id, delivery_of(w, thread, delivery)),
        Why::Resumption => Item::Resume(id),
    }
}

// The next item is taken.
fn take_next<W: Primitives>(w: &mut W) -> Option<(Mark, Item)>
    requires { Placed (W.view w.old).core }
    ensures { Takes (W.view w.old) (next_entry (W.view w.old).core) result (W.view w.new) }
{
    w.none_is_zero();
    let Some((mark, entry)) = w.next_entry() else {
        return None;
    };
    let item = match entry {
        EntryId::Thread(thread) => item_of(w, thread),
        EntryId::Push(work) => Item::PushFuture(work),
        EntryId::Host(work) => Item::FinishHost(work),
    };
    w.pop(mark);
    Some((mark, item))
}

/// Takes the item that is at switch, else the first at high, else the first at low; none exactly where nothing is there. No item
/// that was taken before is still in hand: each thread has its place. A thread whose item is in hand counts as ready, and so no
/// wake is lost by it. With the item put back the core is as it was: one that was in order is so with that item in hand.
pub fn take_item<W: Primitives>(w: &mut W) -> Option<(Mark, Item)>
    requires { Placed (W.view w.old).core }
    ensures taken { Takes (W.view w.old) (next_entry (W.view w.old).core) result (W.view w.new) }
    ensures wakes { NoWakeLost (W.view w.old).core → NoWakeLost (W.view w.new).core }
    ensures order { put_back (in_hand (W.view w.old).tags result) (W.view w.new).core ≡ (W.view w.old).core }
{
    take_next(w)
}
