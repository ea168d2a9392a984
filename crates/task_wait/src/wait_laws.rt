//! Laws of codes and keys that users of them rest on. The functions do nothing.
ghost use Rattle.std.specs.Prelude.{◌≡◌, ◌+◌, ◌*◌, ◌<◌};
ghost use Rattle.std.specs.Option.{unwrap_or};
ghost use Rattle.machine_data.specs.Statuses.{packed_status, status_code};
ghost use Rattle.task_wait.specs.Codes.{unpacked};
ghost use Rattle.task_wait.specs.Keys.{waitable_order, waiter_order};

use crate::keys::{Waitable, WaiterKey};
use machine_data::Status;

/// States that what [`Status::pack`] gives comes apart by [`unpack_callback_code`](crate::unpack_callback_code), into the status
/// and the waitable's handle, or 0 if there is none.
pub fn packed_status_unpacks(status: Status, waitable: Option<u32>)
    ensures { unpacked (packed_status status waitable) ≡ (status_code status, unwrap_or waitable 0) }
{
    // only the contract speaks of `status` and `waitable`
    let _packed = (status, waitable);
}

/// States that a callback's answer comes apart into the code and the handle that it was made of.
pub fn callback_code_unpacks(code: u32, rest: u32)
    requires { code < 16 }
    ensures { unpacked (16 * rest + code) ≡ (code, rest) }
{
    // only the contract speaks of `code` and `rest`
    let _parts = (code, rest);
}

/// States the order of waiters: by the place of the task, then of the thread, then by the thread's serial.
pub fn waiters_by_task_and_thread(a: WaiterKey, b: WaiterKey)
    ensures { ⟦<WaiterKey as Ord>⟧.cmp a b ≡ waiter_order a b }
{
    // only the contract speaks of `a` and `b`
    let _keys = (a, b);
}

/// States the order of waitables: by the kind, then by the id's place, then by its serial.
pub fn waitables_by_kind_and_id(a: Waitable, b: Waitable)
    ensures { ⟦<Waitable as Ord>⟧.cmp a b ≡ waitable_order a b }
{
    // only the contract speaks of `a` and `b`
    let _waitables = (a, b);
}
