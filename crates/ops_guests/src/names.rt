//! What the handles of an instance name.
ghost use Rattle.std.specs.Prelude.{◌≡◌, ◌<◌, ◌^◌, IfSome};
ghost use Rattle.machine_data.specs.Read.{set_at};
ghost use Rattle.ops_guests.specs.Running.{SetsThere};
ghost use Rattle.core_primitives.specs.StateView.{set_of, set_if_any};

use core_primitives::{Primitives, SetId};

/// Returns the set that a handle names, where each such set is there.
pub fn set_named<W: Primitives>(w: &W, instance: u32, handle: u64) -> Option<SetId>
    requires { SetsThere (W.view w.now).core }
    ensures is { set_if_any (W.view w.now) result ≡ set_at instance handle (W.view w.now).core }
    ensures live { IfSome result (λ id. 0 < set_of (W.view w.now) id) }
    ensures small { IfSome result (λ id. handle < 2 ^ 32) }
{
    w.none_is_zero();
    w.set_at(instance, handle)
}
