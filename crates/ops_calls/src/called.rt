//! The host that the running thread's op is about to call.
ghost use Rattle.std.specs.Prelude.{◌≡◌, Some, option_map};
ghost use Rattle.machine_data.specs.declared.records.Turn.TheVariants as turns;
ghost use Rattle.ops_turns.specs.Turn.{CoreInOrder, running_of};
ghost use Rattle.ops_calls.specs.HostOps.{polled_here};

use core_primitives::Primitives;
use machine_data::{Component, HostDef};
use ops_dispatch::{called_host, op_at, script_ops};

/// Returns the host that the op of the running thread, which has this number, polls first, with its place in the component. None if
/// the op calls no host, and where its call is under way.
#[inline(never)]
pub fn host_called<W: Primitives>(
    component: &Component,
    w: &W,
    number: u64,
) -> Option<(u32, HostDef)>
    requires order { CoreInOrder component.now (turns.Run number) (W.view w.now).core }
    requires runs { running_of (W.view w.now) ≡ Some number }
    ensures { option_map (λ h. h.1) result ≡ polled_here component.now number (W.view w.now).core }
{
    // only the contract speaks of `number`
    let _number = number;
    w.none_is_zero();
    let Some(thread) = w.current() else {
        unreachable!()
    };
    let point = w.at(thread);
    let body = script_ops(component, point.callee, point.script);
    let op = op_at(body, point.position);
    called_host(component, w, thread, op)
}
