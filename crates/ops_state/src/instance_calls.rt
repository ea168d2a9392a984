//! What a host reads of an instance.
ghost use Rattle.std.specs.Prelude.{◌≡◌};
ghost use Rattle.ops_state.specs.Instances.{instance_state};
ghost use Rattle.ops_state.specs.declared.instance_calls.ConcurrentInstanceState.{ConcurrentInstanceState};

use core_primitives::{Primitives, StatePrimitives};

/// What a host may know of an instance.
#[derive(Clone, Copy)]
pub struct ConcurrentInstanceState {
    pending_is_empty: bool,
    backpressure: u16,
    do_not_enter: bool,
    do_not_suspend: bool,
}

impl ConcurrentInstanceState {
    /// Returns whether no thread of the instance is held: then nobody waits to be let in.
    pub fn pending_is_empty(&self) -> bool
        ensures { result ≡ self.now.pending_is_empty }
    {
        self.pending_is_empty
    }

    /// Returns how often entries of the instance are asked to wait; 0 where they needn't. A guest raises it as long as it has enough
    /// to do, so that further calls don't take memory of its own.
    pub fn backpressure(&self) -> u16
        ensures { result ≡ self.now.backpressure }
    {
        self.backpressure
    }

    /// Returns whether an entry of the instance holds it. As long as one does no other comes in, since the guest's code would find its
    /// data half changed.
    pub fn do_not_enter(&self) -> bool
        ensures { result ≡ self.now.do_not_enter }
    {
        self.do_not_enter
    }

    /// Returns whether the instance may not block. A sync call has promised its caller to end without a pause.
    pub fn do_not_suspend(&self) -> bool
        ensures { result ≡ self.now.do_not_suspend }
    {
        self.do_not_suspend
    }
}

/// Returns the instance of this number, as it is; none exactly where there is no such instance.
pub fn instance<W: Primitives + StatePrimitives>(
    w: &W,
    index: u32,
) -> Option<ConcurrentInstanceState>
    ensures { result ≡ instance_state index (W.view w.now).core }
{
    if !w.has_instance(index) {
        return None;
    }
    Some(ConcurrentInstanceState {
        pending_is_empty: !w.has_held(index),
        backpressure: w.backpressure(index),
        do_not_enter: w.may_not_enter(index),
        do_not_suspend: w.may_not_suspend(index),
    })
}
