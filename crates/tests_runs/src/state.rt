use core_primitives::{QueuePrimitives, ResultPrimitives, View, WantedId};
use core_state::TaskCore;

#[test]
fn nothing_is_in_a_new_core_which_has_its_limits(rt: HostRuntime) {
    let mut core = TaskCore::new(rt.alloc());
    assert!(rt; core.next_entry().is_none() && core.used() == 0);
    core.set_capacity(4);
    assert!(rt; core.fits(4) && !core.fits(5));
    assert!(rt; core.capacity() == 4);
    assert!(rt; core.parts().capacity == 4);
    core.set_handle_limit(7);
    assert!(rt; core.handle_limit() == 7);
    core.set_current(None);
    assert!(rt; core.current().is_none());
    assert!(rt; core.result(1).is_none());
    core.count_ended();
    assert!(rt; !core.has_ended());
    assert!(rt; core.ended().is_empty());
    core.forget_ended();
    assert!(rt; !core.has_ended());
    core.want(WantedId {
        waiter: None,
        member: None,
        held: Vec::new(rt.alloc()),
    });
    assert!(rt; core.next_entry().is_none());
    core.set_trapped();
    assert!(rt; core.trapped());
}
