use core_lists::{held_by_counter, held_by_flag, some_held_by_flag};
use core_state::TaskCore;

#[test]
fn a_new_core_holds_no_thread(rt: HostRuntime) {
    let alloc = rt.alloc();
    let core = TaskCore::new(alloc);
    let mut threads = Vec::new(alloc);
    assert!(rt; held_by_flag(&core, 0, &mut threads).is_ok());
    assert!(rt; held_by_counter(&core, 0, &mut threads).is_ok());
    assert!(rt; threads.is_empty());
    assert!(rt; !some_held_by_flag(&core, 0));
}
