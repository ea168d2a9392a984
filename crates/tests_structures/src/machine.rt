use machine_data::{Label, Seq, Trap};

#[test]
fn a_label_has_32_bytes(rt: HostRuntime) {
    assert!(rt; size_of::<Label>() == 32);
}

#[test]
fn traps_are_numbered_from_1(rt: HostRuntime) {
    assert!(rt; Trap::TaskCancelOrReturnTwice.number() == 1);
    assert!(rt; Trap::AsyncDeadlock.number() == 15);
    assert!(rt; Trap::TableHasChildren.number() == 25);
}

#[test]
fn a_list_is_a_vector_without_its_room(rt: HostRuntime) {
    let mut list: Seq<u8> = Seq::new(rt.alloc());
    assert!(rt; list.push(7).is_ok() && list.push(9).is_ok());
    assert!(rt; list.len() == 2 && list.as_slice() == [7, 9].as_slice());
    let list = Seq::from_vec(list.into_vec());
    assert!(rt; list.as_slice() == [7, 9].as_slice());
}
