use core_records::{ResultRoom, ResultRooms};

// Writes what is in a room that is there, and whether its call is.
fn write(rooms: &mut ResultRooms, call: u64, given: Option<u64>, lives: bool) {
    if rooms.room(call).is_some() {
        rooms.write(call, ResultRoom { given, lives });
    }
}

#[test]
fn a_result_is_kept_until_it_is_taken(rt: HostRuntime) {
    let mut rooms = ResultRooms::new(rt.alloc());
    assert!(rt; rooms.result(4).is_none());
    assert!(rt; rooms.make(4).is_ok());
    assert!(rt; rooms.room(4).is_some() && rooms.result(4).is_none());
    assert!(rt; written(&mut rooms, Some(7), true) == 7);
    assert!(rt; written(&mut rooms, Some(7), false) == 7);
    write(&mut rooms, 4, None, false);
    assert!(rt; rooms.room(4).is_none());
}

// The result of call 4 once this is written, or 0.
fn written(rooms: &mut ResultRooms, given: Option<u64>, lives: bool) -> u64 {
    write(rooms, 4, given, lives);
    match rooms.result(4) {
        Some(result) => result,
        None => 0,
    }
}
