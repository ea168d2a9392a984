use std::alloc::Global;
use std::process::Abort;
use store_notices::{GroupsBefore, tell_at_once, tell_finishes, tell_moves};
use task_group::{Listeners, NoHook, NoticeKind, Notices};

// A letter for what happened: Start, Enter, eXit, Finish.
fn letter(kind: NoticeKind) -> u8 {
    match kind {
        NoticeKind::Start => b's',
        NoticeKind::Enter => b'e',
        NoticeKind::Exit => b'x',
        NoticeKind::Finish => b'f',
    }
}

// So many notices were kept, and the last of them is this one of a group.
fn last(rt: &impl Abort, listeners: &Listeners<NoHook>, count: usize, group: u64, kind: u8) {
    assert!(rt; listeners.notices().len() == count);
    assert!(rt; last_of(listeners.notices()) == (group, kind));
}

// The group and the letter of the last notice.
fn last_of(notices: Notices<'_>) -> (u64, u8) {
    let mut last = (0, 0);
    for notice in notices {
        last = (notice.group, letter(notice.kind));
    }
    last
}

// Listeners without a hook, which keep so many notices.
fn keeping(rt: &impl Abort, alloc: Global, room: usize) -> Listeners<NoHook> {
    let mut listeners: Listeners<NoHook> = Listeners::new(alloc);
    assert!(rt; listeners.keep_notices(room).is_ok());
    listeners
}

#[test]
fn a_notice_is_told_at_once_where_that_is_all(rt: HostRuntime) {
    let mut listeners = keeping(&rt, rt.alloc(), 6);
    assert!(&rt;
        tell_at_once(
            &mut listeners,
            &GroupsBefore {
                running: 0,
                worked: None
            },
            1
        )
    );
    last(&rt, &listeners, 1, 1, b'e');
    assert!(&rt;
        !tell_at_once(
            &mut listeners,
            &GroupsBefore {
                running: 1,
                worked: None
            },
            2
        )
    );
    last(&rt, &listeners, 1, 1, b'e');
    assert!(&rt;
        tell_at_once(
            &mut listeners,
            &GroupsBefore {
                running: 1,
                worked: None
            },
            1
        )
    );
    last(&rt, &listeners, 1, 1, b'e');
    assert!(&rt;
        tell_at_once(
            &mut listeners,
            &GroupsBefore {
                running: 1,
                worked: None
            },
            0
        )
    );
    last(&rt, &listeners, 2, 1, b'x');
    assert!(&rt;
        !tell_at_once(
            &mut listeners,
            &GroupsBefore {
                running: 0,
                worked: Some(2)
            },
            1
        )
    );
    assert!(&rt;
        tell_at_once(
            &mut listeners,
            &GroupsBefore {
                running: 0,
                worked: Some(2)
            },
            0
        )
    );
    last(&rt, &listeners, 4, 2, b'x');
}

#[test]
fn steps_are_told(rt: HostRuntime) {
    let mut listeners = keeping(&rt, rt.alloc(), 8);
    assert!(&rt;
        tell_moves(
            &mut listeners,
            &GroupsBefore {
                running: 1,
                worked: None
            },
            2
        )
        .is_ok()
    );
    last(&rt, &listeners, 2, 2, b'e');
    assert!(&rt;
        tell_moves(
            &mut listeners,
            &GroupsBefore {
                running: 2,
                worked: None
            },
            0
        )
        .is_ok()
    );
    last(&rt, &listeners, 3, 2, b'x');
    assert!(&rt;
        tell_moves(
            &mut listeners,
            &GroupsBefore {
                running: 0,
                worked: Some(1)
            },
            0
        )
        .is_ok()
    );
    last(&rt, &listeners, 5, 1, b'x');
    assert!(&rt; tell_finishes(&mut listeners, &[1, 2]).is_ok());
    last(&rt, &listeners, 7, 2, b'f');
}
