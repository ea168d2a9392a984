//! What the groups of a run are told.
use std::alloc::Global;
use std::process::Abort;
use task_loop::{NoticeKind, Notices};
use task_run::run_scenario;

// The notices as text: a letter for what happened (start, enter, exit, finish) and a digit for each.
fn written(rt: &impl Abort, alloc: Global, notices: Notices<'_>) -> Vec<u8> {
    let mut text = Vec::new(alloc);
    for notice in notices {
        assert!(rt; notice.group < 10);
        let letter = match notice.kind {
            NoticeKind::Start => b's',
            NoticeKind::Enter => b'e',
            NoticeKind::Exit => b'x',
            NoticeKind::Finish => b'f',
        };
        assert!(rt; text.push(letter).is_ok());
        assert!(rt; text.push(b'0' + notice.group as u8).is_ok());
    }
    text
}

// The run of the text tells its groups this.
fn tells(rt: &impl Abort, alloc: Global, text: &[u8], told: &[u8]) {
    assert!(rt; text.len() <= 1_048_576);
    let Ok(report) = run_scenario(alloc, text, 200) else {
        panic!(rt; "a report")
    };
    let text = written(rt, alloc, report.groups.notices());
    assert!(rt; text.as_slice() == told);
}

// A call starts and finishes its group.
const STARTED: &[u8] =
    b"scenario 1\nhandles 100000\ntable 1000000\nidle trap\ninstance a\nexport f callback 1\nret r0\nexit\nmain\nstart a.f 7\nfinish 1 r0\nanswer r0\nend\n";

// A refused start finishes all groups.
const REFUSED: &[u8] =
    b"scenario 1\nhandles 100000\ntable 7\nidle trap\ninstance a\nexport f callback 0\nret 1\nexit\nmain\nstart a.f\nstart a.f\nstart a.f\nfinish 1 r0\nanswer r0\nend\n";

// A trap leaves the running group and finishes all.
const TRAPPED: &[u8] =
    b"scenario 1\nhandles 100000\ntable 1000000\nidle trap\ninstance a\nexport f callback 0\nbp_dec\nmain\nstart a.f\nstart a.f\nfinish 1 r0\nanswer r0\nend\n";

// Calls of hosts are entered around their polls.
const POLLED: &[u8] =
    b"scenario 1\nhandles 100000\ntable 1000000\nidle trap\nhost h0 polls 0 value 5\nhost h2 polls 2 value 9\ninstance a\nexport f callback 0\ncall r3 r8 h0\nset_new r4\ncall r5 r9 h2\njoin 2 r4\ncb_wait r4\nreact\nret r9\nexit\nmain\nstart a.f\nfinish 1 r0\nanswer r0\nend\n";

// Another group's subtask is dropped.
const DROPPED: &[u8] =
    b"scenario 1\nhandles 100000\ntable 1000000\nidle trap\nhost h polls 1 value 5\ninstance a\nexport f callback 0\ncall r3 r8 h\nret 0\nexit\nexport g stackful 0\nset_new r3\njoin 1 r3\nwait r4 r3\ndrop 1\nret 0\nexit\nmain\nstart a.f\nfinish 1 r0\nstart a.g\nfinish 2 r0\nanswer r0\nend\n";

// Held starts tell nothing.
const HELD: &[u8] =
    b"scenario 1\nhandles 100000\ntable 1000000\nidle trap\ninstance a\nexport up callback 0\nbp_inc\nret 0\nexport down sync 0\nbp_dec\nexport f callback 0\nret 1\ninstance b\nexport g callback 0\ncall r3 r8 a.f\ncancel r4 1\ndrop 1\nret r4\nmain\nstart a.up\nfinish 1 r0\nstart b.g\nfinish 2 r1\nstart a.down\nfinish 3 r0\nanswer r1\nend\n";

#[test]
fn a_group_starts_is_entered_and_finishes_once(rt: HostRuntime) {
    tells(&rt, rt.alloc(), STARTED, b"s1e1x1f1");
    tells(&rt, rt.alloc(), HELD, b"s1e1x1f1s2e2x2e2x2f2s3e3x3f3");
    tells(&rt, rt.alloc(), DROPPED, b"s1e1x1s2e1x1e2x2e1x1e2f1x2f2");
}

#[test]
fn a_trap_finishes_all_groups(rt: HostRuntime) {
    tells(&rt, rt.alloc(), REFUSED, b"s1f1");
    tells(&rt, rt.alloc(), TRAPPED, b"s1s2e1x1f1f2");
}

#[test]
fn calls_of_hosts_are_entered_around_their_polls(rt: HostRuntime) {
    tells(&rt, rt.alloc(), POLLED, b"s1e1x1e1x1e1x1e1x1e1x1");
}
