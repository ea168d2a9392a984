//! The requests of lines, served by the component of a scenario.
ghost use Rattle.text_scenario.specs.Grammar.{IsTextOf};
ghost use Rattle.std.specs.Prelude.{◌<◌, ◌≤◌, length};

use serve_main::{Reply, Served, serve};
use serve_requests::read_requests;
use std::alloc::Global;
use std::process::Abort;
use task_loop::Outcome;
use text_scenario::{ScenarioText, TextError, read_text};

// Returns its parameter.
const ONE_CALL: &[u8] =
    b"scenario 1\nhandles 100000\ntable 1000000\nidle trap\ninstance a\nexport f callback 1\nret r0\nexit\nmain\nanswer 0\nend\n";

const LINES: &[u8] = b"call a.f 7\ncall a.f 9\n";

fn tree(rt: &impl Abort, alloc: Global, text: &[u8]) -> ScenarioText
    requires { length text.now ≤ 1048576 }
    ensures { IsTextOf result text.now }
{
    match read_text(alloc, text) {
        Ok(tree) => tree,
        Err(_) => panic!(rt; "a scenario"),
    }
}

fn served(rt: &impl Abort, alloc: Global, text: &[u8], limit: u32, steps: u32) -> Served {
    assert!(rt; text.len() <= 1_048_576);
    assert!(rt; 1 <= limit && limit <= 1_024);
    assert!(rt; 0 < steps && steps <= 1_000);
    let tree = tree(rt, alloc, text);
    assert!(rt; LINES.len() <= 100);
    let Ok(requests) = read_requests(alloc, &tree, LINES, 1) else {
        panic!(rt; "requests")
    };
    match serve(alloc, text, requests.as_slice(), limit, steps) {
        Ok(served) => served,
        Err(_) => panic!(rt; "no memory"),
    }
}

#[test]
fn each_request_has_its_own_reply(rt: HostRuntime) {
    let served = served(&rt, rt.alloc(), ONE_CALL, 1, 100);
    assert!(rt; matches!(served.outcome, Outcome::Done(2)));
    assert!(rt; served.replies.len() == 2);
    assert!(rt; matches!(served.replies[0], Reply::Value(7)));
    assert!(rt; matches!(served.replies[1], Reply::Value(9)));
}

#[test]
fn the_bad_line_is_told(rt: HostRuntime) {
    let tree = tree(&rt, rt.alloc(), ONE_CALL);
    let read = read_requests(rt.alloc(), &tree, b"call a.f 7\ncall a.f r1\n", 12);
    assert!(rt; matches!(read, Err(TextError::Bad(13))));
}
