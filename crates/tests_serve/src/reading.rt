//! Inputs of a scenario and requests, and the lines of replies.
ghost use Rattle.text_scenario.specs.Grammar.{IsTextOf};
ghost use Rattle.text_scenario.specs.Placement.{IsWellFormed};
ghost use Rattle.std.specs.Prelude.{◌≤◌, length};

use machine_data::Operand;
use serve_requests::{Input, Reply, print_replies, read_parts, read_requests, scenario_end};
use std::alloc::Global;
use std::process::Abort;
use text_scenario::{ScenarioText, TextError, first_line, fitting_export, read_text, split_tokens};

// Returns its parameter.
const ONE_CALL: &[u8] =
    b"scenario 1\nhandles 100000\ntable 1000000\nidle trap\ninstance a\nexport f callback 1\nret r0\nexit\nmain\nanswer 0\nend\n";

const INPUT: &[u8] =
    b"scenario 1\nhandles 100000\ntable 1000000\nidle trap\ninstance a\nexport f callback 1\nret r0\nexit\nmain\nanswer 0\nend\ncall a.f 7\ncall a.f 9\n";

// Its thirteenth line has a register.
const BAD_INPUT: &[u8] =
    b"scenario 1\nhandles 100000\ntable 1000000\nidle trap\ninstance a\nexport f callback 1\nret r0\nexit\nmain\nanswer 0\nend\ncall a.f 7\ncall a.f r1\n";

fn tree(rt: &impl Abort, alloc: Global, text: &[u8]) -> ScenarioText
    requires { length text.now ≤ 1048576 }
    ensures { IsTextOf result text.now }
{
    match read_text(alloc, text) {
        Ok(tree) => tree,
        Err(_) => panic!(rt; "a scenario"),
    }
}

// How many requests these lines say, or their first bad line.
fn count_of(alloc: Global, tree: &ScenarioText, lines: &[u8]) -> Result<usize, TextError>
    requires few { length lines.now ≤ 1000 }
    requires tree { IsWellFormed tree.now }
{
    match read_requests(alloc, tree, lines, 1) {
        Ok(requests) => Ok(requests.len()),
        Err(e) => Err(e),
    }
}

fn input_of(alloc: Global, input: &[u8]) -> Result<Input, TextError>
    requires { length input.now ≤ 1048576 }
{
    let (end, lines) = scenario_end(input);
    read_parts(alloc, &input[..end], &input[end..], lines)
}

#[test]
fn an_input_is_a_scenario_and_its_requests(rt: HostRuntime) {
    assert!(rt; INPUT.len() <= 1_000);
    let Ok(read) = input_of(rt.alloc(), INPUT) else {
        panic!(rt; "an input")
    };
    assert!(rt; read.requests.len() == 2);
    assert!(rt; read.requests[1].instance == 0 && read.requests[1].export == 0);
    assert!(rt; read.requests[1].params.as_slice() == [9].as_slice());
}

#[test]
fn the_bad_line_counts_from_the_scenario_on(rt: HostRuntime) {
    assert!(rt; BAD_INPUT.len() <= 1_000);
    let read = input_of(rt.alloc(), BAD_INPUT);
    assert!(rt; matches!(read, Err(TextError::Bad(13))));
}

#[test]
fn replies_are_printed_by_their_numbers(rt: HostRuntime) {
    let replies = [Reply::Value(7), Reply::None, Reply::Refused(18)];
    let Ok(text) = print_replies(rt.alloc(), &replies) else {
        panic!(rt; "no memory")
    };
    assert!(rt; text.as_slice() == b"reply 1 = 7\nreply 3 refused 18\n".as_slice());
}

#[test]
fn a_text_has_lines_and_tokens(rt: HostRuntime) {
    let Some((line, rest)) = first_line(b"call a.f\nend") else {
        panic!(rt; "a line")
    };
    assert!(rt; rest == b"end".as_slice());
    let mut words = Vec::new(rt.alloc());
    assert!(rt; split_tokens(&mut words, line).is_ok());
    assert!(rt; words.len() == 2);
    assert!(rt; words[1] == b"a.f".as_slice());
}

#[test]
fn an_export_is_found_by_its_names(rt: HostRuntime) {
    let tree = tree(&rt, rt.alloc(), ONE_CALL);
    let one = [Operand::Number(7)];
    assert!(rt; fitting_export(tree.instances.as_slice(), b"a", b"f", &one).is_some());
    assert!(rt; fitting_export(tree.instances.as_slice(), b"a", b"f", &[]).is_none());
}

#[test]
fn lines_say_requests(rt: HostRuntime) {
    let tree = tree(&rt, rt.alloc(), ONE_CALL);
    assert!(rt;
        matches!(
            count_of(rt.alloc(), &tree, b"call a.f 7\ncall a.f 9"),
            Ok(2)
        )
    );
    assert!(rt;
        matches!(
            count_of(rt.alloc(), &tree, b"call a.f 7\ncall a.f"),
            Err(TextError::Bad(2))
        )
    );
}
