//! An input: a scenario, and the lines of requests after it.
ghost use Rattle.serve_requests.specs.Input.{IsCut, ReadsParts};
ghost use Rattle.std.specs.Prelude.{◌≡◌, ◌==◌, ◌+◌, ◌<◌, ◌≤◌, IfSome, drop, length, position, take};

use crate::Request;
use crate::read::read_requests;
use memchr::memchr;
use std::alloc::Global;
use text_scenario::{ScenarioText, TextError, read_text};

/// What an input says: the scenario's tree, and the requests.
#[derive(Drop)]
pub struct Input {
    pub scenario: ScenarioText,
    pub requests: Vec<Request>,
}

// Where the first line of these bytes ends.
#[tactic(auto, using(text_scenario::proofs::FirstByte::first_byte))]
fn line_end(bytes: &[u8]) -> Option<usize>
    ensures place { result ≡ position (λ b. b == 10) bytes.now }
    ensures inside { IfSome result (λ i. i < length bytes.now) }
{
    memchr(b'\n', bytes)
}

/// Finds where the scenario of an input of less than 4,294,967,295 bytes ends, which is with its first line `end`, or with the input: how
/// many bytes and how many lines the scenario has.
pub fn scenario_end(input: &[u8]) -> (usize, u32)
    requires { length input.now < 4294967295 }
    ensures cut { IsCut input.now (take result.0 input.now) (drop result.0 input.now) result.1 }
    ensures inside { result.0 ≤ length input.now }
    ensures few { result.1 ≤ result.0 }
{
    let mut at = 0;
    let mut lines = 0;
    while let Some(end) = line_end(&input[at..]) {
        let line = &input[at..at + end];
        at += end + 1;
        lines += 1;
        if line == b"end".as_slice() {
            return (at, lines);
        }
    }
    (input.len(), lines)
}

/// Reads the parts of an input of less than 4,294,967,294 bytes: a scenario of so many lines, and the lines of requests after it.
/// Another input is refused with its bad line, where the lines after the scenario count on.
pub fn read_parts(
    alloc: Global,
    scenario: &[u8],
    rest: &[u8],
    lines: u32,
) -> Result<Input, TextError>
    requires short { length scenario.now + length rest.now < 4294967294 }
    requires few { lines ≤ length scenario.now }
    ensures { ReadsParts scenario.now rest.now lines result }
{
    let scenario = read_text(alloc, scenario)?;
    let requests = read_requests(alloc, &scenario, rest, lines + 1)?;
    Ok(Input { scenario, requests })
}
