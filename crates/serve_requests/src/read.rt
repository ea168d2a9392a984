//! The lines of requests, one after another.
ghost use Rattle.serve_requests.specs.Reading.{Takes, request_of};
ghost use Rattle.serve_requests.specs.RequestLines.{ReadsRequests};
ghost use Rattle.text_scenario.specs.Grammar.{tokens};
ghost use Rattle.text_scenario.specs.Placement.{IsWellFormed};
ghost use Rattle.std.specs.Prelude.{◌≡◌, ◌⊎◌, ◌+◌, ◌<◌, ◌≤◌, ◌++◌, ◌∷◌, [], None, Some, IsErrOf, OnOk, length};

use crate::Request;
use crate::request_lines::request_of;
use std::alloc::Global;
use text_lines::LineError;
use text_scenario::{InstanceText, ScenarioText, TextError, first_line, split_tokens};

// How many requests there may be.
const MOST: usize = 10_000;

// Adds the request of a line.
fn add_line<'a>(
    alloc: Global,
    instances: &[InstanceText],
    requests: &mut Vec<Request>,
    list: &mut Vec<&'a [u8]>,
    line: &'a [u8],
) -> Result<(), LineError>
    ensures ok { OnOk result (Takes instances.now line.now requests.old.items requests.new.items) }
    ensures bad { IsErrOf result LineError.Bad → (10000 ≤ length requests.old.items) ⊎ (request_of instances.now (tokens line.now) ≡ None) }
{
    if requests.len() >= MOST {
        return Err(LineError::Bad);
    }
    split_tokens(list, line)?;
    let request = request_of(alloc, instances, list)?;
    match requests.push(request) {
        Ok(()) => Ok(()),
        Err(_) => Err(LineError::NoMemory),
    }
}

/// Returns the requests that a text's lines `call INSTANCE.EXPORT X*` say, in their order: at most 10,000, each of which names an
/// export of the scenario and has a number for each of its parameters. Another line is refused by its number, where the first one
/// has the number `first`; that is the least n such that the first lines up to it are no requests.
pub fn read_requests(
    alloc: Global,
    scenario: &ScenarioText,
    text: &[u8],
    first: u32,
) -> Result<Vec<Request>, TextError>
    requires short { first + length text.now < 4294967295 }
    requires scenario { IsWellFormed scenario.now }
    ensures answer { ReadsRequests scenario.now.instances text.now first result }
{
    let instances = scenario.instances.as_slice();
    let mut requests = Vec::new(alloc);
    let mut list = Vec::new(alloc);
    let mut rest = text;
    let mut number = first;
    while let Some((line, more)) = first_line(rest) {
        match add_line(alloc, instances, &mut requests, &mut list, line) {
            Ok(()) => {}
            Err(LineError::NoMemory) => return Err(TextError::NoMemory),
            Err(LineError::Bad) => return Err(TextError::Bad(number)),
        }
        rest = more;
        number += 1;
    }
    Ok(requests)
}
