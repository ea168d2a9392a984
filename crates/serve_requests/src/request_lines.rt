//! The request of a line.
ghost use Rattle.serve_requests.specs.Reading.{number_in, numbers_in, request_after, request_of};
ghost use Rattle.std.specs.Prelude.{◌≡◌, map};
ghost use Rattle.text_lines.specs.Gives.{Gives};

use crate::Request;
use machine_data::{Operand, Seq};
use std::alloc::Global;
use text_lines::{LineError, start_tokens};
use text_scenario::{InstanceText, fitting_export};

// The number that an operand is, if it isn't a register.
fn number_in(operand: &Operand) -> Option<u64>
    ensures { result ≡ number_in operand.now }
{
    match operand {
        Operand::Number(number) => Some(*number),
        Operand::Register(_) => None,
    }
}

// The numbers that these operands are, if none is a register.
#[tactic(auto, unfolding(crate::specs::Reading::numbers_in))]
fn numbers_in(alloc: Global, operands: &[Operand]) -> Result<Seq<u64>, LineError>
    ensures { Gives result (numbers_in operands.now) }
{
    let mut numbers = Seq::new(alloc);
    for operand in operands {
        let Some(number) = number_in(operand) else {
            return Err(LineError::Bad);
        };
        numbers.push(number)?;
    }
    Ok(numbers)
}

// The request that the tokens after `call` say.
#[tactic(auto, unfolding(crate::specs::Reading::request_after, crate::specs::Reading::request_named))]
fn request_after(
    alloc: Global,
    instances: &[InstanceText],
    tokens: &[&[u8]],
) -> Result<Request, LineError>
    ensures { Gives result (request_after instances.now (map (λ w. w.now) tokens.now)) }
{
    let (instance, export, operands) = start_tokens(alloc, tokens)?;
    let callee = fitting_export(instances, instance, export, operands.as_slice()).ok_or(
        LineError::Bad,
    )?;
    Ok(Request {
        instance: callee.instance,
        export: callee.export,
        params: numbers_in(alloc, operands.as_slice())?,
    })
}

/// Returns the request that the tokens of a line say.
#[tactic(auto, unfolding(crate::specs::Reading::request_of))]
pub(crate) fn request_of(
    alloc: Global,
    instances: &[InstanceText],
    tokens: &[&[u8]],
) -> Result<Request, LineError>
    ensures { Gives result (request_of instances.now (map (λ w. w.now) tokens.now)) }
{
    let (token, tokens) = tokens.split_first().ok_or(LineError::Bad)?;
    if *token != b"call".as_slice() {
        return Err(LineError::Bad);
    }
    request_after(alloc, instances, tokens)
}
