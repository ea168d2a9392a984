//! So many tokens, and any number of tokens of one kind.
ghost use Rattle.std.specs.Prelude.{◌≡◌, map};
ghost use Rattle.std.specs.Option.{option_map};
ghost use Rattle.text_lines.specs.Tokens.{one_of, two_of, three_of, four_of};
ghost use Rattle.text_lines.specs.Line.{operands_at, numbers_at};
ghost use Rattle.text_lines.specs.Gives.{Gives};

use crate::line::LineError;
use crate::tokens::{bounded, operand};
use machine_data::{Operand, Seq};
use std::alloc::Global;

pub fn one<'a>(tokens: &[&'a [u8]]) -> Option<&'a [u8]>
    ensures { option_map (λ a. a.now) result ≡ one_of (map (λ w. w.now) tokens.now) }
{
    if tokens.len() != 1 {
        return None;
    }
    Some(tokens[0])
}

pub fn two<'a>(tokens: &[&'a [u8]]) -> Option<(&'a [u8], &'a [u8])>
    ensures { option_map (λ p. (p.0.now, p.1.now)) result ≡ two_of (map (λ w. w.now) tokens.now) }
{
    if tokens.len() != 2 {
        return None;
    }
    Some((tokens[0], tokens[1]))
}

pub fn three<'a>(tokens: &[&'a [u8]]) -> Option<(&'a [u8], &'a [u8], &'a [u8])>
    ensures { option_map (λ p. (p.0.now, p.1.now, p.2.now)) result ≡ three_of (map (λ w. w.now) tokens.now) }
{
    if tokens.len() != 3 {
        return None;
    }
    Some((tokens[0], tokens[1], tokens[2]))
}

pub fn four<'a>(tokens: &[&'a [u8]]) -> Option<(&'a [u8], &'a [u8], &'a [u8], &'a [u8])>
    ensures { option_map (λ p. (p.0.now, p.1.now, p.2.now, p.3.now)) result ≡ four_of (map (λ w. w.now) tokens.now) }
{
    if tokens.len() != 4 {
        return None;
    }
    Some((tokens[0], tokens[1], tokens[2], tokens[3]))
}

/// Returns the operands that tokens are.
pub fn operands(alloc: Global, tokens: &[&[u8]]) -> Result<Seq<Operand>, LineError>
    ensures { Gives result (operands_at (map (λ w. w.now) tokens.now)) }
{
    let mut operands = Seq::new(alloc);
    for token in tokens {
        let Some(x) = operand(token) else {
            return Err(LineError::Bad);
        };
        operands.push(x)?;
    }
    Ok(operands)
}

/// Returns the numbers of starts or spawns that the tokens are.
pub fn numbers(alloc: Global, tokens: &[&[u8]]) -> Result<Seq<u32>, LineError>
    ensures { Gives result (numbers_at (map (λ w. w.now) tokens.now)) }
{
    let mut numbers = Seq::new(alloc);
    for token in tokens {
        let Some(k) = bounded(token, 4_095) else {
            return Err(LineError::Bad);
        };
        numbers.push(k as u32)?;
    }
    Ok(numbers)
}
