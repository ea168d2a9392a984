//! A text, line by line.
ghost use Rattle.std.specs.Prelude.{◌≡◌, ◌==◌, ◌<◌, ◌-◌, ◌++◌, [], ◌∷◌, ℕ, List, drop, length, map, position, IsOkUnless, IfSome, MatchOption, OnErr, OnOk};
ghost use Rattle.text_lines.specs.Gives.{BecomesValue};
ghost use Rattle.text_scenario.specs.Grammar.{lines, tokens, spelled, IsTextOf};
ghost use Rattle.text_scenario.specs.State.{after_tokens, read_from, ReadsAs, StaysOrEmpty};
ghost use Rattle.text_scenario.specs.AnswersLine.{AnswersLine};
ghost use Rattle.text_scenario.specs.declared.tree.ScenarioText.{ScenarioText};

use crate::state::State;
use crate::tree::ScenarioText;
use memchr::memchr;
use std::alloc::{AllocError, Global};
use text_lines::LineError;

/// Why a text gave no scenario.
#[derive(Clone, Copy)]
pub enum TextError {
    NoMemory,
    /// The first line with which the lines so far begin no scenario, from 1, or one past the last.
    Bad(u32),
}

// Where the first line of a text ends.
#[tactic(auto, using(crate::proofs::FirstByte::first_byte))]
fn line_end(text: &[u8]) -> Option<usize>
    ensures place { result ≡ position (λ b. b == 10) text.now }
    ensures inside { IfSome result (λ i. i < length text.now) }
{
    memchr(b'\n', text)
}

/// Takes the first line off a text: that line, which ends at a line feed or at the text's end, and the text after it. None if the
/// text is empty.
pub fn first_line(text: &[u8]) -> Option<(&[u8], &[u8])>
    ensures cases { MatchOption result (text.now ≡ []) (λ p. lines text.now ≡ p.0.now ∷ lines p.1.now) }
    ensures shorter { IfSome result (λ p. length p.1.now < length text.now) }
    ensures rest { IfSome result (λ p. drop (length text.now - length p.1.now) text.now ≡ p.1.now) }
{
    if text.is_empty() {
        return None;
    }
    match line_end(text) {
        Some(end) => Some((&text[..end], &text[end + 1..])),
        None => Some((text, &[])),
    }
}

// Where the first token of a line ends. Four bytes are looked at in a turn: most tokens are short.
fn token_end(line: &[u8]) -> Option<usize>
    ensures place { result ≡ position (λ b. b == 32) line.now }
    ensures inside { IfSome result (λ i. i < length line.now) }
{
    let mut at = 0;
    'fours: while line.len() - at >= 4 {
        if line[at] == b' ' {
            return Some(at);
        }
        if line[at + 1] == b' ' {
            return Some(at + 1);
        }
        if line[at + 2] == b' ' {
            return Some(at + 2);
        }
        if line[at + 3] == b' ' {
            return Some(at + 3);
        }
        at += 4;
    }
    'ones: while at < line.len() {
        if line[at] == b' ' {
            return Some(at);
        }
        at += 1;
    }
    None
}

/// Puts the tokens of a line, which have one space between them, into a list that is used for each line. What was in the list is
/// gone. If it is out of memory, the list has the first ones alone.
pub fn split_tokens<'a>(list: &mut Vec<&'a [u8]>, line: &'a [u8]) -> Result<(), AllocError>
    ensures ok { OnOk result (map (λ w. w.now) list.new.items ≡ tokens line.now) }
    ensures err { OnErr result ((rest : List (List ℕ)) × map (λ w. w.now) list.new.items ++ rest ≡ tokens line.now) }
{
    list.clear();
    let mut rest = line;
    while let Some(end) = token_end(rest) {
        list.push(&rest[..end])?;
        rest = &rest[end + 1..];
    }
    list.push(rest)?;
    Ok(())
}

fn add_line<'a>(
    alloc: Global,
    state: &mut State,
    list: &mut Vec<&'a [u8]>,
    line: &'a [u8],
) -> Result<(), LineError>
    ensures value { BecomesValue state.new result (after_tokens state.old (tokens line.now)) }
    ensures err { OnErr result (StaysOrEmpty state.old state.new) }
{
    split_tokens(list, line)?;
    state.add(alloc, list)
}

fn read(alloc: Global, text: &[u8]) -> Result<ScenarioText, TextError>
    requires { length text.now < 4294967295 }
    ensures { ReadsAs result (read_from State.Empty 1 (spelled text.now)) }
{
    let mut state = State::Empty;
    let mut tokens = Vec::new(alloc);
    let mut rest = text;
    let mut number = 1;
    while let Some((line, more)) = first_line(rest) {
        match add_line(alloc, &mut state, &mut tokens, line) {
            Ok(()) => {}
            Err(LineError::NoMemory) => return Err(TextError::NoMemory),
            Err(LineError::Bad) => return Err(TextError::Bad(number)),
        }
        rest = more;
        number += 1;
    }
    state.into_scenario().ok_or(TextError::Bad(number))
}

/// Returns the tree of a scenario text. A text that is none is refused with its bad line: the least n such that its first n lines
/// begin no scenario, or one past the last where only more lines are missing. The lines and their places are those of the scenario
/// grammar.
pub fn read_text(alloc: Global, text: &[u8]) -> Result<ScenarioText, TextError>
    requires { length text.now < 4294967295 }
    // A tree is the text's own, and a line is the bad one.
    ensures answer { AnswersLine result text.now }
    // A scenario's text is refused for lack of memory alone.
    ensures only { (tree : ScenarioText) → IsTextOf tree text.now → IsOkUnless result TextError.NoMemory }
{
    read(alloc, text)
}

/// Says that two trees of one text are equal: `read_text` answers no other than the text's own.
pub fn one_tree()
    ensures { (x y : ScenarioText) (text : List ℕ) → IsTextOf x text → IsTextOf y text → x ≡ y }
{}
