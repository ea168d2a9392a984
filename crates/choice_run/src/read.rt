//! The lines `choose`.
ghost use Rattle.choice_offers.specs.Choices.{chosen_of};
ghost use Rattle.choice_run.specs.ChooseLines.{ReadsChoices};
ghost use Rattle.choice_run.specs.Reading.{IsNone, Names, ReadsAfter, ReadsChoice, ReadsNumbers, ReadsRelease, Takes};
ghost use Rattle.std.specs.Prelude.{◌⊎◌, ◌+◌, ◌<◌, ◌≤◌, IsErrOf, OnOk, codes, length, map, option_map};
ghost use Rattle.text_scenario.specs.Grammar.{tokens};

use machine_data::Seq;
use std::alloc::Global;
use text_lines::{LineError, number_up_to};
use text_scenario::{TextError, first_line, split_tokens};
use trace_machine::Choice;

// How many choices there may be.
const MOST: usize = 100_000;

// The number behind this word, if the words begin with it, and the words behind both. None if no number up to this one follows.
fn named<'a>(words: &'a [&'a [u8]], name: &[u8], most: u64) -> Option<(Option<u64>, &'a [&'a [u8]])>
    ensures { Names name.now most (map (λ w. w.now) words.now) (option_map (λ r. (r.0, map (λ w. w.now) r.1.now)) result) }
{
    let Some((word, rest)) = words.split_first() else {
        return Some((None, words));
    };
    if *word != name {
        return Some((None, words));
    }
    let (number, rest) = rest.split_first()?;
    let value = number_up_to(number, most)?;
    Some((Some(value), rest))
}

// The handle behind the word `member`, as `named` says.
fn member_of<'a>(words: &'a [&'a [u8]]) -> Option<(Option<u32>, &'a [&'a [u8]])>
    ensures { Names (codes "member") 4294967295 (map (λ w. w.now) words.now) (option_map (λ r. (r.0, map (λ w. w.now) r.1.now)) result) }
{
    let (member, rest) = named(words, b"member", 4_294_967_295)?;
    match member {
        Some(handle) => Some((Some(handle as u32), rest)),
        None => Some((None, rest)),
    }
}

// The numbers that all of these words are.
fn numbers(alloc: Global, words: &[&[u8]]) -> Result<Seq<u64>, LineError>
    ensures { ReadsNumbers (map (λ w. w.now) words.now) result }
{
    let mut list = Seq::new(alloc);
    for word in words {
        let Some(value) = number_up_to(word, 18_446_744_073_709_551_615) else {
            return Err(LineError::Bad);
        };
        list.push(value)?;
    }
    Ok(list)
}

// The threads after the word `release`, at least one; none if no word is left.
fn release_of(alloc: Global, words: &[&[u8]]) -> Result<Seq<u64>, LineError>
    ensures { ReadsRelease (map (λ w. w.now) words.now) result }
{
    let Some((word, rest)) = words.split_first() else {
        return Ok(Seq::new(alloc));
    };
    if *word != b"release".as_slice() || rest.is_empty() {
        return Err(LineError::Bad);
    }
    numbers(alloc, rest)
}

// The choice of the words after `choose`.
fn choice_after(alloc: Global, words: &[&[u8]]) -> Result<Choice, LineError>
    ensures { ReadsAfter (map (λ w. w.now) words.now) result }
{
    let Some((waiter, others)) = named(words, b"wake", 18_446_744_073_709_551_615) else {
        return Err(LineError::Bad);
    };
    let Some((member, left)) = member_of(others) else {
        return Err(LineError::Bad);
    };
    match release_of(alloc, left) {
        Ok(release) => Ok(Choice {
            waiter,
            member,
            release,
        }),
        Err(LineError::NoMemory) => Err(LineError::NoMemory),
        Err(LineError::Bad) => Err(LineError::Bad),
    }
}

// The choice of a line's words.
fn choice_of(alloc: Global, words: &[&[u8]]) -> Result<Choice, LineError>
    ensures { ReadsChoice (map (λ w. w.now) words.now) result }
{
    let Some((word, rest)) = words.split_first() else {
        return Err(LineError::Bad);
    };
    if *word != b"choose".as_slice() {
        return Err(LineError::Bad);
    }
    choice_after(alloc, rest)
}

// Adds the choice of a line.
fn add_line<'a>(
    alloc: Global,
    choices: &mut Vec<Choice>,
    list: &mut Vec<&'a [u8]>,
    line: &'a [u8],
) -> Result<(), LineError>
    ensures ok { OnOk result (Takes line.now (map chosen_of choices.old.items) (map chosen_of choices.new.items)) }
    ensures bad { IsErrOf result LineError.Bad → (100000 ≤ length choices.old.items) ⊎ IsNone (tokens line.now) }
{
    if choices.len() >= MOST {
        return Err(LineError::Bad);
    }
    split_tokens(list, line)?;
    let choice = choice_of(alloc, list)?;
    match choices.push(choice) {
        Ok(()) => Ok(()),
        Err(_) => Err(LineError::NoMemory),
    }
}

/// Returns the choices that a text's lines `choose`, each followed by any of ` wake N`, ` member H` and ` release N*` in this order,
/// say: at most 100,000. Another line is refused by its number, where the first one has the number `first`; that is the least n such
/// that the first lines up to it say no choices.
pub fn read_choices(alloc: Global, text: &[u8], first: u32) -> Result<Vec<Choice>, TextError>
    requires { first + length text.now < 4294967295 }
    ensures { ReadsChoices text.now first result }
{
    let mut choices = Vec::new(alloc);
    let mut list = Vec::new(alloc);
    let mut rest = text;
    let mut number = first;
    while let Some((line, more)) = first_line(rest) {
        match add_line(alloc, &mut choices, &mut list, line) {
            Ok(()) => {}
            Err(LineError::NoMemory) => return Err(TextError::NoMemory),
            Err(LineError::Bad) => return Err(TextError::Bad(number)),
        }
        rest = more;
        number += 1;
    }
    Ok(choices)
}
