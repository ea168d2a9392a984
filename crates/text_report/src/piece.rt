//! The pieces of a line, each written in place: into room that is there, behind what was written
//! before. The answer is the place behind the piece.
ghost use Rattle.std.specs.Prelude.{◌≡◌, ◌+◌, ◌≤◌, ◌<◌, ◌++◌, codes, decimal, length, take};
ghost use Rattle.text_report.specs.Digits.{six_text, three_text};

use crate::table::{LEADS, THREES};

// A text, byte by byte: of one that is known where a line is compiled, a few stores are made.
#[inline(always)]
pub(crate) fn literal(out: &mut [u8], at: usize, literal: &[u8]) -> usize
    requires { at + length literal.now ≤ length out.old }
    ensures end { result ≡ at + length literal.now }
    ensures room { length out.new ≡ length out.old }
    ensures text { take result out.new ≡ take at out.old ++ literal.now }
{
    for index in 0..literal.len() {
        out[at + index] = literal[index];
    }
    at + literal.len()
}

// A text of which so many bytes stay; what comes behind them is written over the others.
#[inline(always)]
pub(crate) fn literal_over(out: &mut [u8], at: usize, text: &[u8], stay: usize) -> usize
    requires room { at + length text.now ≤ length out.old }
    requires stay { stay ≤ length text.now }
    ensures end { result ≡ at + stay }
    ensures room { length out.new ≡ length out.old }
    ensures text { take result out.new ≡ take at out.old ++ take stay text.now }
{
    literal(out, at, text);
    at + stay
}

#[inline(always)]
#[tactic(auto, using(std::proofs::lemmas::Fmt::decimal_digit))]
fn one_digit(out: &mut [u8], at: usize, number: u64) -> usize
    requires small { number < 10 }
    requires room { at + 1 ≤ length out.old }
    ensures end { result ≡ at + 1 }
    ensures room { length out.new ≡ length out.old }
    ensures text { take result out.new ≡ take at out.old ++ decimal number }
{
    literal(out, at, &[b'0' + number as u8])
}

// A number below 1,000: four bytes are stored, of which its digits stay.
#[inline(always)]
#[tactic(auto, using(crate::proofs::Digits::LEADS_at))]
fn hundreds(out: &mut [u8], at: usize, number: u64) -> usize
    requires small { number < 1000 }
    requires room { at + 4 ≤ length out.old }
    ensures end { result ≤ at + 3 }
    ensures room { length out.new ≡ length out.old }
    ensures text { take result out.new ≡ take at out.old ++ decimal number }
{
    let from = number as usize * 4;
    let digits = [
        LEADS[from],
        LEADS[from + 1],
        LEADS[from + 2],
        LEADS[from + 3],
    ];
    literal_over(out, at, &digits, LEADS[from + 3] as usize - 48)
}

// Three digits, of which the first ones may be 0.
#[inline(always)]
#[tactic(auto, using(crate::proofs::Digits::THREES_at))]
fn three(out: &mut [u8], at: usize, number: u64) -> usize
    requires small { number < 1000 }
    requires room { at + 4 ≤ length out.old }
    ensures end { result ≡ at + 3 }
    ensures room { length out.new ≡ length out.old }
    ensures text { take result out.new ≡ take at out.old ++ three_text number }
{
    let from = number as usize * 4;
    let digits = [
        THREES[from],
        THREES[from + 1],
        THREES[from + 2],
        THREES[from + 3],
    ];
    literal_over(out, at, &digits, 3)
}

// Six digits, of which the first ones may be 0.
fn six(out: &mut [u8], at: usize, number: u64) -> usize
    requires small { number < 1000000 }
    requires room { at + 7 ≤ length out.old }
    ensures end { result ≡ at + 6 }
    ensures room { length out.new ≡ length out.old }
    ensures text { take result out.new ≡ take at out.old ++ six_text number }
{
    let end = three(out, at, number / 1000);
    three(out, end, number % 1000)
}

// A number of four to six digits.
#[inline(always)]
fn thousands(out: &mut [u8], at: usize, number: u64) -> usize
    requires large { 1000 ≤ number }
    requires small { number < 1000000 }
    requires room { at + 7 ≤ length out.old }
    ensures end { result ≤ at + 6 }
    ensures room { length out.new ≡ length out.old }
    ensures text { take result out.new ≡ take at out.old ++ decimal number }
{
    let end = hundreds(out, at, number / 1000);
    three(out, end, number % 1000)
}

// A number below 10^6.
fn six_digits(out: &mut [u8], at: usize, number: u64) -> usize
    requires small { number < 1000000 }
    requires room { at + 7 ≤ length out.old }
    ensures end { result ≤ at + 6 }
    ensures room { length out.new ≡ length out.old }
    ensures text { take result out.new ≡ take at out.old ++ decimal number }
{
    if number < 1000 {
        hundreds(out, at, number)
    } else {
        thousands(out, at, number)
    }
}

// A number below 10^12.
fn twelve_digits(out: &mut [u8], at: usize, number: u64) -> usize
    requires small { number < 1000000000000 }
    requires room { at + 13 ≤ length out.old }
    ensures end { result ≤ at + 12 }
    ensures room { length out.new ≡ length out.old }
    ensures text { take result out.new ≡ take at out.old ++ decimal number }
{
    if number < 1_000_000 {
        return six_digits(out, at, number);
    }
    let end = six_digits(out, at, number / 1_000_000);
    six(out, end, number % 1_000_000)
}

// A number of seven digits and more is rare.
#[inline(never)]
fn many_digits(out: &mut [u8], at: usize, number: u64) -> usize
    requires { at + 25 ≤ length out.old }
    ensures end { result ≤ at + 20 }
    ensures room { length out.new ≡ length out.old }
    ensures text { take result out.new ≡ take at out.old ++ decimal number }
{
    if number < 1_000_000_000_000 {
        return twelve_digits(out, at, number);
    }
    let end = twelve_digits(out, at, number / 1_000_000_000_000);
    let end = six(out, end, number / 1_000_000 % 1_000_000);
    six(out, end, number % 1_000_000)
}

// A number.
#[inline(always)]
pub(crate) fn digits(out: &mut [u8], at: usize, number: u64) -> usize
    requires { at + 25 ≤ length out.old }
    ensures end { result ≤ at + 20 }
    ensures room { length out.new ≡ length out.old }
    ensures text { take result out.new ≡ take at out.old ++ decimal number }
{
    if number < 1000 {
        hundreds(out, at, number)
    } else if number < 1_000_000 {
        thousands(out, at, number)
    } else {
        many_digits(out, at, number)
    }
}

// A text and a number of one digit behind them.
#[inline(always)]
pub(crate) fn small_number(out: &mut [u8], at: usize, before: &[u8], number: u64) -> usize
    requires small { number < 10 }
    requires room { at + length before.now + 1 ≤ length out.old }
    ensures end { result ≡ at + length before.now + 1 }
    ensures room { length out.new ≡ length out.old }
    ensures text { take result out.new ≡ take at out.old ++ (before.now ++ decimal number) }
{
    let end = literal(out, at, before);
    one_digit(out, end, number)
}

// A text and a number behind it. The text of each call is known where it is compiled.
#[inline(always)]
pub(crate) fn number(out: &mut [u8], at: usize, before: &[u8], number: u64) -> usize
    requires { at + length before.now + 25 ≤ length out.old }
    ensures end { result ≤ at + length before.now + 20 }
    ensures room { length out.new ≡ length out.old }
    ensures text { take result out.new ≡ take at out.old ++ (before.now ++ decimal number) }
{
    let end = literal(out, at, before);
    digits(out, end, number)
}

// `thread N`.
#[inline(always)]
pub(crate) fn thread_number(out: &mut [u8], at: usize, thread: u64) -> usize
    requires { at + 32 ≤ length out.old }
    ensures end { result ≤ at + 27 }
    ensures room { length out.new ≡ length out.old }
    ensures text { take result out.new ≡ take at out.old ++ (codes "thread " ++ decimal thread) }
{
    let end = literal_over(out, at, b"thread  ", 7);
    digits(out, end, thread)
}

#[inline(always)]
pub(crate) fn numbers(
    out: &mut [u8],
    at: usize,
    before: &[u8],
    first: u64,
    between: &[u8],
    second: u64,
) -> usize
    requires { at + length before.now + length between.now + 45 ≤ length out.old }
    ensures end { result ≤ at + length before.now + length between.now + 40 }
    ensures room { length out.new ≡ length out.old }
    ensures text { take result out.new ≡ take at out.old ++ (before.now ++ decimal first ++ between.now ++ decimal second) }
{
    let end = number(out, at, before, first);
    number(out, end, between, second)
}
