//! The tokens of a line, one by one.
ghost use Rattle.std.specs.Prelude.{◌≡◌, ◌≢◌, ◌≤◌, ℕ, decimal, length, IfSome, MatchOption};
ghost use Rattle.std.specs.Char.{is_ascii_digit};
ghost use Rattle.std.specs.List.{list_all};
ghost use Rattle.text_lines.specs.Tokens.{digits_at, number_at, bounded_at, register_up_to, register_at, operand_at, idle_at, kind_at, version_at, is_name_byte, is_name};

use machine_data::{ExportKind, IdleLine, Operand, Seq, Version};

/// A name: 1 to 16 of `a` to `z`, `0` to `9` and `_`, a letter first.
pub type Name = Seq<u8>;

// The number that at most 19 digits write: it is below 10^19, and so is what is read on the way. Four digits are read in a
// turn, so that they don't wait for one another.
#[inline(always)]
#[tactic(auto, unfolding(crate::specs::Tokens::digits_at))]
fn short_digits(token: &[u8]) -> Option<u64>
    requires { length token.now ≤ 19 }
    ensures { result ≡ digits_at token.now }
{
    let mut value: u64 = 0;
    let mut at = 0;
    'fours: while token.len() - at >= 4 {
        let a = token[at];
        if !a.is_ascii_digit() {
            return None;
        }
        let b = token[at + 1];
        if !b.is_ascii_digit() {
            return None;
        }
        let c = token[at + 2];
        if !c.is_ascii_digit() {
            return None;
        }
        let d = token[at + 3];
        if !d.is_ascii_digit() {
            return None;
        }
        let front = u64::from(a - b'0') * 1000 + u64::from(b - b'0') * 100;
        let back = u64::from(c - b'0') * 10 + u64::from(d - b'0');
        value = value * 10_000 + (front + back);
        at += 4;
    }
    'ones: while at < token.len() {
        let a = token[at];
        if !a.is_ascii_digit() {
            return None;
        }
        value = value * 10 + u64::from(a - b'0');
        at += 1;
    }
    Some(value)
}

// The number that digits write, where it is below 2^64, by tests at each digit.
#[inline(never)]
#[tactic(auto, unfolding(crate::specs::Tokens::digits_at))]
fn long_digits(token: &[u8]) -> Option<u64>
    ensures { result ≡ digits_at token.now }
{
    let mut value: u64 = 0;
    for b in token {
        if !b.is_ascii_digit() {
            return None;
        }
        value = value.checked_mul(10)?.checked_add(u64::from(*b - b'0'))?;
    }
    Some(value)
}

// The number that digits write, where it is below 2^64. Most have at most 20 digits: only the last of so many is tested.
#[inline(always)]
#[tactic(auto, unfolding(crate::specs::Tokens::digits_at))]
fn digits(token: &[u8]) -> Option<u64>
    ensures { result ≡ digits_at token.now }
{
    if token.len() < 20 {
        return short_digits(token);
    }
    if token.len() > 20 || !token[19].is_ascii_digit() {
        return long_digits(token);
    }
    let Some(front) = short_digits(&token[..19]) else {
        return long_digits(token);
    };
    let Some(tens) = front.checked_mul(10) else {
        return long_digits(token);
    };
    let Some(value) = tens.checked_add(u64::from(token[19] - b'0')) else {
        return long_digits(token);
    };
    Some(value)
}

/// Returns the number that a token is, 0 to 2^64 - 1, in decimal without leading zeros.
#[tactic(auto, unfolding(crate::specs::Tokens::number_at, crate::specs::Tokens::digits_at))]
pub fn number(token: &[u8]) -> Option<u64>
    ensures { result ≡ number_at token.now }
{
    if token.is_empty() || (token.len() > 1 && token[0] == b'0') {
        return None;
    }
    digits(token)
}

/// Returns the number that a token is, up to a limit.
#[tactic(auto, unfolding(crate::specs::Tokens::bounded_at))]
pub fn bounded(token: &[u8], limit: u64) -> Option<u64>
    ensures value { result ≡ bounded_at limit token.now }
    ensures limit { IfSome result (λ n. n ≤ limit) }
{
    number(token).filter(|n| *n <= limit)
}

/// Returns the number that a token is in decimal without leading zeros, where that is at most the limit.
pub fn number_up_to(token: &[u8], limit: u64) -> Option<u64>
    ensures { MatchOption result ((n : ℕ) → n ≤ limit → token.now ≢ decimal n) (λ n. (token.now ≡ decimal n) × (n ≤ limit)) }
{
    bounded(token, limit)
}

/// Returns the register that a token names, `r0` to `r15`.
#[tactic(auto, unfolding(crate::specs::Tokens::register_up_to))]
pub fn register(token: &[u8]) -> Option<u8>
    ensures { result ≡ register_at token.now }
{
    match token {
        [b'r', digits @ ..] => Some(bounded(digits, 15)? as u8),
        _ => None,
    }
}

/// Returns the register that a token names, `r0` to `r13`: the first of three that an event is written to.
#[tactic(auto, unfolding(crate::specs::Tokens::register_up_to))]
pub fn event_register(token: &[u8]) -> Option<u8>
    ensures { result ≡ register_up_to 13 token.now }
{
    match token {
        [b'r', digits @ ..] => Some(bounded(digits, 13)? as u8),
        _ => None,
    }
}

/// Returns the number or register that a token is.
#[tactic(auto, unfolding(crate::specs::Tokens::operand_at))]
pub fn operand(token: &[u8]) -> Option<Operand>
    ensures { result ≡ operand_at token.now }
{
    match register(token) {
        Some(r) => Some(Operand::Register(r)),
        None => Some(Operand::Number(number(token)?)),
    }
}

/// Returns by which rules a text is run, as a token says it.
#[tactic(auto, unfolding(crate::specs::Tokens::version_at))]
pub fn version(token: &[u8]) -> Option<Version>
    ensures { result ≡ version_at token.now }
{
    if token == b"1".as_slice() {
        return Some(Version::One);
    }
    (token == b"2".as_slice()).then_some(Version::Two)
}

/// Returns what happens where nothing goes on, as a token says it.
#[tactic(auto, unfolding(crate::specs::Tokens::idle_at))]
pub fn idle_line(token: &[u8]) -> Option<IdleLine>
    ensures { result ≡ idle_at token.now }
{
    if token == b"trap".as_slice() {
        return Some(IdleLine::Trap);
    }
    (token == b"wait".as_slice()).then_some(IdleLine::Wait)
}

/// Returns the kind of an export, as a token says it.
#[tactic(auto, unfolding(crate::specs::Tokens::kind_at))]
pub fn export_kind(token: &[u8]) -> Option<ExportKind>
    ensures { result ≡ kind_at token.now }
{
    if token == b"callback".as_slice() {
        return Some(ExportKind::Callback);
    }
    if token == b"stackful".as_slice() {
        return Some(ExportKind::Stackful);
    }
    if token == b"blocking".as_slice() {
        return Some(ExportKind::Blocking);
    }
    (token == b"sync".as_slice()).then_some(ExportKind::Sync)
}

fn is_name_byte(byte: u8) -> bool
    ensures { result ≡ is_name_byte byte }
{
    matches!(byte, b'a'..=b'z' | b'0'..=b'9' | b'_')
}

fn all_name_bytes(token: &[u8]) -> bool
    ensures { result ≡ list_all is_name_byte token.now }
{
    token.iter().all(|b| is_name_byte(*b))
}

/// Returns whether a token may be a name: 1 to 16 of `a` to `z`, `0` to `9` and `_`, a letter first.
pub fn is_name(token: &[u8]) -> bool
    ensures { result ≡ is_name token.now }
{
    if token.is_empty() || token.len() > 16 || !token[0].is_ascii_lowercase() {
        return false;
    }
    all_name_bytes(token)
}
