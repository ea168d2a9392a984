//! The times at which hosts answer: for each host that ends a number of polls.
ghost use Rattle.choice_search.specs.Numbered.{most};
ghost use Rattle.choice_search.specs.Ways.{host_ways, hosts_at, times, with_polls};
ghost use Rattle.std.specs.Prelude.{◌≡◌, ◌<◌, ◌≤◌, IfOk, IfSome};

use machine_data::{HostDef, Seq};
use std::alloc::{AllocError, Global};

// With how many numbers of polls this host is looked at.
fn times(def: HostDef, polls: Option<u32>) -> u64
    ensures { result ≡ times polls def }
{
    match (def, polls) {
        (
            HostDef::Settled {
                polls: Some(_),
                value: _,
            },
            Some(most),
        ) => u64::from(most) + 1,
        _ => 1,
    }
}

/// Returns in how many ways these hosts may answer, where each that ends pends at 0 to so many polls; in one, if none are given. Above
/// 64 bits it is the greatest number of 64 bits.
pub(crate) fn ways(hosts: &[HostDef], polls: Option<u32>) -> u64
    ensures { result ≡ most (host_ways polls hosts.now) }
{
    let mut all: u64 = 1;
    let mut at = hosts.len();
    'hosts: while at > 0 {
        at -= 1;
        all = all.saturating_mul(times(hosts[at], polls));
    }
    all
}

// The host with this many polls, if it ends and polls are given.
fn with_polls(def: HostDef, polls: Option<u32>, number: u32) -> HostDef
    ensures { result ≡ with_polls polls def number }
{
    match (def, polls) {
        (
            HostDef::Settled {
                polls: Some(_),
                value,
            },
            Some(_),
        ) => HostDef::Settled {
            polls: Some(number),
            value,
        },
        _ => def,
    }
}

/// Makes the hosts of one of these ways, counted from 0.
pub(crate) fn hosts_of(
    alloc: Global,
    hosts: &[HostDef],
    polls: Option<u32>,
    way: u64,
) -> Result<Seq<HostDef>, AllocError>
    ensures { IfOk result (λ list. list ≡ hosts_at polls hosts.now way) }
{
    let mut list = Seq::new(alloc);
    let mut left = way;
    let mut at: usize = 0;
    'hosts: while at < hosts.len() {
        let count = times(hosts[at], polls);
        list.push(with_polls(hosts[at], polls, (left % count) as u32))?;
        left /= count;
        at += 1;
    }
    Ok(list)
}
