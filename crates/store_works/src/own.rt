//! Works of which a host writes the polls alone.

use crate::scripted::ScriptedHost;
use crate::work::{AccessorTask, FromHost, HostWork};
use machine_data::{HostDef, HostPoll};

/// A work that a host writes without proofs: at each poll it says whether it pends, ends with a value or fails, and it owes
/// nothing about that.
pub trait OpenTask<T>: Drop {
    /// Polls the work, which may change the host's value. It is polled once as it is called or, if it was spawned, once it is
    /// live, then at most once a turn, and never again after it has ended, failed or was aborted.
    fn poll(&mut self, host: &mut T) -> HostPoll;
}

/// Makes the work of a guest's call of an open host.
pub trait CalledTask: Drop {
    /// Makes the work of a call of the component's host at this place.
    fn called(place: u32) -> Self;
}

/// A work of a store whose hosts may be open: a host's own, or one that does what a settled host of the component says.
#[derive(Drop)]
pub enum OpenWork<W: Drop> {
    Own(W),
    Settled(ScriptedHost),
}

impl<W: Drop> HostWork for OpenWork<W> {
    ghost use Rattle.store_works.specs.Own.{own_course};

    ghost course = { λ work. own_course work };

    fn left(&self) -> HostDef {
        match self {
            OpenWork::Own(_) => HostDef::Open,
            OpenWork::Settled(work) => work.left(),
        }
    }
}

impl<T, W: OpenTask<T>> AccessorTask<T> for OpenWork<W> {
    fn poll(&mut self, host: &mut T) -> HostPoll {
        match self {
            OpenWork::Own(work) => work.poll(host),
            OpenWork::Settled(work) => work.poll(host),
        }
    }
}

impl<W: CalledTask> FromHost for OpenWork<W> {
    fn from_host(place: u32, def: HostDef) -> Self {
        match def {
            HostDef::Open => OpenWork::Own(W::called(place)),
            _ => OpenWork::Settled(ScriptedHost::from_host(place, def)),
        }
    }
}
