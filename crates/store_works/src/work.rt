//! What a type of a host promises as a work.
ghost use Rattle.std.specs.Prelude.{◌≡◌};
ghost use Rattle.store_works.specs.Course.{MayTell, one_fewer};
ghost use Rattle.machine_data.specs.declared.component.HostDef.{HostDef as Course};

use machine_data::{HostDef, HostPoll};

/// A work of a host. How often it is still pending, and how it ends, is settled when it is made, or it is open and answers
/// at each poll what it likes. `OpenWork` is a work of which a host writes the polls alone.
pub trait HostWork: Drop {
    // The polls that are left, none if it is never to end, and the end; or that it is open.
    ghost course: { Self → Course };

    /// Answers the polls at which the work will still be pending, none if it is never to end, and the value with which it
    /// will end, none if it will fail; or that it is open.
    fn left(&self) -> HostDef
        ensures { result ≡ course self.now };
}

/// A work of a host with a value `T`, which is polled until it ends.
pub trait AccessorTask<T>: HostWork {
    /// Polls the work, which may change the host's value. One that is settled is pending exactly if polls are left or it is
    /// never to end, and then one poll fewer is left, or it is never to end as before; else it answers its end. One that is
    /// open owes nothing about its answer, and stays open.
    fn poll(&mut self, host: &mut T) -> HostPoll
        ensures answer { MayTell (Self.course self.old) result }
        ensures left { Self.course self.new ≡ one_fewer (Self.course self.old) };
}

/// Makes the work of a guest's call of a host.
pub trait FromHost: HostWork {
    /// Makes the work of a call of the component's host at this place. It has the polls and the end that `def` says, or is
    /// open if that is.
    fn from_host(place: u32, def: HostDef) -> Self
        ensures { Self.course result ≡ def };
}
