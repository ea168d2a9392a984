ghost use Rattle.std.specs.Prelude.{◌≡◌, ◌≤◌, ◌<◌, ◌↔◌, IsTrue, false, true};
ghost use Rattle.task_handles.specs.Counter.{Releases, Reserves, raised, lowered};

use crate::MAX_HANDLES;
use std::marker::Model;

/// How many handles are live over all tables that share this counter, and how many may be.
///
/// The live count is the sum of the live handles of those tables and of the reservations that stand: each call of a table that makes
/// or removes a handle keeps it so. A reservation counts a handle before a table gives it.
#[derive(Drop)]
pub struct HandleCounter {
    limit: u32,
    live: u32,
}

impl Model for HandleCounter {
    ghost use Rattle.std.specs.Prelude.{◌≤◌};
    ghost use Rattle.task_handles.specs.Counter.{Counter};
    ghost use Rattle.task_handles.specs.declared.TheConstants.{MAX_HANDLES};

    ghost Value = { Counter };

    ghost view = { λ c. record { limit = c.limit; live = c.live } };

    ghost invariant = { λ c. (c.limit ≤ MAX_HANDLES) × (c.live ≤ MAX_HANDLES) };
}

impl HandleCounter {
    /// Makes a counter of tables that have no live handle. The limit is at most `MAX_HANDLES`.
    pub fn new(limit: u32) -> Self
        requires { limit ≤ MAX_HANDLES }
        ensures { result ≡ record { limit = limit; live = 0 } }
    {
        HandleCounter { limit, live: 0 }
    }

    /// Returns how many handles may be live at once.
    pub fn limit(&self) -> u32
        ensures value { result ≡ self.now.limit }
        ensures bound { result ≤ MAX_HANDLES }
    {
        self.limit
    }

    /// Returns how many handles are live, over all tables that this counter counts.
    pub fn live(&self) -> u32
        ensures value { result ≡ self.now.live }
        ensures bound { result ≤ MAX_HANDLES }
    {
        self.live
    }

    /// Sets the limit, which is at most `MAX_HANDLES`. A lowered limit blocks new handles only: those that are live stay so, also
    /// where they are more than it allows.
    pub fn set_limit(&mut self, limit: u32)
        requires { limit ≤ MAX_HANDLES }
        ensures { self.new ≡ record self.old { limit = limit } }
    {
        self.limit = limit;
    }

    /// Reserves a handle, which counts as a live one from now on. Returns false exactly if as many handles are live as the limit, or
    /// more; then the counter is as before.
    pub fn reserve(&mut self) -> bool
        ensures refused { (result ≡ false) ↔ (self.old.limit ≤ self.old.live) }
        ensures reserved { result ≡ true → Reserves self.old self.new }
        ensures kept { result ≡ false → self.new ≡ self.old }
    {
        if self.is_full() {
            return false;
        }
        self.raise();
        true
    }

    /// Gives up a reservation, which no longer counts.
    pub fn release(&mut self)
        requires { 0 < self.old.live }
        ensures { Releases self.old self.new }
    {
        self.lower();
    }

    // Whether no more handle may be made.
    pub(crate) fn is_full(&self) -> bool
        ensures full { IsTrue result ↔ (self.now.limit ≤ self.now.live) }
        ensures bound { self.now.limit ≤ MAX_HANDLES }
    {
        self.live >= self.limit
    }

    // Counts a new handle.
    pub(crate) fn raise(&mut self)
        requires { self.old.live < MAX_HANDLES }
        ensures { self.new ≡ raised self.old }
    {
        self.live += 1;
    }

    // No longer counts a handle.
    pub(crate) fn lower(&mut self)
        requires { 0 < self.old.live }
        ensures counter { self.new ≡ lowered self.old }
        ensures bound { self.old.live ≤ MAX_HANDLES }
    {
        self.live -= 1;
    }
}
