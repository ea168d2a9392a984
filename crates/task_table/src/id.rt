ghost use Rattle.std.specs.Prelude.{◌≡◌};

use std::marker::PhantomData;

/// Names an entry of the kind `K`: its place in the table, which is given again once the entry is deleted, and a serial, which is not.
///
/// Ids are ordered by place, then by serial, whatever their kind.
#[derive_where(Clone, Copy, PartialEq, Eq, PartialOrd, Ord)]
pub struct TableId<K> {
    /// The entry's place, from 0.
    pub rep: u32,
    /// The number of entries that were made before this one.
    pub serial: u64,
    /// The kind of the entry.
    pub kind: PhantomData<K>,
}

impl<K> TableId<K> {
    /// Makes the id with this place and this serial. It names an entry only where a table holds one there.
    pub fn new(rep: u32, serial: u64) -> TableId<K>
        ensures rep { result.rep ≡ rep }
        ensures serial { result.serial ≡ serial }
    {
        TableId {
            rep,
            serial,
            kind: PhantomData,
        }
    }

    /// Returns the entry's place in the table, from 0. Another entry can have it later.
    pub fn rep(&self) -> u32
        ensures { result ≡ self.now.rep }
    {
        self.rep
    }

    /// Returns the entry's serial, which no other entry of the table ever has.
    pub fn serial(&self) -> u64
        ensures { result ≡ self.now.serial }
    {
        self.serial
    }
}
