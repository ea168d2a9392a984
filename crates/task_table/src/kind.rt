ghost use Rattle.std.specs.Prelude.{◌≡◌, Option, Some, option_copied};
ghost use Rattle.std.specs.Option.{option_copied_mut};
ghost use Rattle.std.specs.Borrow.{LendsIf, sem};
ghost use Rattle.task_table.specs.Kind.{unwrapped};

/// A kind of entry: which entries of a table of `E` are of this kind, and the item that such an entry holds.
///
/// What `wrap` made is viewed and unwrapped as the same item, and every other entry is of another kind.
pub trait Kind<E> {
    /// What an entry of this kind holds.
    type Item;

    // the entry that an item makes
    ghost entry_of: { Self.Item → E };

    // the item of an entry of this kind, and `None` of another kind
    ghost item_of: { E → Option Self.Item };

    /// Returns the entry that holds the item.
    fn wrap(item: Self::Item) -> E
        ensures { result ≡ entry_of item };

    /// Returns the item, if the entry is of this kind.
    fn view(entry: &E) -> Option<&Self::Item>
        ensures { option_copied result ≡ item_of entry.now };

    /// Returns the item for writing, if the entry is of this kind. After a write the entry is what `wrap` makes of the item
    /// written.
    fn view_mut(entry: &mut E) -> Option<&mut Self::Item>
        ensures* writes_back { sem 𝓛 (LendsIf E.row Self.Item.row entry.entry result entry_of entry.old) }
        ensures value { option_copied_mut result ≡ item_of entry.old };

    /// Makes the item, or the entry where it is of another kind.
    fn unwrap(entry: E) -> Result<Self::Item, E>
        ensures { result ≡ unwrapped item_of entry };

    // what `wrap` made is of this kind, with the same item
    ghost wrapped: { (item : Self.Item) → item_of (entry_of item) ≡ Some item };

    // no other entry is of this kind
    ghost no_other: { (entry : E) (item : Self.Item) → item_of entry ≡ Some item → entry_of item ≡ entry };
}
