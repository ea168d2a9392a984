//! The label that was added last.
ghost use Rattle.std.specs.List.{last_or};
ghost use Rattle.std.specs.Prelude.{◌≡◌, None};

use crate::open::open;
use crate::packed::PackedLabels;
use machine_data::Label;

impl PackedLabels {
    /// Returns the label that was added last; none if there is none.
    pub fn last(&self) -> Option<Label>
        ensures { result ≡ last_or None self.now.labels }
    {
        let head = self.heads.last()?;
        let from = self.numbers.len().saturating_sub(head.count.into());
        let (_, own) = self.numbers.split_at(from);
        Some(open(*head, own))
    }
}
