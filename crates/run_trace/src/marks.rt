//! The marks of the entries that a run took, by the heads of its labels alone.
ghost use Rattle.laws_labels.specs.Own.{mark_taken};
ghost use Rattle.run_trace.specs.Marks.{mark_in};
ghost use Rattle.std.specs.Prelude.{◌≡◌, None, map, slice_index_or};

use crate::kinds::LabelKind;
use crate::packed::PackedLabels;
use machine_data::Mark;

// The mark that a label of this kind shows.
fn mark_of(kind: LabelKind) -> Option<Mark>
    ensures { result ≡ mark_in kind }
{
    match kind {
        LabelKind::Take(mark, _) | LabelKind::Own(mark, _) | LabelKind::Given(mark, _) => Some(
            mark,
        ),
        _ => None,
    }
}

impl PackedLabels {
    /// Returns the mark at which the entry was that the label at this place, from 0, shows as taken. None if that is no label of a
    /// taking, and past the last label. Its numbers aren't read.
    #[inline(always)]
    pub fn mark(&self, place: usize) -> Option<Mark>
        ensures { result ≡ slice_index_or (map mark_taken self.now.labels) place None }
    {
        match self.heads.get(place) {
            Some(head) => mark_of(head.kind),
            None => None,
        }
    }
}
