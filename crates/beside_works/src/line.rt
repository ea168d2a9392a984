//! An aborter, and its passes.
ghost use Rattle.std.specs.Prelude.{◌≡◌};
ghost use Rattle.beside_works.specs.Lines.{line_at};

use crate::AborterPass;
use machine_data::Seq;

/// An aborter of a scenario: the number of its line, from 1, and a pass of each cell, in the order of the cells.
#[derive(Drop)]
pub struct Aborter {
    pub number: u32,
    pub passes: Vec<AborterPass>,
    /// It was out of memory for an abort, which wasn't made then.
    pub out_of_memory: bool,
}

// The spawns that the aborter with this number aborts, in order, each counted from 1.
pub(crate) fn line_at(lines: &[Seq<u32>], number: u32) -> &[u32]
    ensures { result.now ≡ line_at lines.now number }
{
    match lines.get((number as usize).saturating_sub(1)) {
        Some(line) => line.as_slice(),
        None => &[],
    }
}
