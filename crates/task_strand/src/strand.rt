ghost use Rattle.std.specs.Prelude.{◌≡◌, ◌≤◌, ◌<◌, ◌↔◌, [], ◌∷◌, ◌++◌, length, IsTrue, IsSome, IfOk, OnOk, OnErr, option_copied};
ghost use Rattle.std.specs.Option.{option_to_list, option_copied_mut};
ghost use Rattle.std.specs.Borrow.{sem};
ghost use Rattle.task_strand.specs.Strand.{top_of, foot_of};

use crate::frame::Frame;
use machine_data::NoMemory;
use std::alloc::Global;
use std::marker::Model;

/// How many frames a strand may have.
pub const MAX_FRAMES: u32 = 4_294_967_295;

/// The frames of a call that has stopped, from the foot, which was pushed first, to the top, which was pushed last.
///
/// A strand can't be let go: it is spent by `dispose`, or by `finish` once it has no frame left. Each call but `dispose` takes
/// constant time, but for the growth of the list.
pub struct Strand {
    frames: Vec<Frame>,
}

impl Model for Strand {
    ghost use Rattle.std.specs.Prelude.{List, ◌≤◌, length};
    ghost use Rattle.std.specs.Coded.{coded_list};
    ghost use Rattle.task_strand.specs.declared.frame.Frame.{Frame};
    ghost use Rattle.task_strand.specs.contracts.frame.Frame as frame;
    ghost use Rattle.task_strand.specs.declared.strand.TheConstants.{MAX_FRAMES};

    ghost Value = { List Frame };

    ghost coded = { coded_list frame.the_row.coded };

    ghost view = { λ s. s.frames.items };

    ghost invariant = { λ s. length s.frames.items ≤ MAX_FRAMES };
}

impl Strand {
    ghost use Rattle.task_strand.specs.LentFrames.{lends_top};

    /// Makes a strand of one frame, its foot and its top.
    ///
    /// `NoMemory` where there is none for it.
    pub fn new(alloc: Global, frame: Frame) -> Result<Self, NoMemory>
        ensures { IfOk result (λ strand. strand ≡ frame ∷ []) }
    {
        let mut frames = Vec::new(alloc);
        if frames.push(frame).is_err() {
            return Err(NoMemory);
        }
        Ok(Strand { frames })
    }

    /// Puts a frame on top, where there are fewer than `MAX_FRAMES`.
    ///
    /// `NoMemory` where the list can't grow; then the strand is as before.
    pub fn push_frame(&mut self, frame: Frame) -> Result<(), NoMemory>
        requires { length self.old < MAX_FRAMES }
        ensures ok { OnOk result (self.new ≡ self.old ++ frame ∷ []) }
        ensures err { OnErr result (self.new ≡ self.old) }
    {
        if self.frames.push(frame).is_err() {
            return Err(NoMemory);
        }
        Ok(())
    }

    /// Takes the top frame away. `None` exactly where there is no frame.
    pub fn pop_frame(&mut self) -> Option<Frame>
        ensures frames { self.old ≡ self.new ++ option_to_list result }
        ensures found { IsSome result ↔ (0 < length self.old) }
    {
        self.frames.pop()
    }

    /// Returns the frame that was pushed last. `None` exactly where there is no frame.
    pub fn top(&self) -> Option<&Frame>
        ensures { option_copied result ≡ top_of self.now }
    {
        self.frames.last()
    }

    /// Returns the frame that was pushed last, to be written. `None` exactly where there is no frame.
    pub fn top_mut(&mut self) -> Option<&mut Frame>
        ensures* writes_back { sem 𝓛 (lends_top self.entry result) }
        ensures value { option_copied_mut result ≡ top_of self.old }
    {
        self.frames.last_mut()
    }

    /// Returns the frame that was pushed first. `None` exactly where there is no frame.
    pub fn foot(&self) -> Option<&Frame>
        ensures { option_copied result ≡ foot_of self.now }
    {
        self.frames.first()
    }

    /// Returns whether no frame is left.
    pub fn done(&self) -> bool
        ensures { IsTrue result ↔ (self.now ≡ []) }
    {
        self.frames.is_empty()
    }

    /// Drops all frames, in time that grows with their number. Answers how many there were.
    pub fn dispose(self) -> u32
        ensures { result ≡ length self }
    {
        let Strand { frames } = self;
        frames.len() as u32
    }

    /// Ends a strand that has no frame left, which `done` tells.
    pub fn finish(self)
        requires { self ≡ [] }
    {
        let Strand { frames: _ } = self;
    }
}
