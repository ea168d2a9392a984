//! The notices that are kept.
ghost use Rattle.std.specs.Prelude.{◌≡◌, ◌≤◌, ◌-◌, [], ◌∷◌, ◌++◌, IfOk, OnOk, OnErr, false, length, take, true, vec_capacity};
ghost use Rattle.task_group.specs.KeptNotices.{nothing};

use crate::notices::{NoticeList, Notices, Written};
use crate::packed::{LARGE, packed};
use machine_data::{NoMemory, Notice};
use std::alloc::Global;
use std::marker::Model;
use std::mem;

/// As many notices as there is room for, in their order: those that are shared with a list, and behind them words, and from the
/// first on that doesn't fit one, whole.
#[derive(Drop)]
pub struct Kept {
    words: Vec<u32>,
    whole: Vec<Notice>,
    // So many are kept behind those that are shared.
    left: usize,
    // A notice of a group whose number is below this one is kept as a word: 0 as soon as one is kept whole.
    below: u64,
    room: usize,
    shared: NoticeList,
}

impl Model for Kept {
    ghost use Rattle.std.specs.Prelude.{◌≡◌, ◌++◌, ◌-◌, length, vec_capacity};
    ghost use Rattle.task_group.specs.KeptNotices.{Kept as Shown, IsSound};
    ghost use Rattle.task_group.specs.Packed.{listed};

    ghost Value = { Shown };

    ghost view = { λ k. record { notices = k.shared ++ listed k.words.items k.whole.items; room = k.room } };

    ghost invariant = { λ k. IsSound k.whole.items k.below k.left (vec_capacity k.words) (vec_capacity k.whole) × (k.left ≡ k.room - length k.shared) };
}

impl Kept {
    /// Makes it with no notice kept.
    pub fn new(alloc: Global) -> Self
        ensures { result ≡ nothing }
    {
        Kept {
            words: Vec::new(alloc),
            whole: Vec::new(alloc),
            left: 0,
            below: LARGE,
            room: 0,
            shared: NoticeList::none(),
        }
    }

    /// Begins to keep so many. `NoMemory` where there is none for them; then all is as before. What isn't used of that memory isn't
    /// touched.
    pub fn keep(&mut self, room: usize) -> Result<(), NoMemory>
        ensures ok { OnOk result (self.new ≡ record self.old { room = room }) }
        ensures err { OnErr result (self.new ≡ self.old) }
    {
        let left = room.saturating_sub(self.shared.notices().len());
        if self.words.reserve_exact(left).is_err() {
            return Err(NoMemory);
        }
        if self.whole.reserve_exact(left).is_err() {
            return Err(NoMemory);
        }
        self.left = left;
        self.room = room;
        Ok(())
    }

    /// Returns the notices, the first one first.
    pub fn notices(&self) -> Notices<'_>
        ensures { result ≡ self.now.notices }
    {
        let (words, whole) = self.shared.parts();
        Notices {
            words,
            whole,
            later_words: self.words.as_slice(),
            later_whole: self.whole.as_slice(),
        }
    }

    /// Keeps one more, if there is room.
    #[inline(always)]
    pub fn push(&mut self, notice: Notice)
        ensures { self.new ≡ record self.old { notices = self.old.notices ++ take (self.old.room - length self.old.notices) (notice ∷ []) } }
    {
        if !self.push_word(notice) {
            self.push_whole(notice);
        }
    }

    /// Keeps one notice more if that takes 4 bytes at most. Answers whether it did; if not, nothing was kept.
    #[inline(always)]
    pub fn push_word(&mut self, notice: Notice) -> bool
        ensures kept { result ≡ true → self.new ≡ record self.old { notices = self.old.notices ++ take (self.old.room - length self.old.notices) (notice ∷ []) } }
        ensures none { result ≡ false → self.new ≡ self.old }
    {
        if notice.group >= self.below {
            return false;
        }
        if self.words.len() < self.left {
            self.words.push_reserved(packed(notice));
        }
        true
    }

    // Keeps one notice more, as a word or whole. It is a function of its own, as few groups have numbers that don't fit a word.
    #[cold]
    #[inline(never)]
    fn push_whole(&mut self, notice: Notice)
        ensures { self.new ≡ record self.old { notices = self.old.notices ++ take (self.old.room - length self.old.notices) (notice ∷ []) } }
    {
        if self.words.len() + self.whole.len() < self.left {
            self.below = 0;
            self.whole.push_reserved(notice);
        }
    }

    /// Returns a list of the notices, whose memory it shares with those. If it is out of memory, there is none, and all is as
    /// before. It takes time that doesn't depend on their number, but for one that is asked for after others were kept behind one.
    pub fn share(&mut self, alloc: Global) -> Result<NoticeList, NoMemory>
        ensures list { IfOk result (λ list. list ≡ self.old.notices) }
        ensures same { self.new ≡ self.old }
    {
        let own = self.words.len() + self.whole.len();
        if own == 0 {
            return self.shared.share();
        }
        if self.shared.notices().len() != 0 {
            return NoticeList::copied(alloc, self.notices());
        }
        let left = self.left.saturating_sub(own);
        let (words, whole) = room_for(alloc, left)?;
        let written = Written {
            words: mem::replace(&mut self.words, words),
            whole: mem::replace(&mut self.whole, whole),
        };
        match NoticeList::of(alloc, written) {
            Ok(shared) => {
                self.left = left;
                self.shared = shared;
                self.shared.share()
            }
            Err(written) => {
                self.words = written.words;
                self.whole = written.whole;
                Err(NoMemory)
            }
        }
    }
}

// Room for so many, which isn't touched.
fn room_for(alloc: Global, left: usize) -> Result<(Vec<u32>, Vec<Notice>), NoMemory>
    ensures words { IfOk result (λ r. (r.0.items ≡ []) × (left ≤ vec_capacity r.0)) }
    ensures whole { IfOk result (λ r. (r.1.items ≡ []) × (left ≤ vec_capacity r.1)) }
{
    let mut words = Vec::new(alloc);
    let mut whole = Vec::new(alloc);
    if words.reserve_exact(left).is_err() {
        return Err(NoMemory);
    }
    if whole.reserve_exact(left).is_err() {
        return Err(NoMemory);
    }
    Ok((words, whole))
}
