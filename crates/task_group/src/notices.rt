//! Lists of notices in little room.
ghost use Rattle.std.specs.Arc.{arc_value};
ghost use Rattle.std.specs.Prelude.{◌≡◌, [], IfErr, IfOk, length};
ghost use Rattle.task_group.specs.Packed.{listed};

use crate::packed::{LARGE, opened, packed};
use machine_data::{NoMemory, Notice};
use std::alloc::Global;
use std::marker::Model;
use std::sync::Arc;

/// The notices of a list that are left, one after another. A contract sees the list of them.
#[derive(Drop)]
pub struct Notices<'a> {
    pub(crate) words: &'a [u32],
    pub(crate) whole: &'a [Notice],
    // Those that come after these.
    pub(crate) later_words: &'a [u32],
    pub(crate) later_whole: &'a [Notice],
}

impl<'a> Model for Notices<'a> {
    ghost use Rattle.std.specs.Prelude.{◌++◌, List};
    ghost use Rattle.task_group.specs.Packed.{listed};
    ghost use Rattle.machine_data.specs.declared.records.Notice.{Notice};

    ghost Value = { List Notice };

    ghost view = { λ l. listed l.words.now l.whole.now ++ listed l.later_words.now l.later_whole.now };
}

impl<'a> Notices<'a> {
    /// Returns how many are left.
    pub fn len(&self) -> usize
        ensures { result ≡ length self.now }
    {
        self.words.len() + self.whole.len() + self.later_words.len() + self.later_whole.len()
    }
}

impl<'a> Iterator for Notices<'a> {
    type Item = Notice;

    ghost use Rattle.std.specs.Iterator.{YieldsFirst, item_count};

    ghost next_gives = { YieldsFirst (λ l. l) };

    ghost remaining = { item_count (λ l. l) };

    fn next(&mut self) -> Option<Notice> {
        if let Some((word, words)) = self.words.split_first() {
            self.words = words;
            return Some(opened(*word));
        }
        if let Some((notice, whole)) = self.whole.split_first() {
            self.whole = whole;
            return Some(*notice);
        }
        if let Some((word, words)) = self.later_words.split_first() {
            self.later_words = words;
            return Some(opened(*word));
        }
        let (notice, whole) = self.later_whole.split_first()?;
        self.later_whole = whole;
        Some(*notice)
    }
}

/// Notices as they were told: words, and from the first on that doesn't fit one, whole.
#[derive(Drop)]
pub(crate) struct Written {
    pub(crate) words: Vec<u32>,
    pub(crate) whole: Vec<Notice>,
}

/// The notices that a store's groups had kept. A contract sees the list of them.
///
/// A notice takes 4 bytes as long as the numbers of the groups are below 2^30, and 16 from the first on that isn't. The groups
/// share that memory with the list.
#[derive(Drop)]
pub struct NoticeList {
    written: Option<Arc<Written, Global>>,
}

impl Model for NoticeList {
    ghost use Rattle.std.specs.Arc.{arc_value};
    ghost use Rattle.std.specs.Option.{option_map_or};
    ghost use Rattle.std.specs.Prelude.{[], List};
    ghost use Rattle.task_group.specs.Packed.{listed};
    ghost use Rattle.task_group.specs.declared.notices.Written.{Written};
    ghost use Rattle.machine_data.specs.declared.records.Notice.{Notice};

    ghost Value = { List Notice };

    ghost view = { λ l. option_map_or (λ a. let w : Written = arc_value a in listed w.words.items w.whole.items) l.written [] };
}

impl NoticeList {
    // No notice.
    pub(crate) fn none() -> NoticeList
        ensures { result ≡ [] }
    {
        NoticeList { written: None }
    }

    // These notices. If it is out of memory they are given back.
    pub(crate) fn of(alloc: Global, written: Written) -> Result<NoticeList, Written>
        ensures ok { IfOk result (λ list. list ≡ listed written.words.items written.whole.items) }
        ensures err { IfErr result (λ back. back ≡ written) }
    {
        match Arc::new(alloc, written) {
            Ok(written) => Ok(NoticeList {
                written: Some(written),
            }),
            Err(failed) => Err(failed.value),
        }
    }

    // A copy of these notices.
    pub(crate) fn copied(alloc: Global, notices: Notices<'_>) -> Result<NoticeList, NoMemory>
        ensures { IfOk result (λ list. list ≡ notices.entry) }
    {
        let mut words = Vec::new(alloc);
        let mut whole = Vec::new(alloc);
        'all: for notice in notices {
            if whole.len() == 0 && notice.group < LARGE {
                let Ok(()) = words.push(packed(notice)) else {
                    return Err(NoMemory);
                };
            } else {
                let Ok(()) = whole.push(notice) else {
                    return Err(NoMemory);
                };
            }
        }
        match NoticeList::of(alloc, Written { words, whole }) {
            Ok(list) => Ok(list),
            Err(_) => Err(NoMemory),
        }
    }

    // Makes a second list of the same notices. Both share the memory.
    pub(crate) fn share(&self) -> Result<NoticeList, NoMemory>
        ensures { IfOk result (λ list. list ≡ self.now) }
    {
        match &self.written {
            Some(written) => match Arc::try_clone(written) {
                Ok(written) => Ok(NoticeList {
                    written: Some(written),
                }),
                Err(_) => Err(NoMemory),
            },
            None => Ok(NoticeList::none()),
        }
    }

    // The notices as they are written: words, and those that are whole.
    pub(crate) fn parts(&self) -> (&[u32], &[Notice])
        ensures { listed result.0.now result.1.now ≡ self.now }
    {
        match &self.written {
            Some(written) => (written.words.as_slice(), written.whole.as_slice()),
            None => (&[], &[]),
        }
    }

    /// Returns the notices, the first one first.
    pub fn notices(&self) -> Notices<'_>
        ensures { result ≡ self.now }
    {
        let (words, whole) = self.parts();
        Notices {
            words,
            whole,
            later_words: &[],
            later_whole: &[],
        }
    }
}
