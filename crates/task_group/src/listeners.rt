ghost use Rattle.std.specs.Prelude.{◌≡◌, ◌↔◌, ◌∷◌, [], IfOk, OnOk, OnErr, IsErr, Some, false, is_some, true};
ghost use Rattle.task_group.specs.Heard.{notice_of};
ghost use Rattle.task_group.specs.Listeners.{nobody, ToldListeners, AnsweredErr, errors_of};

use crate::hook::{TaskGroupHook, tell};
use crate::kept::Kept;
use crate::notice::{HookError, TaskGroupId};
use crate::notices::{NoticeList, Notices};
use machine_data::{NoMemory, Notice, NoticeKind};
use std::alloc::Global;
use std::marker::Model;

/// Who is told of groups: a hook, if there is one, and a list that keeps as many notices as there is room for.
#[derive(Drop)]
pub struct Listeners<H: TaskGroupHook> {
    hook: Option<H>,
    kept: Kept,
}

impl<H: TaskGroupHook> Model for Listeners<H> {
    ghost use Rattle.std.specs.Option.{option_map};
    ghost use Rattle.std.specs.Prelude.{◌≡◌, None, false};
    ghost use Rattle.task_group.specs.Listeners.{Listeners as Shown, listeners_code};

    ghost Value = { Shown };

    ghost coded = { listeners_code };

    ghost view = { λ l. record {
      hook = option_map H.heard l.hook;
      notices = l.kept.notices;
      room = l.kept.room;
    } };

    // Where there is no such hook, there is none.
    ghost invariant = { λ l. H.listens ≡ false → l.hook ≡ None };
}

impl<H: TaskGroupHook> Listeners<H> {
    /// Makes listeners without a hook, with no notice kept.
    pub fn new(alloc: Global) -> Self
        ensures { result ≡ nobody }
    {
        Listeners {
            hook: None,
            kept: Kept::new(alloc),
        }
    }

    /// Returns whether there is a hook. Of a type of which there is none, that is known where this is compiled.
    #[inline(always)]
    pub fn is_hooked(&self) -> bool
        ensures hook { result ≡ is_some self.now.hook }
        ensures listens { result ≡ true → H.listens ≡ true }
    {
        H::listens() && self.hook.is_some()
    }

    /// Hands in the hook, in place of the one before.
    pub fn set_hook(&mut self, hook: H)
        requires { H.listens ≡ true }
        ensures { self.new ≡ record self.old { hook = Some (H.heard hook) } }
    {
        self.hook = Some(hook);
    }

    /// Keeps each notice from now on, until `room` of them are kept. `NoMemory` where there is none for so many; then all is as before.
    pub fn keep_notices(&mut self, room: usize) -> Result<(), NoMemory>
        ensures ok { OnOk result (self.new ≡ record self.old { room = room }) }
        ensures err { OnErr result (self.new ≡ self.old) }
    {
        self.kept.keep(room)
    }

    /// Returns the notices that were kept, in the order in which they were told.
    pub fn notices(&self) -> Notices<'_>
        ensures { result ≡ self.now.notices }
    {
        self.kept.notices()
    }

    /// Lists the notices that were kept, in memory that the list shares. `NoMemory` where there is none for the list.
    pub fn share_notices(&mut self, alloc: Global) -> Result<NoticeList, NoMemory>
        ensures list { IfOk result (λ list. list ≡ self.old.notices) }
        ensures same { self.new ≡ self.old }
    {
        self.kept.share(alloc)
    }

    /// Tells one notice to the list, where there is no hook, and it is kept as a word. Answers whether it was told; else nothing is.
    #[inline(always)]
    pub fn tell_word(&mut self, kind: NoticeKind, id: TaskGroupId) -> bool
        ensures told { result ≡ true → ToldListeners (notice_of kind id ∷ []) self.old self.new }
        ensures hook_is_ok { result ≡ true → errors_of self.new ≡ errors_of self.old }
        ensures none { result ≡ false → self.new ≡ self.old }
    {
        if self.is_hooked() {
            return false;
        }
        self.kept.push_word(Notice {
            kind,
            group: id.number,
        })
    }

    /// Tells one notice to the hook and to the list. An error is the hook's.
    #[inline(always)]
    pub fn tell(&mut self, kind: NoticeKind, id: TaskGroupId) -> Result<(), HookError>
        ensures told { ToldListeners (notice_of kind id ∷ []) self.old self.new }
        ensures answer { IsErr result ↔ AnsweredErr self.old self.new }
    {
        self.kept.push(Notice {
            kind,
            group: id.number,
        });
        match &mut self.hook {
            Some(hook) => tell(hook, kind, id),
            None => Ok(()),
        }
    }
}
