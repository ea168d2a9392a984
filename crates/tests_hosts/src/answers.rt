//! A hook that tells what it was told, and what it answered to each notice.
ghost use Rattle.tests_hosts.specs.Hooks.{keeping};
ghost use Rattle.std.specs.Prelude.{◌≡◌, Some, is_ok, true};
ghost use Rattle.task_group.specs.Heard.{Tells, notice_of};

use std::alloc::Global;
use std::process::Abort;
use task_group::{Groups, HookError, Notice, NoticeKind, TaskGroupHook, TaskGroupId};

// Each notice of the group that fails is answered with an error. If it is out of memory, the test ends.
#[derive(Drop)]
struct Teller<'a, A: Abort> {
    rt: &'a A,
    told: Vec<Notice>,
    answers: Vec<bool>,
    errors: u64,
    fails: u64,
}

impl<A: Abort> Teller<'_, A> {
    fn answer(&mut self, kind: NoticeKind, id: TaskGroupId) -> Result<(), HookError>
        ensures { Tells (notice_of kind id) (keeping self.old.told.items self.old.answers.items self.old.errors)
            (keeping self.new.told.items self.new.answers.items self.new.errors) (is_ok result) }
    {
        let group = id.number;
        let hook_is_ok = self.fails != group || self.errors == u64::MAX;
        let told = self.told.push(Notice { kind, group });
        let answered = self.answers.push(hook_is_ok);
        if told.is_err() || answered.is_err() {
            panic!(self.rt; "no memory");
        }
        if hook_is_ok {
            return Ok(());
        }
        self.errors += 1;
        Err(HookError)
    }
}

impl<A: Abort> TaskGroupHook for Teller<'_, A> {
    ghost heard = { λ t. record { told = Some t.told.items; answers = Some t.answers.items; errors = t.errors } };

    ghost listens = { true };

    fn listens() -> bool
        ensures { result ≡ true }
    {
        true
    }

    fn handle_start(&mut self, id: TaskGroupId) -> Result<(), HookError> {
        self.answer(NoticeKind::Start, id)
    }

    fn handle_enter(&mut self, id: TaskGroupId) -> Result<(), HookError> {
        self.answer(NoticeKind::Enter, id)
    }

    fn handle_exit(&mut self, id: TaskGroupId) -> Result<(), HookError> {
        self.answer(NoticeKind::Exit, id)
    }

    fn handle_finish(&mut self, id: TaskGroupId) -> Result<(), HookError> {
        self.answer(NoticeKind::Finish, id)
    }
}

// The hook refuses the second of two groups.
fn makes_one<A: Abort>(rt: &A, alloc: Global) -> bool {
    let hook = Teller {
        rt,
        told: Vec::new(alloc),
        answers: Vec::new(alloc),
        errors: 0,
        fails: 2,
    };
    let mut groups: Groups<Teller<'_, A>> = Groups::new(alloc);
    groups.set_hook(hook);
    assert!(rt; groups.made() == 0);
    let first = groups.make().is_ok();
    assert!(rt; groups.made() < 2);
    first && groups.make().is_err() && groups.made() == 1 && groups.len() == 1
}

#[test]
fn a_hook_tells_its_answers(rt: HostRuntime) {
    assert!(rt; makes_one(&rt, rt.alloc()));
}
