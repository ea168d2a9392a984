ghost use Rattle.tests_structures.specs.Hooks.{counting};
ghost use Rattle.std.specs.Prelude.{◌≡◌, None, is_ok, true};
ghost use Rattle.task_group.specs.Heard.{Tells, notice_of};

use std::alloc::Global;
use std::cell::Cell;
use std::process::Abort;
use task_group::{GroupError, Groups, HookError, NoticeKind, Notices, TaskGroupHook, TaskGroupId};

// What was told is written down as two digits for each notice: what happened, and to which group.
const START: u64 = 1;

const ENTER: u64 = 2;

const EXIT: u64 = 3;

const FINISH: u64 = 4;

fn written(kind: NoticeKind) -> u64 {
    match kind {
        NoticeKind::Start => START,
        NoticeKind::Enter => ENTER,
        NoticeKind::Exit => EXIT,
        NoticeKind::Finish => FINISH,
    }
}

// A hook that writes down what it is told, and answers each notice of one kind with an error.
#[derive(Drop)]
struct Recorder<'a> {
    told: &'a Cell<u64>,
    fails: u64,
    errors: u64,
}

impl Recorder<'_> {
    fn answer(&mut self, kind: NoticeKind, id: TaskGroupId) -> Result<(), HookError>
        ensures { Tells (notice_of kind id) (counting self.old.errors) (counting self.new.errors) (is_ok result) }
    {
        let kind = written(kind);
        let notice = kind.wrapping_mul(10).wrapping_add(id.number);
        let before = self.told.get().wrapping_mul(100);
        self.told.set(before.wrapping_add(notice));
        if self.fails == kind && self.errors < u64::MAX {
            self.errors += 1;
            return Err(HookError);
        }
        Ok(())
    }
}

impl TaskGroupHook for Recorder<'_> {
    ghost heard = { λ r. record { told = None; answers = None; errors = r.errors } };

    ghost listens = { true };

    fn listens() -> bool
        ensures { result ≡ true }
    {
        true
    }

    fn handle_start(&mut self, id: TaskGroupId) -> Result<(), HookError> {
        self.answer(NoticeKind::Start, id)
    }

    fn handle_enter(&mut self, id: TaskGroupId) -> Result<(), HookError> {
        self.answer(NoticeKind::Enter, id)
    }

    fn handle_exit(&mut self, id: TaskGroupId) -> Result<(), HookError> {
        self.answer(NoticeKind::Exit, id)
    }

    fn handle_finish(&mut self, id: TaskGroupId) -> Result<(), HookError> {
        self.answer(NoticeKind::Finish, id)
    }
}

type Watched<'a> = Groups<Box<Recorder<'a>>>;

fn id(number: u64) -> TaskGroupId {
    TaskGroupId { number }
}

// Groups whose hook writes to this cell and fails at notices of this kind.
fn watched<'a>(rt: &impl Abort, alloc: Global, told: &'a Cell<u64>, fails: u64) -> Watched<'a> {
    let hook = Recorder {
        told,
        fails,
        errors: 0,
    };
    let Ok(hook) = Box::new(alloc, hook) else {
        panic!(rt; "no memory")
    };
    let mut groups = Groups::new(alloc);
    assert!(rt; groups.made() == 0 && groups.keep_notices(6).is_ok());
    groups.set_hook(hook);
    groups
}

// A new group has this number; or, where that is 0, the hook failed.
fn made(rt: &impl Abort, groups: &mut Watched<'_>, number: u64) {
    assert!(rt; groups.made() < 9);
    let made = number_of(groups.make());
    assert!(rt; made == number);
}

// The group's number, or 0 if the hook failed.
fn number_of(made: Result<TaskGroupId, GroupError>) -> u64 {
    match made {
        Ok(id) => id.number,
        Err(GroupError::HookFailed) => 0,
        Err(GroupError::NoMemory) => u64::MAX,
    }
}

// One more task in a group of one.
fn raised(rt: &impl Abort, groups: &mut Watched<'_>, number: u64) {
    let group = TaskGroupId { number };
    assert!(rt; groups.count(group) == 1);
    groups.increment(group);
    assert!(rt; groups.count(group) == 2);
}

// Whether the hook took both notices.
fn switches(groups: &mut Watched<'_>, old: Option<u64>, new: u64) -> bool {
    let old = match old {
        Some(old) => Some(id(old)),
        None => None,
    };
    groups.switch(old, Some(id(new))).is_ok()
}

// Whether the group finished.
fn lowers(groups: &mut Watched<'_>, number: u64) -> bool {
    matches!(groups.decrement(id(number)), Ok(true))
}

// Two groups, the first with two tasks.
fn two_made(rt: &impl Abort, groups: &mut Watched<'_>) {
    made(rt, groups, 1);
    made(rt, groups, 2);
    raised(rt, groups, 1);
}

// A thread goes from group to group.
fn all_switch(groups: &mut Watched<'_>) -> bool {
    let enters = switches(groups, None, 1);
    let stays = switches(groups, Some(1), 1);
    let goes = switches(groups, Some(1), 2);
    enters && stays && goes
}

// A group of two finishes with the second.
fn second_lowers(groups: &mut Watched<'_>) -> bool {
    let first = lowers(groups, 1);
    let second = lowers(groups, 1);
    let third = lowers(groups, 1);
    !first && second && !third
}

#[test]
fn notices_in_order(rt: HostRuntime) {
    let told = Cell::new(0);
    let mut groups = watched(&rt, rt.alloc(), &told, 0);
    two_made(&rt, &mut groups);
    assert!(rt; all_switch(&mut groups));
    assert!(rt; second_lowers(&mut groups));
    assert!(rt; switches(&mut groups, Some(2), 1));
    groups.clean_up(Some(id(2)));
    assert!(rt; told.get() == 11_12_21_31_22_41_32_32_42);
    assert!(rt; groups.notices().len() == 6);
}

// A hook that fails at notices of one kind: the first group made, or 0, and then what is told.
fn fails_at(rt: &impl Abort, alloc: Global, kind: u64, first: u64, want: u64) {
    let told = Cell::new(0);
    let mut groups = watched(rt, alloc, &told, kind);
    made(rt, &mut groups, first);
    made(rt, &mut groups, first.wrapping_mul(2));
    let (switched, finished) = (switches(&mut groups, Some(1), 2), lowers(&mut groups, 1));
    assert!(rt; switched == (kind == START || kind == FINISH));
    assert!(rt; finished == (kind == ENTER || kind == EXIT));
    assert!(rt; groups.finish_all().is_ok() == (kind != FINISH));
    assert!(rt; told.get() == want);
}

#[test]
fn failing_hooks(rt: HostRuntime) {
    fails_at(&rt, rt.alloc(), START, 0, 11_11);
    fails_at(&rt, rt.alloc(), ENTER, 1, 11_12_31_22_41_42);
    fails_at(&rt, rt.alloc(), EXIT, 1, 11_12_31_41_42);
    fails_at(&rt, rt.alloc(), FINISH, 1, 11_12_31_22_41_42);
}

#[test]
fn no_hook(rt: HostRuntime) {
    let mut groups: Groups = Groups::new(rt.alloc());
    assert!(rt; groups.keep_notices(1).is_ok());
    let made = number_of(groups.make());
    let finished = matches!(groups.decrement(id(made)), Ok(true));
    assert!(rt; finished && first_starts(groups.notices(), 1));
}

// A list has what was kept before it was asked for, and what is kept later goes on behind that.
#[test]
fn shared_lists(rt: HostRuntime) {
    let mut groups: Groups = Groups::new(rt.alloc());
    assert!(rt; groups.keep_notices(3).is_ok());
    let made = number_of(groups.make());
    let early = match groups.share_notices(rt.alloc()) {
        Ok(list) => list.notices().len(),
        Err(_) => 0,
    };
    let entered = groups.switch(None, Some(id(made))).is_ok();
    let late = match groups.share_notices(rt.alloc()) {
        Ok(list) => list.notices().len(),
        Err(_) => 0,
    };
    let left = groups.switch(Some(id(made)), None).is_ok();
    assert!(rt; entered && left && early == 1 && late == 2);
    assert!(rt; groups.notices().len() == 3 && first_starts(groups.notices(), made));
}

// Whether the first notice is that this group starts.
fn first_starts(notices: Notices<'_>, number: u64) -> bool {
    let mut left = notices;
    match left.next() {
        Some(notice) => matches!(notice.kind, NoticeKind::Start) && notice.group == number,
        None => false,
    }
}
