//! The small public types compare by their fields.
use core_primitives::{CallId, ThreadId, WorkId};
use core_state::Scope;
use machine_data::{Mark, Phase, Status, Trap};
use ops_state::{CurrentThread, QualifiedThreadId};
use std::hash::{DefaultHasher, Hash, Hasher};
use std::process::Abort;
use task_group::TaskGroupId;
use task_handles::{Rep, WaitableKind};
use task_loop::{Func, Instance, ResumeThread, SuspensionTarget};
use task_table::TableId;
use task_wait::Event;

#[test]
fn words_compare(rt: HostRuntime) {
    assert!(rt; Trap::BadHandle == Trap::BadHandle);
    assert!(rt; Trap::BadHandle != Trap::HandleLimit);
    assert!(rt; Phase::Running == Phase::Running);
    assert!(rt; Phase::Running != Phase::Complete);
    assert!(rt; Status::Started != Status::Returned);
    assert!(rt; Mark::High != Mark::Low);
    assert!(rt; Event::Subtask(Status::Started) == Event::Subtask(Status::Started));
    assert!(rt; Event::Subtask(Status::Started) != Event::Subtask(Status::Returned));
    assert!(rt; WaitableKind::Stream != WaitableKind::Future);
    assert!(rt; ResumeThread::Promote != ResumeThread::Resume);
    assert!(rt; SuspensionTarget::Resume(1) != SuspensionTarget::Resume(2));
    assert!(rt; SuspensionTarget::Resume(1) == SuspensionTarget::Resume(1));
}

#[test]
fn names_compare(rt: HostRuntime) {
    let task: CallId = TableId::new(1, 4);
    let thread: ThreadId = TableId::new(2, 5);
    let later: ThreadId = TableId::new(2, 6);
    let work: WorkId = TableId::new(1, 4);
    let first = QualifiedThreadId { task, thread };
    let second = QualifiedThreadId {
        task,
        thread: later,
    };
    assert!(rt; first < second);
    assert!(rt; CurrentThread::Guest(first) == CurrentThread::Guest(first));
    assert!(rt; CurrentThread::Guest(first) != CurrentThread::None);
    assert!(rt; Scope::Id(task) != Scope::HostId(work));
    assert!(rt; Rep { id: 1, serial: 2 } != Rep { id: 1, serial: 3 });
    let instance = Instance { index: 0 };
    assert!(rt; instance == Instance { index: 0 });
    assert!(rt;
        Func {
            instance,
            export: 0
        } != Func {
            instance,
            export: 1
        }
    );
}

fn hash_of(group: TaskGroupId) -> u64 {
    let mut hasher = DefaultHasher::new();
    group.hash(&mut hasher);
    hasher.finish()
}

#[test]
fn groups_compare(rt: HostRuntime) {
    let first = TaskGroupId { number: 1 };
    let second = TaskGroupId { number: 2 };
    assert!(rt; first < second);
    assert!(rt; first == TaskGroupId { number: 1 });
    assert!(rt; hash_of(first) == hash_of(TaskGroupId { number: 1 }));
    assert!(rt; hash_of(first) != hash_of(second));
}
