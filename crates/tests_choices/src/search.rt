//! The search over all runs.
use crate::texts::{IS_LOWERED, STAYS_RAISED};
use choice_search::{Explored, Kinds, explore};
use machine_data::{Outcome, Trap};

#[test]
fn kinds_say_what_is_looked_for(rt: HostRuntime) {
    assert!(rt; Kinds::all().has(Outcome::Idle));
    assert!(rt; !Kinds::none().has(Outcome::Idle));
}

#[test]
fn a_fault_is_found_that_a_later_host_shows(rt: HostRuntime) {
    let alloc = rt.alloc();
    let Ok(Explored::Found(found)) = explore(
        alloc,
        STAYS_RAISED,
        200,
        Some(1),
        10_000,
        Kinds::all(),
    ) else {
        panic!(&rt; "nothing was found")
    };
    assert!(rt; matches!(found.report.outcome, Outcome::Deadlock(Trap::AsyncDeadlock)));
    assert!(rt; found.choices.is_empty());
    let Ok(Explored::None(runs)) = explore(alloc, IS_LOWERED, 200, Some(1), 10_000, Kinds::all())
    else {
        panic!(&rt; "something was found")
    };
    assert!(rt; runs == 2);
    assert!(rt;
        matches!(
            explore(alloc, IS_LOWERED, 200, Some(1), 10, Kinds::all()),
            Ok(Explored::Cut(10))
        )
    );
}
