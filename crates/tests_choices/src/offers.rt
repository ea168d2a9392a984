use choice_offers::{HeldOrder, Offered, no_spot};
use core_state::TaskCore;
use machine_data::Seq;
use std::alloc::Global;
use std::process::Abort;
use trace_machine::{Choice, Offer, fits};

/// Makes a list of these numbers.
pub(crate) fn list(rt: &impl Abort, alloc: Global, numbers: &[u64]) -> Seq<u64> {
    match Vec::from_slice(alloc, numbers) {
        Ok(numbers) => Seq::from_vec(numbers),
        Err(_) => panic!(rt; "no memory"),
    }
}

// It wakes thread 3, and releases these.
fn releasing(rt: &impl Abort, alloc: Global, release: &[u64]) -> Choice {
    Choice {
        waiter: Some(3),
        member: None,
        release: list(rt, alloc, release),
    }
}

#[test]
fn a_choice_fits_what_is_offered(rt: HostRuntime) {
    let alloc = rt.alloc();
    let offer = Offer {
        waiters: list(&rt, alloc, &[2, 3]),
        members: Seq::new(alloc),
        held: list(&rt, alloc, &[5, 4]),
    };
    assert!(rt; offer.is_open());
    let Ok(first) = offer.first_choice(alloc) else {
        panic!(&rt; "no memory")
    };
    assert!(rt; fits(&first, &offer));
    assert!(rt; fits(&releasing(&rt, alloc, &[4, 5]), &offer));
    assert!(rt; !fits(&releasing(&rt, alloc, &[4]), &offer));
    assert!(rt; !fits(&releasing(&rt, alloc, &[4, 4]), &offer));
}

#[test]
fn a_new_core_offers_nothing(rt: HostRuntime) {
    let alloc = rt.alloc();
    let core = TaskCore::new(alloc);
    let mut held = HeldOrder::new(alloc);
    assert!(rt; held.add(4).is_ok());
    let mut threads = Vec::new(alloc);
    assert!(rt; held.put_in_order(&mut threads).is_ok());
    let Ok(offered) = Offered::at(alloc, &core, &held, no_spot(&core)) else {
        panic!(&rt; "no memory")
    };
    let Ok(offer) = offered.offer(alloc) else {
        panic!(&rt; "no memory")
    };
    assert!(rt; !offer.is_open());
}
