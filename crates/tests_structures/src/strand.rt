use std::process::Abort;
use task_strand::{Frame, Half, Strand};

fn frame(thread: u64) -> Frame {
    Frame {
        thread,
        script: 3,
        place: 4,
        half: Half::Fresh,
    }
}

// The thread of a frame, or 0 if there is none.
fn thread_of(frame: Option<Frame>) -> u64 {
    match frame {
        Some(frame) => frame.thread,
        None => 0,
    }
}

fn foot_thread(strand: &Strand) -> u64 {
    match strand.foot() {
        Some(frame) => frame.thread,
        None => 0,
    }
}

// Whether the frame on top saved what `saves` saves there.
fn is_saved(strand: &Strand) -> bool {
    match strand.top() {
        Some(frame) => matches!(frame.half, Half::Saved(9, Some(true))),
        None => false,
    }
}

fn saves(strand: &mut Strand) {
    if let Some(top) = strand.top_mut() {
        top.half = Half::Saved(9, Some(true));
    }
}

#[test]
fn frames_are_pushed_read_and_taken(rt: HostRuntime) {
    let Ok(mut strand) = Strand::new(rt.alloc(), frame(1)) else {
        panic!(rt; "no memory")
    };
    assert!(rt; strand.push_frame(frame(2)).is_ok());
    saves(&mut strand);
    assert!(rt; foot_thread(&strand) == 1);
    assert!(rt; is_saved(&strand));
    both_popped(&rt, &mut strand);
    assert!(rt; strand.done());
    strand.finish();
}

fn both_popped(rt: &impl Abort, strand: &mut Strand) {
    assert!(rt; thread_of(strand.pop_frame()) == 2);
    assert!(rt; !strand.done());
    assert!(rt; thread_of(strand.pop_frame()) == 1);
}

#[test]
fn a_strand_is_given_up_with_its_frames(rt: HostRuntime) {
    let Ok(strand) = Strand::new(rt.alloc(), frame(1)) else {
        panic!(rt; "no memory")
    };
    assert!(rt; strand.dispose() == 1);
}
