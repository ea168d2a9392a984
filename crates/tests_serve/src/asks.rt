use std::alloc::Global;
use std::process::Abort;
use vatbramble_host::{
    Answer, Ask, AskingMain, CallId, CallWords, Func, HostError, HostMain, HostRun, Hosted,
    Instance, Outcome, Refusal, Trap,
};

const TEXT: &[u8] =
    b"scenario 1\nhandles 100\ntable 8\nidle trap\ninstance a\nexport add callback 2\nadd r0 r1\nret r0\nexit\nmain\nanswer 0\nend\n";

fn hosted(rt: &impl Abort, alloc: Global) -> Hosted {
    match Hosted::read(alloc, TEXT) {
        Ok(hosted) => hosted,
        Err(_) => panic!(rt; "no scenario"),
    }
}

fn run<D: HostMain + Drop>(rt: &impl Abort, alloc: Global, host: D) -> HostRun<D> {
    match hosted(rt, alloc).run(alloc, host, 100) {
        Ok(run) => run,
        Err(_) => panic!(rt; "no memory"),
    }
}

// The only export, or one that isn't there.
fn export(place: u32) -> Func {
    Func {
        instance: Instance { index: 0 },
        export: place,
    }
}

// A letter for what main is told: a capital one where it was refused.
fn letter(answer: Answer) -> u8 {
    match answer {
        Answer::Begun => b'b',
        Answer::Started(_) => b's',
        Answer::NotStarted(_) => b'n',
        Answer::Finished(_) => b'f',
        Answer::Quiet => b'q',
        Answer::Ready => b'r',
        Answer::Spawned(_) => b'w',
        Answer::Aborted => b'a',
        Answer::Ended => b'e',
        Answer::Pended => b'p',
        Answer::Refused(why) => refusal_letter(why),
    }
}

fn refusal_letter(why: Refusal) -> u8 {
    match why {
        Refusal::NoExport => b'E',
        Refusal::WrongWords => b'W',
        Refusal::NoCall => b'C',
        Refusal::IsFinished => b'F',
        Refusal::NoInstance => b'I',
        Refusal::TooManyCalls => b'T',
        Refusal::NoSpawn => b'S',
        Refusal::TooManySpawns => b'M',
    }
}

// Asks for what isn't there, and then for all that is. It keeps a letter for each thing that it was told.
#[derive(Drop)]
struct Careless {
    told: Vec<u8>,
    call: Option<CallId>,
    sum: u64,
}

impl Careless {
    fn finish(&self) -> Ask {
        match self.call {
            Some(call) => Ask::Finish(call),
            None => Ask::Answer(0),
        }
    }
}

impl HostMain for Careless {
    fn next(&mut self, last: Answer) -> Ask {
        match last {
            Answer::Started(call) => self.call = Some(call),
            Answer::Finished(value) => self.sum = value,
            _ => {}
        }
        let step = self.told.len();
        let Ok(()) = self.told.push(letter(last)) else {
            return Ask::Answer(0);
        };
        match step {
            0 => Ask::Start(export(1), CallWords::of(&[1, 2])),
            1 => Ask::Start(export(0), CallWords::of(&[1])),
            2 => Ask::Start(export(0), CallWords::of(&[1; 17])),
            3 => Ask::Ready(Instance { index: 1 }),
            4 => Ask::Ready(Instance { index: 0 }),
            5 => Ask::Start(export(0), CallWords::of(&[30, 12])),
            6 => Ask::Pend,
            7 | 8 => self.finish(),
            9 => Ask::Quiet,
            _ => Ask::Answer(self.sum),
        }
    }
}

#[test]
fn asks_are_answered(rt: HostRuntime) {
    let careless = Careless {
        told: Vec::new(rt.alloc()),
        call: None,
        sum: 0,
    };
    let run = run(&rt, rt.alloc(), careless);
    let told: &[u8] = b"bEWWIrspfFq";
    assert!(rt; run.host.told.as_slice() == told);
    assert!(rt; matches!(run.outcome, Outcome::Done(42)));
    let Ok(report) = run.print(rt.alloc()) else {
        panic!(rt; "no memory");
    };
    let text: &[u8] =
        b"main ready\nmain start 1 thread 1\nmain pends\ntake high thread 1\nthread 1 add 42\nthread 1 ret 42\nthread 1 exit\nmain finish 1 = 42\nmain quiet\nmain answer 42\ndone 42\n";
    assert!(rt; report.as_slice() == text);
}

// Asks for the result of a call that isn't its own.
#[derive(Drop)]
struct Stranger {
    call: CallId,
    refused: bool,
}

impl HostMain for Stranger {
    fn next(&mut self, last: Answer) -> Ask {
        match last {
            Answer::Refused(Refusal::NoCall) => {
                self.refused = true;
                Ask::Answer(1)
            }
            _ => Ask::Finish(self.call),
        }
    }
}

#[test]
fn calls_of_others_are_refused(rt: HostRuntime) {
    let careless = Careless {
        told: Vec::new(rt.alloc()),
        call: None,
        sum: 0,
    };
    let Some(call) = run(&rt, rt.alloc(), careless).host.call else {
        panic!(rt; "no call");
    };
    let stranger = Stranger {
        call,
        refused: false,
    };
    let run = run(&rt, rt.alloc(), stranger);
    assert!(rt; run.host.refused);
    assert!(rt; matches!(run.outcome, Outcome::Done(1)));
}

// Starts calls until the store refuses one.
#[derive(Drop)]
struct Greedy {
    started: u64,
    last: Option<Trap>,
}

impl HostMain for Greedy {
    fn next(&mut self, last: Answer) -> Ask {
        match last {
            Answer::NotStarted(why) => {
                self.last = Some(why);
                return Ask::Answer(self.started);
            }
            Answer::Started(_) => self.started = self.started.saturating_add(1),
            _ => {}
        }
        Ask::Start(export(0), CallWords::of(&[0, 0]))
    }
}

#[test]
fn starts_are_refused(rt: HostRuntime) {
    let greedy = Greedy {
        started: 0,
        last: None,
    };
    let run = run(&rt, rt.alloc(), greedy);
    assert!(rt; run.host.last == Some(Trap::TableFull));
    assert!(rt; matches!(run.outcome, Outcome::Done(2)));
}

// Asks for nothing that is there.
#[derive(Drop)]
struct Stubborn {
    refused: u32,
}

impl HostMain for Stubborn {
    fn next(&mut self, last: Answer) -> Ask {
        if let Answer::Refused(_) = last {
            self.refused = self.refused.saturating_add(1);
        }
        Ask::Ready(Instance { index: 7 })
    }
}

#[test]
fn others_go_on_after_refusals(rt: HostRuntime) {
    let run = run(&rt, rt.alloc(), Stubborn { refused: 0 });
    assert!(rt; run.host.refused == 63);
    assert!(rt; matches!(run.outcome, Outcome::Deadlock(_)));
}

#[test]
fn a_main_gives_its_host_back(rt: HostRuntime) {
    let main = AskingMain::new(rt.alloc(), Stubborn { refused: 3 });
    assert!(rt; main.into_host().refused == 3);
}

#[test]
fn texts_and_names_are_refused(rt: HostRuntime) {
    assert!(rt;
        matches!(
            Hosted::read(rt.alloc(), b"scenario 3\n"),
            Err(HostError::BadLine(1))
        )
    );
    let hosted = hosted(&rt, rt.alloc());
    assert!(rt; matches!(hosted.func("a", "add"), Ok(func) if func == export(0)));
    assert!(rt; matches!(hosted.func("a", "f"), Err(HostError::NoExport)));
    assert!(rt; matches!(hosted.func("b", "add"), Err(HostError::NoExport)));
}
