use machine_data::{CallOp, Callee, DataOp, ExportKind, Op, Operand};
use std::alloc::Global;
use std::process::Abort;
use text_scenario::{
    HostText, HostWork, InstanceText, MainOpText, PartText, ScenarioText, TextError, number_up_to,
    one_tree, read_text,
};

const ONE_CALL: &[u8] =
    b"scenario 1\nhandles 100000\ntable 1000000\nidle trap\ninstance a\nexport f callback 1\nret r0\nexit\nmain\nstart a.f 7\nfinish 1 r0\nanswer r0\nend\n";

const TWO_INSTANCES: &[u8] =
    b"scenario 1\nhandles 100000\ntable 1000000\nidle trap\ninstance a\nexport f callback 2\nset r3 r0\nadd r3 18446744073709551615\nhandle r15 r3\nload r4 15\nstore 0 9\nskip_eq r3 0 4096\nret_bad r3\nexport g callback 0\ninstance b\ninstance c\nexport f callback 0\nmain\nstart c.f\nstart a.f 7 r2\nfinish 2 r0\nstart a.g\nfinish 1 r1\nanswer r0\nend";

const EACH_LINE: &[u8] =
    b"scenario 1\nhandles 9\ntable 99\nidle wait\nhost disk polls 9 value 100\nhost net polls 0 fail\nhost dead never\ninstance a\nexport f callback 1\nset_new r1\ncb_wait r1\nreact\ncode 3\nbad 15\nthread 0\nwait r13 0\npoll r0 1\njoin 1 0\nset_drop 1\nexport g sync 2\nbp_inc\nbp_dec\ntask_cancel\ninstance b\nexport f stackful 0\ncall r3 r4 a.g 1 r2\ncall_sync r3 disk\ncancel r3 4\ncancel_sync r3 4\ndrop 4\nthread_new r1 0 7\nthread_index r2\nresume_later 1\nsuspend\nyield\nsuspend_then_resume 1\nyield_then_resume 1\nsuspend_then_promote 1\nyield_then_promote 1\nmain\nspawn net\nstart b.f\nabort 1\nawait 1\nquiet\nready a.g\nfinish 1 r0\nanswer r0\naborter 1 1\nend\n";

const NOTHING: &[u8] = b"scenario 1\nhandles 0\ntable 0\nidle trap\nmain\nanswer 0\nend\n";

fn read(rt: &impl Abort, alloc: Global, text: &[u8]) -> ScenarioText {
    assert!(rt; text.len() <= 1_048_576);
    match read_text(alloc, text) {
        Ok(tree) => tree,
        Err(_) => panic!(rt; "a scenario"),
    }
}

// The text with or without its last newline has one instance.
fn has_one_instance(rt: &impl Abort, alloc: Global, text: &[u8]) {
    let tree = read(rt, alloc, text);
    assert!(rt; tree.handles == 100_000);
    assert!(rt; tree.instances.len() == 1 && tree.main.len() == 2);
}

#[test]
fn reads_one_call(rt: HostRuntime) {
    has_one_instance(&rt, rt.alloc(), ONE_CALL);
    has_one_instance(&rt, rt.alloc(), &ONE_CALL[..ONE_CALL.len() - 1]);
    assert!(rt; read_text(rt.alloc(), NOTHING).is_ok());
    one_tree();
}

fn skips(op: &Op) -> bool {
    matches!(
        op,
        Op::Data(DataOp::SkipEq {
            left: Operand::Register(3),
            right: Operand::Number(0),
            ops: 4096,
        })
    )
}

fn starts(op: &MainOpText) -> bool {
    matches!(
        op,
        MainOpText::Start(Callee { instance: 0, export: 0 }, params) if params.len() == 2
    )
}

// The first instance has two exports, of which the first has seven ops.
fn has_two_exports(rt: &impl Abort, instance: &InstanceText) {
    assert!(rt; instance.parts.len() == 2);
    let Some(PartText::Export(export)) = instance.parts.as_slice().first() else {
        panic!(rt; "an export")
    };
    assert!(rt; export.start.len() == 7);
    assert!(rt; sixth_skips(export.start.as_slice()));
}

fn sixth_skips(ops: &[Op]) -> bool {
    match ops.get(5) {
        Some(op) => skips(op),
        None => false,
    }
}

fn second_starts(ops: &[MainOpText]) -> bool {
    match ops.get(1) {
        Some(op) => starts(op),
        None => false,
    }
}

fn has_many_instances(rt: &impl Abort, tree: &ScenarioText) {
    assert!(rt; tree.instances.len() == 3);
    match tree.instances.as_slice().first() {
        Some(instance) => has_two_exports(rt, instance),
        None => panic!(rt; "an instance"),
    }
    assert!(rt; second_starts(tree.main.as_slice()));
}

#[test]
fn reads_many_instances(rt: HostRuntime) {
    let tree = read(&rt, rt.alloc(), TWO_INSTANCES);
    has_many_instances(&rt, &tree);
}

fn calls(op: &Op) -> bool {
    matches!(
        op,
        Op::Call(CallOp::Call { to: 3, result: 4, callee: Callee { instance: 0, export: 1 }, params }) if params.len() == 2
    )
}

// The second instance calls the first one's second export, which is after two slots.
fn has_call(rt: &impl Abort, instance: &InstanceText) {
    let Some(PartText::Export(export)) = instance.parts.as_slice().first() else {
        panic!(rt; "an export")
    };
    assert!(rt; matches!(export.kind, ExportKind::Stackful));
    assert!(rt; export.react.is_none());
    assert!(rt; first_calls(export.start.as_slice()));
}

fn first_calls(ops: &[Op]) -> bool {
    match ops.first() {
        Some(op) => calls(op),
        None => false,
    }
}

fn first_has_value(hosts: &[HostText]) -> bool {
    match hosts.first() {
        Some(host) => matches!(host.work, HostWork::Value(9, 100)),
        None => false,
    }
}

fn has_each_line(rt: &impl Abort, tree: &ScenarioText) {
    assert!(rt; tree.hosts.len() == 3);
    assert!(rt; tree.main.len() == 7);
    assert!(rt; tree.aborters.len() == 1);
    assert!(rt; first_has_value(tree.hosts.as_slice()));
    match tree.instances.as_slice().get(1) {
        Some(instance) => has_call(rt, instance),
        None => panic!(rt; "an instance"),
    }
}

#[test]
fn reads_each_line(rt: HostRuntime) {
    let tree = read(&rt, rt.alloc(), EACH_LINE);
    has_each_line(&rt, &tree);
}

#[test]
fn numbers_have_limits(rt: HostRuntime) {
    assert!(rt; matches!(number_up_to(b"40", 40), Some(40)));
    assert!(rt; number_up_to(b"41", 40).is_none() && number_up_to(b"007", 40).is_none());
}

// The text's first bad line is this.
fn is_bad_at(rt: &impl Abort, alloc: Global, text: &[u8], line: u32) {
    assert!(rt; text.len() <= 1_048_576);
    assert!(rt; bad_line(read_text(alloc, text)) == line);
}

// The first bad line, or 0 if there is none.
fn bad_line(read: Result<ScenarioText, TextError>) -> u32 {
    match read {
        Err(TextError::Bad(line)) => line,
        _ => 0,
    }
}

// These lines after four that say the limits and what is done when idle.
fn is_bad_below(rt: &impl Abort, alloc: Global, lines: &[u8], line: u32) {
    let mut text = four_lines(rt, alloc);
    assert!(rt; text.extend_from_slice(lines).is_ok());
    is_bad_at(rt, alloc, text.as_slice(), line);
}

fn four_lines(rt: &impl Abort, alloc: Global) -> Vec<u8> {
    match Vec::from_slice(alloc, b"scenario 1\nhandles 1\ntable 1\nidle trap\n") {
        Ok(text) => text,
        Err(_) => panic!(rt; "no memory"),
    }
}

#[test]
fn names_the_first_bad_line(rt: HostRuntime) {
    is_bad_at(&rt, rt.alloc(), b"", 1);
    is_bad_at(&rt, rt.alloc(), b"\n", 1);
    is_bad_at(&rt, rt.alloc(), b"scenario 1\nhandles 0100000\n", 2);
    is_bad_at(
        &rt,
        rt.alloc(),
        b"scenario 1\nhandles 268435456\ntable 0\n",
        2,
    );
    is_bad_at(
        &rt,
        rt.alloc(),
        b"scenario 1\nhandles 268435455\ntable 1000001\n",
        3,
    );
    is_bad_at(&rt, rt.alloc(), &ONE_CALL[..ONE_CALL.len() - 4], 13);
}

#[test]
fn names_the_first_line_that_cannot_be_there(rt: HostRuntime) {
    is_bad_below(&rt, rt.alloc(), b"instance 1a\n", 5);
    is_bad_below(&rt, rt.alloc(), b"instance a\nmain\n", 7);
    is_bad_below(&rt, rt.alloc(), b"instance a\nthread 3\ncb_yield\n", 7);
    is_bad_below(&rt, rt.alloc(), b"instance a\nthread 3\nbad 3\n", 7);
    is_bad_below(&rt, rt.alloc(), b"instance a\nexport f sync 0\nreact\n", 7);
    is_bad_below(
        &rt,
        rt.alloc(),
        b"instance a\nexport f sync 0\ncall_sync r0 a.f\n",
        7,
    );
    is_bad_below(&rt, rt.alloc(), b"main\nanswer 0\naborter 1\n", 7);
}

#[test]
fn names_the_first_line_with_a_bad_name(rt: HostRuntime) {
    is_bad_below(&rt, rt.alloc(), b"instance a\ninstance b\ninstance a\n", 7);
    is_bad_below(&rt, rt.alloc(), b"host a never\nhost a never\n", 6);
    let twice = b"instance a\nexport f callback 0\nexport f callback 0\n";
    is_bad_below(&rt, rt.alloc(), twice, 7);
    let unknown = b"instance a\nexport f callback 0\nmain\nstart a.g\n";
    is_bad_below(&rt, rt.alloc(), unknown, 8);
    let finished = b"instance a\nexport f callback 0\nmain\nstart a.f\nfinish 1 r0\nfinish 1 r0\n";
    is_bad_below(&rt, rt.alloc(), finished, 10);
}
