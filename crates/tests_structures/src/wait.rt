use machine_data::Status;
use std::process::Abort;
use task_table::TableId;
use task_wait::{
    BLOCKED, EXIT, Event, Links, NoMemory, Node, WAIT, Waitable, WaitableSet, WaiterKey, YIELD,
    callback_code_unpacks, others_stay, packed_status_unpacks, unpack_callback_code,
    waitables_by_kind_and_id, waiters_by_task_and_thread,
};

fn unpacks(code: u32, what: u32, set: u32) -> bool {
    unpack_callback_code(code) == (what, set)
}

fn has_parts(event: Event, first: u32, second: u32) -> bool {
    event.parts() == (first, second)
}

#[test]
fn codes_are_the_stated_numbers(rt: HostRuntime) {
    assert!(rt; Status::Started.pack(Some(5)) == 81 && Status::Returned.pack(None) == 2);
    assert!(rt; Status::StartCancelled.pack(Some(1)) == 19);
    assert!(rt; unpacks(18, WAIT, 1) && unpacks(0, EXIT, 0) && unpacks(1, YIELD, 0));
    assert!(rt; has_parts(Event::Subtask(Status::Started), 1, 1));
    assert!(rt; has_parts(Event::Subtask(Status::ReturnCancelled), 1, 4));
    assert!(rt; has_parts(Event::Cancelled, 6, 0) && has_parts(Event::None, 0, 0));
    assert!(rt; BLOCKED == u32::MAX);
    packed_status_unpacks(Status::Started, Some(5));
    callback_code_unpacks(WAIT, 1);
}

fn guest(rep: u32) -> Waitable {
    Waitable::Guest(TableId::new(rep, 0))
}

fn waiter(task: u32) -> WaiterKey {
    WaiterKey {
        task,
        thread: 7,
        serial: 0,
    }
}

fn made<T: Drop>(rt: &impl Abort, answer: Result<T, NoMemory>) -> T {
    match answer {
        Ok(it) => it,
        Err(_) => panic!(rt; "there was no memory"),
    }
}

// The links of a set. Each call asks first what the set's call requires.
#[derive(Drop)]
struct Room {
    ready: Links<Waitable>,
    waiting: Links<WaiterKey>,
}

impl Room {
    fn mark(&mut self, rt: &impl Abort, set: &mut WaitableSet, waitable: Waitable) -> Node {
        let node = made(rt, self.ready.make_node());
        assert!(rt; set.is_live(&self.ready, &self.waiting) && self.ready.is_free(node));
        set.mark(&mut self.ready, node, waitable);
        node
    }

    fn unmark(&mut self, rt: &impl Abort, set: &mut WaitableSet, node: Node) -> bool {
        assert!(rt; set.is_live(&self.ready, &self.waiting) && self.ready.is_made(node));
        set.unmark(&mut self.ready, node)
    }

    fn first_ready(&self, rt: &impl Abort, set: &WaitableSet) -> Option<Waitable> {
        assert!(rt; set.is_live(&self.ready, &self.waiting));
        set.first_ready(&self.ready)
    }

    fn add_waiter(&mut self, rt: &impl Abort, set: &mut WaitableSet, key: WaiterKey) -> Node {
        let node = made(rt, self.waiting.make_node());
        assert!(rt; set.is_live(&self.ready, &self.waiting) && self.waiting.is_free(node));
        set.add_waiter(&mut self.waiting, node, key);
        node
    }

    fn add_waiter_last(&mut self, rt: &impl Abort, set: &mut WaitableSet, key: WaiterKey) {
        let node = made(rt, self.waiting.make_node());
        assert!(rt; set.is_live(&self.ready, &self.waiting) && self.waiting.is_free(node));
        set.add_waiter_last(&mut self.waiting, node, key);
    }

    fn take_first_waiter(&mut self, rt: &impl Abort, set: &mut WaitableSet) -> Option<WaiterKey> {
        assert!(rt; set.is_live(&self.ready, &self.waiting) && set.has_waiters(&self.waiting));
        set.take_first_waiter(&mut self.waiting)
    }

    fn remove_waiter(&mut self, rt: &impl Abort, set: &mut WaitableSet, node: Node) -> bool {
        assert!(rt; set.is_live(&self.ready, &self.waiting) && self.waiting.is_made(node));
        set.remove_waiter(&mut self.waiting, node)
    }

    fn close(&mut self, rt: &impl Abort, set: WaitableSet) {
        assert!(rt; set.is_empty(&self.ready, &self.waiting));
        set.close(&mut self.ready, &mut self.waiting);
    }
}

#[test]
fn the_least_of_a_set_comes_first(rt: HostRuntime) {
    let mut room = Room {
        ready: Links::new(rt.alloc(), guest(0)),
        waiting: Links::new(rt.alloc(), waiter(0)),
    };
    let set = WaitableSet::new(true, &mut room.ready, &mut room.waiting);
    let mut set = made(&rt, set);
    assert!(rt; set.is_sync());
    let second = room.mark(&rt, &mut set, guest(2));
    let first = room.mark(&rt, &mut set, guest(1));
    assert!(rt; room.first_ready(&rt, &set) == Some(guest(1)));
    assert!(rt; room.unmark(&rt, &mut set, first) && !room.unmark(&rt, &mut set, first));
    assert!(rt; room.unmark(&rt, &mut set, second));
    let second = room.add_waiter(&rt, &mut set, waiter(2));
    room.add_waiter(&rt, &mut set, waiter(1));
    room.add_waiter_last(&rt, &mut set, waiter(0));
    assert!(rt; room.take_first_waiter(&rt, &mut set) == Some(waiter(1)));
    assert!(rt; room.remove_waiter(&rt, &mut set, second));
    assert!(rt; room.take_first_waiter(&rt, &mut set) == Some(waiter(0)));
    room.close(&rt, set);
    waitables_by_kind_and_id(guest(1), guest(2));
    waiters_by_task_and_thread(waiter(1), waiter(2));
}

// Puts the node into the chain, before its first or behind its last.
fn push(rt: &impl Abort, links: &mut Links<u32>, chain: usize, node: Node, value: u32) {
    assert!(rt; links.is_live(chain) && links.is_free(node));
    if value < 2 {
        links.push_front(chain, node, value);
    } else {
        links.push_back(chain, node, value);
    }
}

fn remove(rt: &impl Abort, links: &mut Links<u32>, chain: usize, node: Node) {
    assert!(rt; links.is_live(chain) && links.is_made(node));
    links.no_node_is_twice();
    others_stay(links, chain, node);
    assert!(rt; matches!(links.remove(node), Some((from, 2)) if from == chain));
}

fn drop_both(rt: &impl Abort, links: &mut Links<u32>, chain: usize, node: Node) {
    assert!(rt; links.is_free(node));
    links.drop_node(node);
    assert!(rt; !links.is_made(node) && links.is_empty(chain));
    links.drop_chain(chain);
    assert!(rt; !links.is_live(chain));
}

// The values of the chain's first and last node, and of those beside this one.
fn around(rt: &impl Abort, links: &Links<u32>, chain: usize, node: Node) -> [u32; 4] {
    assert!(rt; links.is_live(chain) && links.is_made(node) && !links.is_free(node));
    [
        value_of(links.first(chain)),
        value_of(links.previous(node)),
        value_of(links.next(node)),
        value_of(links.last(chain)),
    ]
}

fn value_of(link: Option<(Node, u32)>) -> u32 {
    match link {
        Some((_, value)) => value,
        None => u32::MAX,
    }
}

#[test]
fn links_are_lists_over_nodes(rt: HostRuntime) {
    let mut links: Links<u32> = Links::new(rt.alloc(), 0);
    let chain = made(&rt, links.make_chain());
    let first = made(&rt, links.make_node());
    let middle = made(&rt, links.make_node());
    let last = made(&rt, links.make_node());
    push(&rt, &mut links, chain, middle, 2);
    push(&rt, &mut links, chain, last, 3);
    push(&rt, &mut links, chain, first, 1);
    remove(&rt, &mut links, chain, middle);
    assert!(rt; links.is_made(last) && !links.is_free(last) && links.is_free(middle));
    links.insert_before(last, middle, 5);
    assert!(rt; around(&rt, &links, chain, middle) == [1, 1, 3, 3]);
    assert!(rt; links.is_made(middle));
    assert!(rt; matches!(links.get(middle), Some((at, 5)) if at == chain));
    let empty = made(&rt, links.make_chain());
    let free = made(&rt, links.make_node());
    drop_both(&rt, &mut links, empty, free);
}
