//! What was read so far, and what each kind of line adds to it.
ghost use Rattle.std.specs.Prelude.{◌≡◌, OnErr, Some, map};
ghost use Rattle.std.specs.Option.{option_map};
ghost use Rattle.text_lines.specs.Gives.{Gives, BecomesValue};
ghost use Rattle.text_lines.specs.declared.keyword.Keyword.TheVariants as keyword;
ghost use Rattle.text_lines.specs.declared.keyword.MainKeyword.TheVariants as main_keyword;
ghost use Rattle.text_scenario.specs.State.{with_op, with_part, start_of, finish_of, spawn_of, ready_of, main_op_of};

use crate::callee::{call_of, callee_of, fitting_export, host_place, params_of};
use crate::main_lines::MainLines;
use crate::placement::{
    export_opens, host_opens, instance_opens, is_callback, op_opens, slot_opens,
};
use crate::tree::{ExportText, HostText, InstanceText, MainOpText, PartText, ScenarioText};
use machine_data::{DataOp, ExportKind, IdleLine, Op, Operand, Seq, Version};
use std::alloc::Global;
use std::mem;
use text_lines::{
    DataKeyword, HeadLine, Keyword, Line, LineError, MainKeyword, Name, NamedCall, NamedOp,
    PartLine, data_op_after, finish_tokens, line_after, start_tokens, target, task_op_after,
};

/// The head, the hosts, and the instances that are closed.
pub struct Body {
    pub version: Version,
    pub handles: u32,
    pub table: u32,
    pub idle: IdleLine,
    pub hosts: Seq<HostText>,
    pub instances: Seq<InstanceText>,
}

// Drops by hand, here and below, so that letting such a value go is one call, proved once: what a derive writes is proved anew at each
// place where one ends.
impl Drop for Body {
    fn drop(self) {
        let Body {
            version: _,
            handles: _,
            table: _,
            idle: _,
            hosts: _,
            instances: _,
        } = self;
    }
}

impl Body {
    ghost use Rattle.text_scenario.specs.State.{whole};

    // The whole text, which ends with these lines of main.
    fn whole(self, main: MainLines, answer: Operand, aborters: Seq<Seq<u32>>) -> ScenarioText
        ensures { result ≡ whole self main answer aborters }
    {
        let Body {
            version,
            handles,
            table,
            idle,
            hosts,
            instances,
        } = self;
        let main = main.into_ops();
        ScenarioText {
            version,
            handles,
            table,
            idle,
            hosts,
            instances,
            main,
            answer,
            aborters,
        }
    }
}

/// The line with which an export opens.
pub struct Opening {
    pub name: Name,
    pub kind: ExportKind,
    pub params: u32,
}

impl Drop for Opening {
    fn drop(self) {
        let Opening {
            name: _,
            kind: _,
            params: _,
        } = self;
    }
}

impl Opening {
    ghost use Rattle.text_scenario.specs.State.{export_from};

    fn export(self, start: Seq<Op>, react: Option<Seq<Op>>) -> ExportText
        ensures { result ≡ export_from self start react }
    {
        let Opening { name, kind, params } = self;
        ExportText {
            name,
            kind,
            params,
            start,
            react,
        }
    }
}

// The instance with one more part.
fn with_part(
    body: Body,
    mut instance: InstanceText,
    part: PartText,
) -> Result<(Body, InstanceText), LineError>
    ensures { Gives result (Some (body, with_part instance part)) }
{
    match instance.parts.push(part) {
        Ok(()) => Ok((body, instance)),
        Err(_) => Err(LineError::NoMemory),
    }
}

#[inline(always)]
#[tactic(auto, unfolding(crate::specs::State::with_op))]
fn push_op(callback: bool, ops: &mut Seq<Op>, op: Op) -> Result<(), LineError>
    ensures value { BecomesValue ops.new result (with_op callback ops.old op) }
    ensures err { OnErr result (ops.new ≡ ops.old) }
{
    if !op_opens(callback, ops.as_slice(), &op) {
        return Err(LineError::Bad);
    }
    ops.push(op)?;
    Ok(())
}

// The ops of main that lines are, after those before them.
#[tactic(auto, unfolding(crate::specs::State::start_of))]
fn start_of(
    instances: &[InstanceText],
    before: &MainLines,
    instance: &[u8],
    export: &[u8],
    operands: Seq<Operand>,
) -> Option<MainOpText>
    ensures { result ≡ start_of instances.now before.now instance.now export.now operands }
{
    let callee = fitting_export(instances, instance, export, operands.as_slice())?;
    if !before.start_opens() {
        return None;
    }
    Some(MainOpText::Start(callee, operands))
}

#[tactic(auto, unfolding(crate::specs::State::finish_of))]
fn finish_of(before: &MainLines, start: u32, register: u8) -> Option<MainOpText>
    ensures { result ≡ finish_of before.now start register }
{
    before
        .finish_opens(start)
        .then_some(MainOpText::Finish(start, register))
}

#[tactic(auto, unfolding(crate::specs::State::spawn_of))]
fn spawn_of(hosts: &[HostText], before: &MainLines, name: &[u8]) -> Option<MainOpText>
    ensures { result ≡ spawn_of hosts.now before.now name.now }
{
    let host = host_place(hosts, name)?;
    before.spawn_opens().then_some(MainOpText::Spawn(host))
}

#[tactic(auto, unfolding(crate::specs::State::ready_of))]
fn ready_of(
    instances: &[InstanceText],
    before: &MainLines,
    instance: &[u8],
    export: &[u8],
) -> Option<MainOpText>
    ensures { result ≡ ready_of instances.now before.now instance.now export.now }
{
    let callee = callee_of(instances, instance, export)?;
    let _params = params_of(instances, callee)?;
    before.has_room().then_some(MainOpText::Ready(callee))
}

#[tactic(auto, unfolding(crate::specs::State::main_op_of))]
fn main_op_of(body: &Body, before: &MainLines, op: NamedOp) -> Option<MainOpText>
    ensures { result ≡ main_op_of body.now before.now op }
{
    let (hosts, instances) = (body.hosts.as_slice(), body.instances.as_slice());
    match op {
        NamedOp::Start(instance, export, operands) => start_of(
            instances,
            before,
            instance.as_slice(),
            export.as_slice(),
            operands,
        ),
        NamedOp::Finish(start, register) => finish_of(before, start, register),
        NamedOp::Spawn(host) => spawn_of(hosts, before, host.as_slice()),
        NamedOp::Abort(k) => before.spawn_named(k).then_some(MainOpText::Abort(k)),
        NamedOp::Await(k) => before.spawn_named(k).then_some(MainOpText::Await(k)),
        NamedOp::Quiet => before.has_room().then_some(MainOpText::Quiet),
        NamedOp::Ready(instance, export) => {
            ready_of(instances, before, instance.as_slice(), export.as_slice())
        }
    }
}

/// What the lines so far have said.
pub enum State {
    Empty,
    Titled(Version),
    Handles(Version, u32),
    Table(Version, u32, u32),
    /// No instance has begun.
    Hosts(Body),
    /// An instance is open, and no script.
    Instance(Body, InstanceText),
    /// An export is open, with its start script so far.
    Script(Body, InstanceText, Opening, Seq<Op>),
    /// An export is open, with its start script and its react script so far.
    React(Body, InstanceText, Opening, Seq<Op>, Seq<Op>),
    /// A slot is open, with its script so far.
    Thread(Body, InstanceText, u8, Seq<Op>),
    Main(Body, MainLines),
    /// Main has answered; the aborters so far.
    Answered(Body, MainLines, Operand, Seq<Seq<u32>>),
    Ended(ScenarioText),
}

impl Drop for State {
    fn drop(self) {
        match self {
            State::Empty | State::Titled(_) => {}
            State::Handles(_, _) | State::Table(_, _, _) => {}
            State::Hosts(_) | State::Instance(_, _) => {}
            State::Script(_, _, _, _) | State::React(_, _, _, _, _) => {}
            State::Thread(_, _, _, _) | State::Main(_, _) => {}
            State::Answered(_, _, _, _) | State::Ended(_) => {}
        }
    }
}

impl State {
    ghost use Rattle.text_scenario.specs.State.{script_closed, instance_closed, main_open, script_body, after_title, after_handles, after_table, after_idle, after_head, after_host, after_instance, after_export, after_react, after_thread, after_bad, after_part, after_op, after_call, after_main, after_main_op, after_answer, after_aborter, after_end, after, after_keyword, after_tokens, scenario_of, StaysOrEmpty};

    #[tactic(auto, unfolding(crate::specs::State::script_closed))]
    fn close_script(self) -> Result<(Body, InstanceText), LineError>
        ensures { Gives result (script_closed self) }
    {
        match self {
            State::Instance(body, instance) => Ok((body, instance)),
            State::Script(body, instance, opening, start) => {
                with_part(
                    body,
                    instance,
                    PartText::Export(opening.export(start, None)),
                )
            }
            State::React(body, instance, opening, start, react) => {
                let export = opening.export(start, Some(react));
                with_part(body, instance, PartText::Export(export))
            }
            State::Thread(body, instance, slot, ops) => {
                with_part(body, instance, PartText::Thread(slot, ops))
            }
            _ => Err(LineError::Bad),
        }
    }

    #[tactic(auto, unfolding(crate::specs::State::instance_closed))]
    fn close_instance(self) -> Result<Body, LineError>
        ensures { Gives result (instance_closed self) }
    {
        if let State::Hosts(body) = self {
            return Ok(body);
        }
        let (mut body, instance) = self.close_script()?;
        body.instances.push(instance)?;
        Ok(body)
    }

    #[tactic(auto, unfolding(crate::specs::State::after_title))]
    fn after_title(self, version: Version) -> Result<State, LineError>
        ensures { Gives result (after_title self version) }
    {
        if let State::Empty = self {
            return Ok(State::Titled(version));
        }
        Err(LineError::Bad)
    }

    #[tactic(auto, unfolding(crate::specs::State::after_handles))]
    fn after_handles(self, handles: u32) -> Result<State, LineError>
        ensures { Gives result (after_handles self handles) }
    {
        if let State::Titled(version) = self {
            return Ok(State::Handles(version, handles));
        }
        Err(LineError::Bad)
    }

    #[tactic(auto, unfolding(crate::specs::State::after_table))]
    fn after_table(self, table: u32) -> Result<State, LineError>
        ensures { Gives result (after_table self table) }
    {
        match self {
            State::Handles(version, handles) => Ok(State::Table(version, handles, table)),
            _ => Err(LineError::Bad),
        }
    }

    #[tactic(auto, unfolding(crate::specs::State::after_idle))]
    fn after_idle(self, alloc: Global, idle: IdleLine) -> Result<State, LineError>
        ensures { Gives result (after_idle self idle) }
    {
        match self {
            State::Table(version, handles, table) => Ok(State::Hosts(Body {
                version,
                handles,
                table,
                idle,
                hosts: Seq::new(alloc),
                instances: Seq::new(alloc),
            })),
            _ => Err(LineError::Bad),
        }
    }

    #[tactic(auto, unfolding(crate::specs::State::after_head))]
    fn after_head(self, alloc: Global, line: HeadLine) -> Result<State, LineError>
        ensures { Gives result (after_head self line) }
    {
        match line {
            HeadLine::Title(version) => self.after_title(version),
            HeadLine::Handles(handles) => self.after_handles(handles),
            HeadLine::Table(table) => self.after_table(table),
            HeadLine::Idle(idle) => self.after_idle(alloc, idle),
        }
    }

    #[tactic(auto, unfolding(crate::specs::State::after_host))]
    fn after_host(self, host: HostText) -> Result<State, LineError>
        ensures { Gives result (after_host self host) }
    {
        match self {
            State::Hosts(mut body) => {
                if !host_opens(body.hosts.as_slice(), host.name.as_slice()) {
                    return Err(LineError::Bad);
                }
                body.hosts.push(host)?;
                Ok(State::Hosts(body))
            }
            _ => Err(LineError::Bad),
        }
    }

    #[tactic(auto, unfolding(crate::specs::State::after_instance))]
    fn after_instance(self, alloc: Global, name: Name) -> Result<State, LineError>
        ensures { Gives result (after_instance self name) }
    {
        let body = self.close_instance()?;
        if !instance_opens(body.instances.as_slice(), name.as_slice()) {
            return Err(LineError::Bad);
        }
        let parts = Seq::new(alloc);
        Ok(State::Instance(body, InstanceText { name, parts }))
    }

    #[tactic(auto, unfolding(crate::specs::State::after_export))]
    fn after_export(self, alloc: Global, opening: Opening) -> Result<State, LineError>
        ensures { Gives result (after_export self opening) }
    {
        let (body, instance) = self.close_script()?;
        if !export_opens(
            body.instances.as_slice(),
            instance.parts.as_slice(),
            opening.name.as_slice(),
        ) {
            return Err(LineError::Bad);
        }
        Ok(State::Script(body, instance, opening, Seq::new(alloc)))
    }

    #[tactic(auto, unfolding(crate::specs::State::after_react))]
    fn after_react(self, alloc: Global) -> Result<State, LineError>
        ensures { Gives result (after_react self) }
    {
        match self {
            State::Script(body, instance, opening, start) => {
                if !is_callback(opening.kind) {
                    return Err(LineError::Bad);
                }
                let react = Seq::new(alloc);
                Ok(State::React(body, instance, opening, start, react))
            }
            _ => Err(LineError::Bad),
        }
    }

    #[tactic(auto, unfolding(crate::specs::State::after_thread))]
    fn after_thread(self, alloc: Global, slot: u8) -> Result<State, LineError>
        ensures { Gives result (after_thread self slot) }
    {
        let (body, instance) = self.close_script()?;
        if !slot_opens(instance.parts.as_slice(), slot) {
            return Err(LineError::Bad);
        }
        Ok(State::Thread(body, instance, slot, Seq::new(alloc)))
    }

    #[tactic(auto, unfolding(crate::specs::State::after_bad))]
    fn after_bad(self, slot: u8) -> Result<State, LineError>
        ensures { Gives result (after_bad self slot) }
    {
        let (body, mut instance) = self.close_script()?;
        if !slot_opens(instance.parts.as_slice(), slot) {
            return Err(LineError::Bad);
        }
        instance.parts.push(PartText::Bad(slot))?;
        Ok(State::Instance(body, instance))
    }

    #[tactic(auto, unfolding(crate::specs::State::after_part))]
    fn after_part(self, alloc: Global, line: PartLine) -> Result<State, LineError>
        ensures { Gives result (after_part self line) }
    {
        match line {
            PartLine::Host(name, work) => self.after_host(HostText { name, work }),
            PartLine::Instance(name) => self.after_instance(alloc, name),
            PartLine::Export(name, kind, params) => {
                self.after_export(alloc, Opening { name, kind, params })
            }
            PartLine::React => self.after_react(alloc),
            PartLine::Thread(slot) => self.after_thread(alloc, slot),
            PartLine::Bad(slot) => self.after_bad(slot),
        }
    }

    #[inline(never)]
    #[tactic(auto, unfolding(crate::specs::State::after_op))]
    fn add_op(&mut self, op: Op) -> Result<(), LineError>
        ensures value { BecomesValue self.new result (after_op self.old op) }
        ensures err { OnErr result (self.new ≡ self.old) }
    {
        match self {
            State::Script(_, _, opening, start) => push_op(is_callback(opening.kind), start, op),
            State::React(_, _, _, _, react) => push_op(true, react, op),
            State::Thread(_, _, _, ops) => push_op(false, ops, op),
            _ => Err(LineError::Bad),
        }
    }

    #[tactic(auto, unfolding(crate::specs::State::script_body))]
    fn script_body(&self) -> Option<&Body>
        ensures { option_map (λ b. b.now) result ≡ script_body self.now }
    {
        match self {
            State::Script(body, ..) => Some(body),
            State::React(body, ..) => Some(body),
            State::Thread(body, ..) => Some(body),
            _ => None,
        }
    }

    // Adds a call. It stays a function of its own, as `add_line`.
    #[inline(never)]
    #[tactic(auto, unfolding(crate::specs::State::after_call))]
    fn add_call(&mut self, call: NamedCall) -> Result<(), LineError>
        ensures value { BecomesValue self.new result (after_call self.old call) }
        ensures err { OnErr result (self.new ≡ self.old) }
    {
        let body = self.script_body().ok_or(LineError::Bad)?;
        let op = call_of(body.hosts.as_slice(), body.instances.as_slice(), call);
        let op = op.ok_or(LineError::Bad)?;
        self.add_op(Op::Call(op))
    }

    #[tactic(auto, unfolding(crate::specs::State::after_main))]
    fn after_main(self, alloc: Global) -> Result<State, LineError>
        ensures { Gives result (after_main self) }
    {
        let body = self.close_instance()?;
        Ok(State::Main(body, MainLines::new(alloc)))
    }

    #[tactic(auto, unfolding(crate::specs::State::main_open))]
    fn open_main(self) -> Result<(Body, MainLines), LineError>
        ensures { Gives result (main_open self) }
    {
        match self {
            State::Main(body, ops) => Ok((body, ops)),
            _ => Err(LineError::Bad),
        }
    }

    // Adds an op of main in place. It stays a function of its own, as `add_line`.
    #[inline(never)]
    #[tactic(auto, unfolding(crate::specs::State::after_main_op, crate::specs::State::main_open))]
    fn add_main_op(&mut self, op: NamedOp) -> Result<(), LineError>
        ensures value { BecomesValue self.new result (after_main_op self.old op) }
        ensures err { OnErr result (self.new ≡ self.old) }
    {
        let State::Main(body, ops) = self else {
            return Err(LineError::Bad);
        };
        let Some(op) = main_op_of(body, ops, op) else {
            return Err(LineError::Bad);
        };
        ops.push(op)?;
        Ok(())
    }

    // Adds a start in place: its names aren't copied. It stays a function of its own, as `add_line`.
    #[inline(never)]
    #[tactic(auto, unfolding(text_lines::specs::Line::line_after, text_lines::specs::Line::main_op_after, crate::specs::State::after, crate::specs::State::after_main_op, crate::specs::State::main_open, crate::specs::State::main_op_of, crate::specs::State::start_of))]
    fn add_start(&mut self, alloc: Global, tokens: &[&[u8]]) -> Result<(), LineError>
        ensures value { BecomesValue self.new result
            (after_keyword self.old (keyword.Main main_keyword.Start) (map (λ w. w.now) tokens.now)) }
        ensures err { OnErr result (self.new ≡ self.old) }
    {
        let (instance, export, operands) = start_tokens(alloc, tokens)?;
        let State::Main(body, ops) = self else {
            return Err(LineError::Bad);
        };
        let instances = body.instances.as_slice();
        let Some(callee) = fitting_export(instances, instance, export, operands.as_slice()) else {
            return Err(LineError::Bad);
        };
        if !ops.start_opens() {
            return Err(LineError::Bad);
        }
        ops.push_start(callee, operands)?;
        Ok(())
    }

    // Adds a finish in place. It stays a function of its own, as `add_line`.
    #[inline(never)]
    #[tactic(auto, unfolding(text_lines::specs::Line::line_after, text_lines::specs::Line::main_op_after, crate::specs::State::after, crate::specs::State::after_main_op, crate::specs::State::main_open, crate::specs::State::main_op_of))]
    fn add_finish(&mut self, tokens: &[&[u8]]) -> Result<(), LineError>
        ensures value { BecomesValue self.new result
            (after_keyword self.old (keyword.Main main_keyword.Finish) (map (λ w. w.now) tokens.now)) }
        ensures err { OnErr result (self.new ≡ self.old) }
    {
        let Some((start, to)) = finish_tokens(tokens) else {
            return Err(LineError::Bad);
        };
        let State::Main(_, ops) = self else {
            return Err(LineError::Bad);
        };
        let Some(op) = finish_of(ops, start, to) else {
            return Err(LineError::Bad);
        };
        ops.push(op)?;
        Ok(())
    }

    #[tactic(auto, unfolding(crate::specs::State::after_answer))]
    fn after_answer(self, alloc: Global, value: Operand) -> Result<State, LineError>
        ensures { Gives result (after_answer self value) }
    {
        let (body, ops) = self.open_main()?;
        Ok(State::Answered(body, ops, value, Seq::new(alloc)))
    }

    #[tactic(auto, unfolding(crate::specs::State::after_aborter))]
    fn after_aborter(self, spawns: Seq<u32>) -> Result<State, LineError>
        ensures { Gives result (after_aborter self spawns) }
    {
        match self {
            State::Answered(body, ops, value, mut before) => {
                if !ops.aborter_opens(before.as_slice(), spawns.as_slice()) {
                    return Err(LineError::Bad);
                }
                before.push(spawns)?;
                Ok(State::Answered(body, ops, value, before))
            }
            _ => Err(LineError::Bad),
        }
    }

    #[tactic(auto, unfolding(crate::specs::State::after_end))]
    fn after_end(self) -> Result<State, LineError>
        ensures { Gives result (after_end self) }
    {
        match self {
            State::Answered(body, main, answer, aborters) => {
                Ok(State::Ended(body.whole(main, answer, aborters)))
            }
            _ => Err(LineError::Bad),
        }
    }

    fn taken(&mut self) -> State
        ensures value { result ≡ self.old }
        ensures empty { self.new ≡ State.Empty }
    {
        mem::replace(self, State::Empty)
    }

    #[tactic(auto, unfolding(crate::specs::State::after))]
    fn after_line(self, alloc: Global, line: Line) -> Result<State, LineError>
        ensures { Gives result (after self line) }
    {
        match line {
            Line::Head(line) => self.after_head(alloc, line),
            Line::Part(line) => self.after_part(alloc, line),
            Line::Op(op) => {
                let mut state = self;
                state.add_op(op)?;
                Ok(state)
            }
            Line::Call(call) => {
                let mut state = self;
                state.add_call(call)?;
                Ok(state)
            }
            Line::Main => self.after_main(alloc),
            Line::MainOp(op) => {
                let mut state = self;
                state.add_main_op(op)?;
                Ok(state)
            }
            Line::Answer(value) => self.after_answer(alloc, value),
            Line::Aborter(spawns) => self.after_aborter(spawns),
            Line::End => self.after_end(),
        }
    }

    // Adds any line. It stays a function of its own, so that the lines of scripts don't pay for its values.
    #[inline(never)]
    #[tactic(auto, unfolding(crate::specs::State::after))]
    fn add_line(
        &mut self,
        alloc: Global,
        keyword: Keyword,
        tokens: &[&[u8]],
    ) -> Result<(), LineError>
        ensures value { BecomesValue self.new result (after_keyword self.old keyword (map (λ w. w.now) tokens.now)) }
        ensures err { OnErr result (StaysOrEmpty self.old self.new) }
    {
        match line_after(alloc, keyword, tokens)? {
            Line::Op(op) => self.add_op(op),
            Line::Call(call) => self.add_call(call),
            Line::MainOp(op) => self.add_main_op(op),
            line => {
                *self = self.taken().after_line(alloc, line)?;
                Ok(())
            }
        }
    }

    // Adds an op on registers. The frequent ones are made where they are added, with no copy in between.
    #[inline(always)]
    #[tactic(auto, unfolding(text_lines::specs::Line::line_after, text_lines::specs::Line::data_op_after, crate::specs::State::after))]
    fn add_data(&mut self, token: DataKeyword, tokens: &[&[u8]]) -> Result<(), LineError>
        ensures value { BecomesValue self.new result (after_keyword self.old (keyword.Data token) (map (λ w. w.now) tokens.now)) }
        ensures err { OnErr result (self.new ≡ self.old) }
    {
        match token {
            DataKeyword::Set => {
                let Some((to, value)) = target(tokens) else {
                    return Err(LineError::Bad);
                };
                self.add_op(Op::Data(DataOp::Set { to, value }))
            }
            DataKeyword::Add => {
                let Some((to, value)) = target(tokens) else {
                    return Err(LineError::Bad);
                };
                self.add_op(Op::Data(DataOp::Add { to, value }))
            }
            token => {
                let Some(op) = data_op_after(token, tokens) else {
                    return Err(LineError::Bad);
                };
                self.add_op(Op::Data(op))
            }
        }
    }

    // Adds an op of main. The frequent ones are made where they are added, as those on registers.
    #[inline(always)]
    fn add_main(
        &mut self,
        alloc: Global,
        token: MainKeyword,
        tokens: &[&[u8]],
    ) -> Result<(), LineError>
        ensures value { BecomesValue self.new result (after_keyword self.old (keyword.Main token) (map (λ w. w.now) tokens.now)) }
        ensures err { OnErr result (StaysOrEmpty self.old self.new) }
    {
        match token {
            MainKeyword::Start => self.add_start(alloc, tokens),
            MainKeyword::Finish => self.add_finish(tokens),
            token => self.add_line(alloc, Keyword::Main(token), tokens),
        }
    }

    /// Adds the line that these tokens spell to what was read. After an error the state is as before, or empty.
    #[tactic(auto, unfolding(crate::specs::State::after_tokens, crate::specs::State::after, text_lines::specs::Line::line_at, text_lines::specs::Line::line_after))]
    pub fn add(&mut self, alloc: Global, tokens: &[&[u8]]) -> Result<(), LineError>
        ensures value { BecomesValue self.new result (after_tokens self.old (map (λ w. w.now) tokens.now)) }
        ensures err { OnErr result (StaysOrEmpty self.old self.new) }
    {
        let Some((token, tokens)) = tokens.split_first() else {
            return Err(LineError::Bad);
        };
        let Some(keyword) = Keyword::from_token(token) else {
            return Err(LineError::Bad);
        };
        match keyword {
            Keyword::Data(token) => self.add_data(token, tokens),
            Keyword::Task(token) => {
                let Some(op) = task_op_after(token, tokens) else {
                    return Err(LineError::Bad);
                };
                self.add_op(Op::Task(op))
            }
            Keyword::Main(token) => self.add_main(alloc, token, tokens),
            keyword => self.add_line(alloc, keyword, tokens),
        }
    }

    /// Returns the scenario, if it has ended.
    #[tactic(auto, unfolding(crate::specs::State::scenario_of))]
    pub fn into_scenario(self) -> Option<ScenarioText>
        ensures { result ≡ scenario_of self }
    {
        match self {
            State::Ended(scenario) => Some(scenario),
            _ => None,
        }
    }
}
