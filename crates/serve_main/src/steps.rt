//! The steps of a server: it replies a refusal, finishes the least call that has ended, starts the next request, answers, or waits.
ghost use Rattle.serve_main.specs.Knows.{Knows, Suits, func_of, knows_later};
ghost use Rattle.serve_main.specs.Serves.{Does};
ghost use Rattle.serve_main.specs.Steps.{FinishesNext, HasStepResult, IsBusy, MayStep, NoneReturned, StartsNext};
ghost use Rattle.std.specs.Prelude.{◌≡◌, IfErr, IfOk, false, true};
ghost use Rattle.task_loop.specs.Says.{unscripted};
ghost use Rattle.task_loop.specs.Constants.{constants};
ghost use Rattle.task_loop.specs.Hooked.{LacksOp};

use crate::server::ServerMain;
use machine_data::MainLabel;
use serve_requests::{Request, Stage};
use task_group::NoHook;
use task_loop::{Component, Func, Instance, Label, MainStep, MainTask, TaskError};
use task_nursery::NurseryError;
use task_store::{Access, HostWork, Whole};

// The least call that has ended is finished: its request has its reply.
fn finish_next<T, H: HostWork>(
    main: &mut ServerMain<'_>,
    access: &mut Access<'_, T, Whole, H>,
    component: &Component,
) -> Option<MainStep>
    requires may { MayStep H.course component.now main.old access.old.store.now }
    ensures same { access.new.store.ghost_name ≡ access.old.store.ghost_name }
    ensures step { FinishesNext H.course component.now main.old access.old.store.now result main.new access.new.store.now }
{
    // only the contract speaks of `component`
    let _component = component;
    let Some(child) = main.nursery.turn(access.store) else {
        return None;
    };
    let place = child.number as usize - 1;
    let Stage::Open(thread) = main.stages[place] else {
        unreachable!()
    };
    let Some(value) = main.nursery.value(child) else {
        unreachable!()
    };
    main.stages[place] = Stage::Answered(thread, value);
    main.replied += 1;
    Some(MainStep::Did(Label::Main(MainLabel::Finish(child.number, value))))
}

// The last start was refused, which is its request's reply.
fn reply_refusal<T, H: HostWork>(
    main: &mut ServerMain<'_>,
    access: &Access<'_, T, Whole, H>,
    component: &Component,
) -> MainStep
    requires may { MayStep H.course component.now main.old access.now.store.now }
    requires due { main.old.due ≡ true }
    requires trapped { access.now.store.now.state.core.trapped ≡ true }
    ensures step { HasStepResult H.course component.now main.old access.now.store.now result main.new access.now.store.now }
{
    // only the contract speaks of `component` and `access`
    let _component = component;
    let _access = access;
    let place = main.started - 1;
    let Stage::Declined(trap) = main.stages[place] else {
        unreachable!()
    };
    main.due = false;
    main.stages[place] = Stage::Refused(trap);
    main.replied += 1;
    MainStep::Did(Label::Main(MainLabel::FinishRefused(trap, main.started as u32)))
}

// The export of a request.
fn func_of(request: &Request) -> Func
    ensures { result ≡ func_of request.now }
{
    Func {
        instance: Instance {
            index: request.instance,
        },
        export: request.export,
    }
}

// The next request is started or refused, if there is one and fewer calls are open than may be.
fn start_next<T, H: HostWork>(
    main: &mut ServerMain<'_>,
    access: &mut Access<'_, T, Whole, H>,
    component: &Component,
) -> Result<Option<MainStep>, TaskError>
    requires may { MayStep H.course component.now main.old access.old.store.now }
    requires undue { main.old.due ≡ false }
    requires trapped { main.old.declined ≡ true → access.old.store.now.state.core.trapped ≡ true }
    ensures same { access.new.store.ghost_name ≡ access.old.store.ghost_name }
    ensures step { IfOk result (λ next.
        StartsNext H.course component.now main.old access.old.store.now next main.new access.new.store.now) }
    ensures constants_stay { constants access.new.store.now ≡ constants access.old.store.now }
    ensures err { IfErr result (λ e. LacksOp e access.old.store.now.listeners access.new.store.now.listeners) }
{
    let Some(request) = main.requests.get(main.started) else {
        return Ok(None);
    };
    let number = main.started as u32 + 1;
    let started = main.nursery.start(
        component,
        access.store,
        func_of(request),
        request.params.as_slice(),
    );
    match started {
        Ok(child) => {
            let Some(thread) = main.nursery.thread(child) else {
                unreachable!()
            };
            main.stages[main.started] = Stage::Open(thread);
            main.started += 1;
            Ok(Some(MainStep::Did(Label::Main(MainLabel::Start(number, thread)))))
        }
        Err(NurseryError::Trap(trap)) => {
            main.stages[main.started] = Stage::Declined(trap);
            main.started += 1;
            main.due = true;
            main.declined = true;
            Ok(Some(MainStep::Did(Label::Main(MainLabel::StartRefused(trap, number)))))
        }
        Err(NurseryError::NoMemory) => Err(TaskError::NoMemory),
        Err(NurseryError::Closed) => Ok(None),
        Err(NurseryError::Full) => Ok(None),
    }
}

// There is nothing to do: main answers if each request has its reply, else it waits.
fn rest<T, H: HostWork>(
    main: &ServerMain<'_>,
    access: &Access<'_, T, Whole, H>,
    component: &Component,
) -> MainStep
    requires may { MayStep H.course component.now main.now access.now.store.now }
    requires undue { main.now.due ≡ false }
    requires none { NoneReturned main.now access.now.store.now.state.core }
    requires busy { IsBusy main.now }
    ensures step { HasStepResult H.course component.now main.now access.now.store.now result main.now access.now.store.now }
{
    // only the contract speaks of `component` and `access`
    let _component = component;
    let _access = access;
    if main.replied == main.requests.len() {
        MainStep::Answer(main.replied as u64)
    } else {
        MainStep::Pends
    }
}

impl<T, H: HostWork> MainTask<T, H, NoHook> for ServerMain<'_> {
    ghost says = { unscripted Suits Knows Does };

    ghost stays = { λ main before after last known. knows_later main before after last known };

    fn step(
        &mut self,
        access: &mut Access<'_, T, Whole, H, NoHook>,
        component: &Component,
    ) -> Result<MainStep, TaskError> {
        // A store that is trapped stays so, and this isn't reached.
        if self.declined && !access.store.trapped() {
            return Err(TaskError::NoMemory);
        }
        if self.due {
            return Ok(reply_refusal(self, access, component));
        }
        if let Some(step) = finish_next(self, access, component) {
            return Ok(step);
        }
        if let Some(step) = start_next(self, access, component)? {
            return Ok(step);
        }
        Ok(rest(self, access, component))
    }
}
