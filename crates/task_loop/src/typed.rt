//! Functions whose parameters and result have types of the host's.
ghost use Rattle.std.specs.Prelude.{◌≡◌, ◌<◌, ◌≤◌, ◌^◌, ◌∷◌, [], IfSome, IsSome, List, None, Some, length, refl, slice_get, take, ℕ};
ghost use Rattle.task_loop.specs.CallStarts.{KeepsStore};
ghost use Rattle.task_loop.specs.LoopCalls.{callee_of};
ghost use Rattle.task_loop.specs.PolledRuns.{FinishesAs};
ghost use Rattle.task_loop.specs.Typed.{FinishesTyped, PollsTyped, StartsTyped};
ghost use Rattle.machine_data.specs.declared.component.Component.{Component as Shape};
ghost use Rattle.machine_data.specs.declared.records.Turn.{Turn};
ghost use Rattle.machine_rules.specs.Scripts.{export_at};
ghost use Rattle.ops_turns.specs.Turn.{CoreInOrder, given};
ghost use Rattle.ops_turns.specs.WellFormed.{IsWellFormed};

use crate::call::{Func, FuncCallConcurrent};
use futures::task::Poll;
use machine_data::Component;
use ops_calls::TaskError;
use std::marker::PhantomData;
use task_group::{TaskGroupHook, TaskGroupId};
use task_store::Store;

/// Parameters that are handed to a call as words of 64 bits.
pub trait Words: Drop {
    ghost COUNT: { ℕ };

    /// How many words there are, at most 16 for a call.
    const COUNT: u32;

    // The words, the first one first.
    ghost words: { Self → List ℕ };

    ghost count: { (params : Self) → length (words params) ≡ COUNT };

    /// Returns the word at a place, from 0.
    fn word(&self, i: u32) -> u64
        requires { i < COUNT }
        ensures { Some result ≡ slice_get (words self.now) i };
}

/// A result that is made from the word of 64 bits that a call returned.
pub trait FromWord: Drop {
    ghost from: { ℕ → Self };

    /// Makes the result that the word represents.
    fn from_word(w: u64) -> Self
        ensures { result ≡ from w };
}

/// An export with typed parameters and a typed result.
#[derive(Drop)]
pub struct TypedFunc<P, R> {
    pub func: Func,
    params: PhantomData<P>,
    result: PhantomData<R>,
}

/// A call of a typed function that was started. It can be finished once.
#[derive(Drop)]
pub struct TypedFuncCallConcurrent<P, R> {
    call: FuncCallConcurrent,
    params: PhantomData<P>,
    result: PhantomData<R>,
}

impl<P, R> TypedFuncCallConcurrent<P, R> {
    /// Returns the group of the call.
    pub fn group(&self) -> TaskGroupId
        ensures { result.number ≡ self.now.call.group }
    {
        self.call.group()
    }
}

// The words of the parameters, and zeros after them.
fn words_of<P: Words>(params: &P) -> [u64; 16]
    requires { P.COUNT ≤ 16 }
    ensures { take P.COUNT result ≡ P.words params.now }
{
    let mut words = [0; 16];
    'fill: for i in 0..P::COUNT {
        words[i as usize] = params.word(i);
    }
    words
}

impl<P: Words, R: FromWord> TypedFunc<P, R> {
    /// Makes the function as one with typed parameters and a typed result.
    pub fn new(func: Func) -> Self
        ensures { result.func ≡ func }
    {
        TypedFunc {
            func,
            params: PhantomData,
            result: PhantomData,
        }
    }

    // Starts a call with the words of these parameters.
    fn start_with<T, H, G: TaskGroupHook>(
        &self,
        component: &Component,
        store: &mut Store<T, H, G>,
        params: &P,
    ) -> Result<TypedFuncCallConcurrent<P, R>, TaskError>
        requires covered { IsWellFormed component.now }
        requires there { IsSome (export_at component.now (callee_of self.now.func)) }
        requires params { IfSome (export_at component.now (callee_of self.now.func)) (λ e. P.COUNT ≡ e.params) }
        requires few { P.COUNT ≤ 16 }
        requires order { (p : Turn) × CoreInOrder component.now p store.old.state.core }
        requires given { given store.old.state.core < 2 ^ 61 }
        ensures does { StartsTyped G.listens component.now (callee_of self.now.func) (P.words params.now) store.old result store.new }
        ensures keeps { KeepsStore component.now store.old store.new }
    {
        let words = words_of(params);
        let count = P::COUNT as usize;
        match self.func.start_untrapped(component, store, &words[..count]) {
            Ok(call) => Ok(TypedFuncCallConcurrent {
                call,
                params: PhantomData,
                result: PhantomData,
            }),
            Err(e) => Err(e),
        }
    }

    /// Starts a call by the host, as that of `Func` does, with the words of the parameters. Refused with trap 20 exactly where the
    /// store is trapped, and else with trap 18 exactly where its four entries don't fit into the table, and else with trap 22
    /// exactly where the hook that is told of the group answers an error. Where it is refused, or it is out of memory, all is as
    /// before but for what was told of the group, as of `Func`'s: the store isn't trapped by that.
    pub fn start_call_concurrent<T, H, G: TaskGroupHook>(
        &self,
        component: &Component,
        store: &mut Store<T, H, G>,
        params: P,
    ) -> Result<TypedFuncCallConcurrent<P, R>, TaskError>
        requires covered { IsWellFormed component.now }
        requires there { IsSome (export_at component.now (callee_of self.now.func)) }
        requires params { IfSome (export_at component.now (callee_of self.now.func)) (λ e. P.COUNT ≡ e.params) }
        requires few { P.COUNT ≤ 16 }
        requires order { (p : Turn) × CoreInOrder component.now p store.old.state.core }
        requires given { given store.old.state.core < 2 ^ 61 }
        ensures does { StartsTyped G.listens component.now (callee_of self.now.func) (P.words params) store.old result store.new }
        ensures keeps { KeepsStore component.now store.old store.new }
    {
        self.start_with(component, store, &params)
    }

    /// Takes the result of a call that has returned. It is pending if the call hasn't, and then nothing is changed. A call is
    /// finished once.
    pub fn finish_call_concurrent<T, H, G: TaskGroupHook>(
        &self,
        store: &mut Store<T, H, G>,
        call: &mut TypedFuncCallConcurrent<P, R>,
    ) -> Poll<R>
        ensures finishes { FinishesTyped R.from call.old.call.thread store.old.state result store.new.state }
        ensures call { call.new ≡ call.old }
        ensures keeps { (c : Shape) → KeepsStore c store.old store.new }
        ensures rest { store.new ≡ record store.old { state = store.new.state } }
    {
        match self.func.finish_call_concurrent(store, &mut call.call) {
            Poll::Ready(word) => Poll::Ready(R::from_word(word)),
            Poll::Pending => Poll::Pending,
        }
    }

    /// Returns a call with these parameters. Nothing is started before the first poll.
    pub fn call_concurrent(self, params: P) -> TypedCallConcurrent<P, R>
        ensures func { result.func ≡ self }
        ensures params { result.params ≡ params }
        ensures fresh { result.call ≡ None }
    {
        TypedCallConcurrent {
            func: self,
            params,
            call: None,
        }
    }
}

/// A call of a typed function with these parameters, from its start to its result.
#[derive(Drop)]
pub struct TypedCallConcurrent<P, R> {
    func: TypedFunc<P, R>,
    params: P,
    // The call, once it was started.
    call: Option<TypedFuncCallConcurrent<P, R>>,
}

// The result of a call that was started.
fn finish<T, H, G: TaskGroupHook, P: Words, R: FromWord>(
    func: &TypedFunc<P, R>,
    store: &mut Store<T, H, G>,
    call: &mut TypedFuncCallConcurrent<P, R>,
) -> Poll<Result<R, TaskError>>
    ensures finishes { FinishesAs R.from call.old.call.thread store.old result store.new }
    ensures call { call.new ≡ call.old }
    ensures keeps { (c : Shape) → KeepsStore c store.old store.new }
{
    match func.finish_call_concurrent(store, call) {
        Poll::Ready(value) => Poll::Ready(Ok(value)),
        Poll::Pending => Poll::Pending,
    }
}

impl<P: Words, R: FromWord> TypedCallConcurrent<P, R> {
    /// Starts the call at the first poll, as `TypedFunc::start_call_concurrent` does, with its refusals,
    /// and then finishes it: ready with the result where it has returned, and else pending. It isn't
    /// polled again once it was ready.
    pub fn poll<T, H, G: TaskGroupHook>(
        &mut self,
        component: &Component,
        store: &mut Store<T, H, G>,
    ) -> Poll<Result<R, TaskError>>
        requires covered { IsWellFormed component.now }
        requires there { IsSome (export_at component.now (callee_of self.old.func.func)) }
        requires params { IfSome (export_at component.now (callee_of self.old.func.func)) (λ e. P.COUNT ≡ e.params) }
        requires few { P.COUNT ≤ 16 }
        requires order { (p : Turn) × CoreInOrder component.now p store.old.state.core }
        requires given { given store.old.state.core < 2 ^ 61 }
        ensures polls { PollsTyped P.words R.from G.listens component.now self.old store.old result self.new store.new }
        ensures keeps { KeepsStore component.now store.old store.new }
    {
        if let Some(call) = &mut self.call {
            return finish(&self.func, store, call);
        }
        match self.func.start_with(component, store, &self.params) {
            Ok(mut call) => {
                let answer = finish(&self.func, store, &mut call);
                self.call = Some(call);
                answer
            }
            Err(e) => Poll::Ready(Err(e)),
        }
    }
}

/// One word.
impl Words for u64 {
    ghost COUNT = { 1 };

    const COUNT: u32 = 1;

    ghost words = { λ word. word ∷ [] };

    ghost count = { λ word. refl };

    fn word(&self, i: u32) -> u64 {
        // only the contract speaks of `i`
        let _i = i;
        *self
    }
}

/// The word itself.
impl FromWord for u64 {
    ghost from = { λ word. word };

    fn from_word(w: u64) -> u64 {
        w
    }
}
