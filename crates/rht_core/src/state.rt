//! One run on plain words, event by event.

ghost use Rattle.std.specs.Prelude.{ℕ, ◌≡◌, ◌<◌, ◌≤◌, length, replicate, true, None, IfOk};
ghost use Rattle.std.specs.List.{AllByRecursion};
ghost use Rattle.rht_words.specs.Operations.{old_of, applied};
ghost use Rattle.rht_words.specs.Opening.{opening_words};
ghost use Rattle.rht_words.specs.Places.{words_in};
ghost use Rattle.rht_words.specs.Settled.{IsSettled};
ghost use Rattle.rht_core.specs.Runs.{core_of, core_step, local_of, begun, planned, with_step, enrolling, enrolled_after, has_done, IsSound, MayPut, IsOpened};
ghost use Rattle.rht_callers.specs.Locals.{fresh, is_idle, IsLocalOf};
ghost use Rattle.rht_stands.specs.Closing.{current_size, IsClosedOf};

use crate::event::{Event, Stepped};
use rht_callers::Local;
use rht_model::{Call, Closed};
use rht_policy::Mix;
use rht_stands::{ClosingRoom, current_size};
use rht_words::{Config, Env, Op, apply, opening_word, places};
use std::alloc::{AllocError, Global};
use std::marker::Model;

/// The words of a table and what each caller is doing.
#[derive(Drop)]
pub struct State<M: Mix> {
    env: Env,
    words: Vec<u64>,
    enrolled: u32,
    locals: Vec<Local<M>>,
}

impl<M: Mix> Model for State<M> {
    ghost use Rattle.rht_core.specs.Runs.{Core, core_of, IsReached};

    ghost Value = { Core M };

    ghost view = { λ s. core_of s.env s.words.items s.enrolled s.locals.items };

    ghost invariant = { λ s. IsReached M.mix_of (core_of s.env s.words.items s.enrolled s.locals.items) };
}

/// What an event did that does nothing.
const NOTHING: Stepped = Stepped {
    did: None,
    reply: None,
};

impl<M: Mix> State<M> {
    /// A table that has just been opened, of which nobody is a caller yet. It takes all memory
    /// that the state ever needs, and the one refusal is want of it. The kernel's counterpart is
    /// `rhashtable_init`.
    pub fn open(alloc: Global, config: Config) -> Result<State<M>, AllocError>
        requires { IsSettled config }
        ensures { IfOk result (IsOpened config) }
    {
        let env = Env::new(config);
        Ok(State {
            env,
            words: opening_words(alloc, env)?,
            enrolled: 0,
            locals: fresh_locals(alloc, env)?,
        })
    }

    /// Performs the event. It takes no memory and refuses nothing.
    pub fn step(&mut self, event: Event) -> Stepped
        ensures { (self.new, result) ≡ core_step M.mix_of self.old event }
    {
        perform(
            self.env,
            &mut self.words,
            &mut self.enrolled,
            &mut self.locals,
            event,
        )
    }

    /// All words.
    pub fn words(&self) -> &[u64]
        ensures { result.now ≡ self.now.words }
    {
        self.words.as_slice()
    }

    /// What a caller is doing. One that isn't enrolled is idle.
    pub fn local(&self, caller: u32) -> &Local<M>
        requires { caller < self.now.env.geometry.callers }
        ensures local { result.now ≡ local_of self.now caller }
        ensures idle { self.now.enrolled ≤ caller → is_idle result.now ≡ true }
    {
        &self.locals[caller as usize]
    }

    /// The size of the current table, in buckets.
    pub fn size(&self) -> u32
        ensures { result ≡ current_size self.now.env.geometry self.now.words }
    {
        current_size(self.env.geometry, &self.words)
    }

    /// What is bound, in order of ports, the size of the current table, and how many ports are
    /// bound. The one refusal is want of memory. It is no function of the kernel, where a table
    /// goes with all that is in it.
    pub fn closed(&self) -> Result<Closed, AllocError>
        requires { (caller : ℕ) → caller < self.now.env.geometry.callers
            → is_idle (local_of self.now caller) ≡ true }
        ensures { IfOk result (IsClosedOf self.now.env.geometry self.now.words) }
    {
        let geometry = self.env.geometry;
        let room = ClosingRoom::new(*self.words.allocator(), geometry)?;
        Ok(room.closed(geometry, &self.words))
    }
}

/// All words at opening.
fn opening_words(alloc: Global, env: Env) -> Result<Vec<u64>, AllocError>
    ensures { IfOk result (λ words. words.items ≡ opening_words env) }
{
    let count = env.geometry.words();
    let mut words = Vec::with_capacity(alloc, count)?;
    for place in 0..count {
        words.push(opening_word(env, place))?;
    }
    Ok(words)
}

/// All callers, none of which is in a call.
fn fresh_locals<M: Mix>(alloc: Global, env: Env) -> Result<Vec<Local<M>>, AllocError>
    ensures { IfOk result (λ locals. locals.items ≡ replicate env.geometry.callers (fresh env)) }
{
    let mut locals = Vec::with_capacity(alloc, env.geometry.callers as usize)?;
    for _ in 0..env.geometry.callers {
        locals.push(Local::new(alloc, env)?)?;
    }
    Ok(locals)
}

/// Performs the event.
fn perform<M: Mix>(
    env: Env,
    words: &mut Vec<u64>,
    enrolled: &mut u32,
    locals: &mut Vec<Local<M>>,
    event: Event,
) -> Stepped
    requires sound { IsSound (core_of env words.old.items enrolled.old locals.old.items) }
    requires put { MayPut M.mix_of (core_of env words.old.items enrolled.old locals.old.items) }
    ensures { (core_of env words.new.items enrolled.new locals.new.items, result) ≡ core_step M.mix_of (core_of env words.old.items enrolled.old locals.old.items) event }
{
    match event {
        Event::Enroll => enroll(env, words, enrolled),
        Event::Begin {
            caller,
            call,
            start,
        } => {
            begin(env, *enrolled, locals, caller, call, start);
            NOTHING
        }
        Event::Step { caller } => step(env, words, *enrolled, locals, caller),
    }
}

/// One more caller, where there may be one more.
fn enroll(env: Env, words: &mut Vec<u64>, enrolled: &mut u32) -> Stepped
    requires { length words.old.items ≡ words_in env.geometry }
    ensures words { words.new.items ≡ applied words.old.items (enrolling env) }
    ensures enrolled { enrolled.new ≡ enrolled_after env enrolled.old (old_of words.old.items (enrolling env)) }
    ensures did { result ≡ has_done (enrolling env) (old_of words.old.items (enrolling env)) None }
{
    let op = Op::add(places::enrolled_callers(), 1);
    let old = apply(words.as_mut_slice(), op);
    if old < u64::from(env.geometry.callers) {
        *enrolled = (*enrolled).max(old as u32 + 1);
    }
    Stepped {
        did: Some((op, old)),
        reply: None,
    }
}

/// Gives a caller a call, where it can be given one.
fn begin<M: Mix>(
    env: Env,
    enrolled: u32,
    locals: &mut Vec<Local<M>>,
    caller: u32,
    call: Call,
    start: u32,
)
    requires enrolled { enrolled ≤ env.geometry.callers }
    requires locals { length locals.old.items ≡ env.geometry.callers }
    requires env { AllByRecursion (IsLocalOf env) locals.old.items }
    ensures { locals.new.items ≡ begun env enrolled locals.old.items caller call start }
{
    if caller < enrolled {
        let local = &mut locals[caller as usize];
        if local.may_begin(&call) {
            local.begin_from(env, caller, call, start);
        }
    }
}

/// A caller's next operation, where it has one.
fn step<M: Mix>(
    env: Env,
    words: &mut Vec<u64>,
    enrolled: u32,
    locals: &mut Vec<Local<M>>,
    caller: u32,
) -> Stepped
    requires sound { IsSound (core_of env words.old.items enrolled locals.old.items) }
    requires put { MayPut M.mix_of (core_of env words.old.items enrolled locals.old.items) }
    ensures { (core_of env words.new.items enrolled locals.new.items, result) ≡ with_step M.mix_of (core_of env words.old.items enrolled locals.old.items) caller (planned env enrolled locals.old.items caller) }
{
    if caller >= enrolled {
        return NOTHING;
    }
    let local = &mut locals[caller as usize];
    let Some(op) = local.plan() else {
        return NOTHING;
    };
    let old = apply(words.as_mut_slice(), op);
    Stepped {
        did: Some((op, old)),
        reply: local.take(old),
    }
}
