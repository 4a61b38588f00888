//! One caller of a table that others share. Its calls are those of `rht_run` on its table and its pass.
//!
//! A call that waits for nobody is made as a whole. Any call can be made in pieces instead: `begin` makes its
//! first operation, and `go_on` a number of further ones; or `set_out` makes all those for which it need not wait. None
//! of these waits, and none takes memory.

ghost use Rattle.std.specs.Prelude.{◌≡◌, ◌<◌, true, false, IfOk, IfSome, IfNone, length, vec_len};
ghost use Rattle.rht_words.specs.Settled.{IsSettled};
ghost use Rattle.rht_model.specs.declared.history.Call.TheVariants.{Find, Walk, Tidy, Count};
ghost use Rattle.rht_core.specs.Locals.{is_idle};
ghost use Rattle.rht_core.specs.Runs.{IsAdmittedCall};
ghost use Rattle.rht_run.specs.Passes.{IsPassOf};
ghost use Rattle.rht_run.specs.Caused.{HasLookedUp};
ghost use Rattle.rht_run.specs.Untidied.{untidied};
ghost use Rattle.rht_session.specs.Sessions.{table_of, HasEnded, HasBegun, HasSetOut, HasGoneOn, AreAllNew};

use crate::marks::Mark;
use rht_model::{Call, Cursor, Reply};
use rht_policy::Mix;
use rht_run::{Pass, Table};
use rht_words::{Config, Port, word_of};
use std::alloc::{AllocError, Global};
use std::mem::replace;
use std::sync::Arc;

/// A table that other sessions share, and one of its passes. The last one that goes frees the table (tested).
#[derive(Drop)]
pub struct Shared<M: Mix> {
    pub(crate) table: Arc<Table<M>, Global>,
    pub(crate) pass: Pass<M>,
    pub(crate) mark: Mark,
}

impl<M: Mix> Shared<M> {
    /// Whether it is in no call.
    pub fn is_free(&self) -> bool
        ensures { result ≡ is_idle self.now.pass.local }
    {
        self.pass.is_idle()
    }

    /// How many nodes its calls took out that aren't given back, as `Pass::untidied`.
    pub fn untidied(&self) -> u32
        ensures { result ≡ untidied self.now.pass }
    {
        self.pass.untidied()
    }

    /// Looks a port up, as `Table::find`.
    pub fn find(&mut self, port: Port) -> Reply
        requires fit { IsPassOf M.mix_of (table_of self.old) self.old.pass }
        requires free { is_idle self.old.pass.local ≡ true }
        ensures table { self.new.table ≡ self.old.table }
        ensures ended { HasEnded M.mix_of (table_of self.old) (Find port) result self.old.pass self.new.pass }
        ensures looked { HasLookedUp M.mix_of (table_of self.old) port result self.old.pass self.new.pass }
    {
        self.table.find(&mut self.pass, port)
    }

    /// Walks the table from a cursor on, or from the first bucket, as `Table::walk`.
    pub fn walk(&mut self, from: Option<Cursor>, limit: u32) -> Reply
        requires fit { IsPassOf M.mix_of (table_of self.old) self.old.pass }
        requires free { is_idle self.old.pass.local ≡ true }
        ensures table { self.new.table ≡ self.old.table }
        ensures ended { HasEnded M.mix_of (table_of self.old) (Walk from limit) result self.old.pass self.new.pass }
    {
        self.table.walk(&mut self.pass, from, limit)
    }

    /// Gives back the nodes that wait in the batch, all of them or none, as `Table::tidy`.
    pub fn tidy(&mut self) -> Reply
        requires fit { IsPassOf M.mix_of (table_of self.old) self.old.pass }
        requires free { is_idle self.old.pass.local ≡ true }
        ensures table { self.new.table ≡ self.old.table }
        ensures ended { HasEnded M.mix_of (table_of self.old) Tidy result self.old.pass self.new.pass }
    {
        self.table.tidy(&mut self.pass)
    }

    /// Counts the bound ports, as `Table::count`.
    pub fn count(&mut self) -> Reply
        requires fit { IsPassOf M.mix_of (table_of self.old) self.old.pass }
        requires free { is_idle self.old.pass.local ≡ true }
        ensures table { self.new.table ≡ self.old.table }
        ensures ended { HasEnded M.mix_of (table_of self.old) Count result self.old.pass self.new.pass }
    {
        self.table.count(&mut self.pass)
    }

    /// Begins any call by its first operation. A reply ends the call, as that of a count always does.
    pub fn begin(&mut self, call: Call) -> Option<Reply>
        requires fit { IsPassOf M.mix_of (table_of self.old) self.old.pass }
        requires free { is_idle self.old.pass.local ≡ true }
        ensures table { self.new.table ≡ self.old.table }
        ensures begun { HasBegun M.mix_of (table_of self.old) call self.old.pass result self.new.pass }
    {
        let same = call;
        in_range(same);
        self.table.start(&mut self.pass, call)
    }

    /// Begins any call, as `Table::set_out`: a reply ends it, and without one it is in progress.
    #[inline(always)]
    pub fn set_out(&mut self, call: Call, rounds: u32) -> Option<Reply>
        requires fit { IsPassOf M.mix_of (table_of self.old) self.old.pass }
        requires free { is_idle self.old.pass.local ≡ true }
        ensures table { self.new.table ≡ self.old.table }
        ensures set_out { HasSetOut M.mix_of (table_of self.old) call self.old.pass result self.new.pass }
    {
        let same = call;
        in_range(same);
        self.table.set_out(&mut self.pass, call, u64::from(rounds))
    }

    /// Goes on with the call in progress, by so many operations unless it ends before. Without a reply it is
    /// in progress still, and exactly so many were made.
    pub fn go_on(&mut self, most: u32) -> Option<Reply>
        requires fit { IsPassOf M.mix_of (table_of self.old) self.old.pass }
        requires busy { is_idle self.old.pass.local ≡ false }
        requires some { 0 < most }
        ensures table { self.new.table ≡ self.old.table }
        ensures gone_on { HasGoneOn M.mix_of (table_of self.old) most self.old.pass result self.new.pass }
    {
        gone_on(&self.table, &mut self.pass, most)
    }

    /// Gives the table up. The last one that does frees it (tested).
    pub(crate) fn give_up(self) {
        let Shared { table, pass, mark } = self;
        drop((pass, mark));
        drop(Arc::into_inner(table));
    }

    /// The owners that came with the last call, as `Pass::owners`.
    pub fn owners(&self) -> &[u32]
        ensures { result.now ≡ self.now.pass.local.owners.items }
    {
        self.pass.owners()
    }

    /// The pairs that came with the last call, as `Pass::pairs`.
    pub fn pairs(&self) -> &[(Port, u32)]
        ensures { result.now ≡ self.now.pass.local.pairs.items }
    {
        self.pass.pairs()
    }

    /// Opens a table, and shares it among as many as its config has callers, each with a pass of its own. Want
    /// of memory is the one refusal, and then nothing stays.
    pub fn open(alloc: Global, config: Config) -> Result<Vec<Shared<M>>, AllocError>
        requires { IsSettled config }
        ensures { IfOk result (λ all. AreAllNew M.mix_of config all.items) }
    {
        let (table, mut passes) = Table::<M>::open(alloc, config)?;
        let Ok(first) = Arc::new(alloc, table) else {
            return Err(AllocError);
        };
        let mut marks = Mark::new(alloc)?;
        let mut all = Vec::with_capacity(alloc, passes.len())?;
        while let Some(pass) = passes.pop() {
            let table = Arc::try_clone(&first)?;
            let next = marks.next()?;
            let mark = replace(&mut marks, next);
            all.insert(0, Shared { table, pass, mark })?;
        }
        Ok(all)
    }
}

/// Makes operations of the call that the pass is in, so many unless it ends before.
fn gone_on<M: Mix>(table: &Table<M>, pass: &mut Pass<M>, most: u32) -> Option<Reply>
    requires fit { IsPassOf M.mix_of table.now pass.old }
    requires busy { is_idle pass.old.local ≡ false }
    requires some { 0 < most }
    ensures { HasGoneOn M.mix_of table.now most pass.old result pass.new }
{
    for made in 0..most {
        if let Some(reply) = table.step(pass) {
            return Some(reply);
        }
    }
    None
}

/// The numbers of a call are in the ranges of their types, which its clause alone says.
fn in_range(call: Call)
    ensures { IsAdmittedCall call }
{
    let _ = match call {
        Call::Bind { port, .. }
        | Call::Find { port }
        | Call::All { port }
        | Call::Release { port, .. }
        | Call::Rebind { port, .. } => word_of(port),
        Call::Walk { .. } | Call::Work | Call::Tidy | Call::Count => 0,
    };
}
