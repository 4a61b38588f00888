//! A table is opened, and each worker does its part on a pass of it, while the others do theirs.

ghost use Rattle.std.specs.Prelude.{◌≡◌, ℕ, vec_len, IfOk};
ghost use Rattle.std.specs.List.{enumerate_from};
ghost use Rattle.rht_words.specs.Settled.{IsSettled};
ghost use Rattle.rht_run.specs.declared.pass.Pass.{Pass as PassOf};
ghost use Rattle.rht_run.specs.declared.table.Table.{Table as TableOf};
ghost use Rattle.rht_run.specs.Passes.{IsNew, AreNew};
ghost use Rattle.rht_workers.specs.Jobs.{HaveWorked, HaveWorkedAll, side_by_side};

use rht_policy::Mix;
use rht_run::{Pass, Table};
use rht_words::Config;
use std::alloc::{AllocError, Global};
use std::sync::Wait;
use std::thread;
use std::thread::Threads;

/// What the workers of a script have to do.
pub trait Job {
    /// What a worker leaves beside its pass.
    type Left;

    // it can be done on this table
    ghost can_work: { Self → (M : Type 0) → TableOf M → Type 0 };

    // the worker of this number, counted from 0, has done its part on this table, whose ports are mixed so, and leaves this pass and this
    // beside it
    ghost has_worked: { Self → (M : Type 0) → (ℕ → ℕ → ℕ → ℕ) → TableOf M → ℕ → PassOf M → Self.Left → Type 0 };

    /// Does the part of the worker whose pass this is. The one refusal is want of memory.
    fn work<M: Mix, R: Wait>(
        &self,
        rt: &R,
        alloc: Global,
        table: &Table<M>,
        number: usize,
        pass: Pass<M>,
    ) -> Result<(Pass<M>, Self::Left), AllocError>
        requires can { can_work self.now M table.now }
        requires new { IsNew M.mix_of table.now number pass }
        ensures { IfOk result (λ worked. has_worked self.now M M.mix_of table.now number worked.0 worked.1) };
}

/// What the workers leave: a table that is still open.
#[derive(Drop)]
pub struct Left<M: Mix, T> {
    /// What each worker leaves, worker by worker.
    pub own: Vec<T>,
    /// The table.
    pub table: Table<M>,
    /// All its passes, in order of their numbers.
    pub passes: Vec<Pass<M>>,
}

/// Opens a table, and has each worker do its part on it: each has a pass and, where threads can be started, a
/// thread. The one refusal is want of memory, and then the table and its passes are given up.
pub fn run_all<M: Mix + Send, R: Threads + Wait + Sync, J: Job + Sync>(
    rt: &R,
    alloc: Global,
    config: Config,
    job: &J,
) -> Result<Left<M, J::Left>, AllocError>
where
    J::Left: Send + Drop,
    requires settled { IsSettled config }
    requires can { (table : TableOf M) → table.env.config ≡ config → J.can_work job.now M table }
    ensures { IfOk result (λ left. HaveWorkedAll (J.has_worked job.now M M.mix_of left.table) config left.table left.passes.items left.own.items) }
{
    let (table, passes) = Table::<M>::open(alloc, config)?;
    let parts = numbered(alloc, passes)?;
    let left = all_work(rt, alloc, &table, parts, job)?;
    let (passes, own) = gathered(alloc, left)?;
    Ok(Left { own, table, passes })
}

/// Each pass with its number.
fn numbered<M: Mix>(
    alloc: Global,
    passes: Vec<Pass<M>>,
) -> Result<Vec<(usize, Pass<M>)>, AllocError>
    ensures { IfOk result (λ parts. parts.items ≡ enumerate_from 0 passes.items) }
{
    Ok(passes.into_iter().enumerate().collect(alloc)?)
}

/// All workers do their parts, each in a thread of its own where one can be started.
fn all_work<M: Mix + Send, R: Threads + Wait + Sync, J: Job + Sync>(
    rt: &R,
    alloc: Global,
    table: &Table<M>,
    parts: Vec<(usize, Pass<M>)>,
    job: &J,
) -> Result<Vec<Result<(Pass<M>, J::Left), AllocError>>, AllocError>
where
    J::Left: Send + Drop,
    requires can { J.can_work job.now M table.now }
    requires parts { (passes : _) × (parts.items ≡ enumerate_from 0 passes) × AreNew M.mix_of table.now 0 passes }
    ensures len { IfOk result (λ left. vec_len left ≡ vec_len parts) }
    ensures worked { IfOk result (λ left. HaveWorked (J.has_worked job.now M M.mix_of table.now) (vec_len parts) left.items) }
{
    thread::map_vec(
        rt,
        parts,
        &|part| -> Result<(Pass<M>, J::Left), AllocError>
            requires { J.can_work job.now M table.now × IsNew M.mix_of table.now part.0 part.1 }
            ensures { IfOk result (λ worked. J.has_worked job.entry.now M M.mix_of table.entry.now part.0 worked.0 worked.1) }
        { job.work(rt, alloc, table, part.0, part.1) },
    )
}

/// The passes and what is left beside them, each in order of the workers, unless one of them has ended for want of
/// memory.
fn gathered<M: Mix, T: Drop>(
    alloc: Global,
    left: Vec<Result<(Pass<M>, T), AllocError>>,
) -> Result<(Vec<Pass<M>>, Vec<T>), AllocError>
    ensures passes { IfOk result (λ all. vec_len all.0 ≡ vec_len left) }
    ensures own { IfOk result (λ all. vec_len all.1 ≡ vec_len left) }
    ensures all { IfOk result (λ all. left.items ≡ side_by_side all.0.items all.1.items) }
{
    let mut passes = Vec::with_capacity(alloc, left.len())?;
    let mut all = Vec::with_capacity(alloc, left.len())?;
    for worked in left {
        let (pass, own) = worked?;
        passes.push(pass)?;
        all.push(own)?;
    }
    Ok((passes, all))
}
