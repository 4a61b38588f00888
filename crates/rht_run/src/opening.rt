//! How a table is opened: the first seat draws all numbers, and then hands each but 0 to a seat of
//! its own.

ghost use Rattle.std.specs.Prelude.{◌≡◌, ℕ, ◌+◌, ◌-◌, ◌<◌, ◌≤◌, vec_len, [], IfOk};
ghost use Rattle.rht_words.specs.Settled.{IsSettled, plain_ways};
ghost use Rattle.rht_core.specs.Locals.{fresh};
ghost use Rattle.rht_run.specs.Passes.{IsOpening, AreNew, IsNew};

use crate::layout::{opening_laid, physical};
use crate::pass::Pass;
use crate::plays::{Enrolls, Hands};
use crate::seats::SeatView;
use crate::starts::Starts;
use crate::table::Table;
use atomic_table::Seat;
use rht_core::Local;
use rht_policy::Mix;
use rht_words::{Config, Env, places};
use std::alloc::{AllocError, Global};

impl<M: Mix> Table<M> {
    /// A table in the plain ways, with as many passes as its config has callers. The pass at place i of the list has the
    /// number i, is in no call and has made none, and has rooms for all nodes and a batch with room for
    /// them. A pass's rooms take 24 bytes a node: 8 in its batch, 4 for owners and 12 for the pairs of a
    /// walk. No call but `close` takes memory. The one refusal is want of memory, and then nothing
    /// stays. The kernel's counterpart is `rhashtable_init`.
    pub fn open(alloc: Global, config: Config) -> Result<(Table<M>, Vec<Pass<M>>), AllocError>
        requires { IsSettled config }
        ensures passes { IfOk result (λ r. AreNew M.mix_of r.0 0 r.1.items) }
        ensures count { IfOk result (λ r. vec_len r.1 ≡ config.callers) }
        ensures config { IfOk result (λ r. r.0.env.config ≡ config) }
        ensures ways { IfOk result (λ r. r.0.env.ways ≡ plain_ways) }
    {
        let env = Env::new(config);
        let (table, mut seat) = Table::<M>::with_first_seat(alloc, env)?;
        table.enroll_all(&mut seat);
        let mut passes = Vec::new(alloc);
        let mut number = env.geometry.callers;
        while number > 1 {
            number -= 1;
            let pass = table.hand(&mut seat, number, Local::new(alloc, env)?);
            passes.insert(0, pass)?;
        }
        let local = Local::new(alloc, env)?;
        passes.insert(
            0,
            Pass {
                seat,
                number: 0,
                local,
            },
        )?;
        Ok((table, passes))
    }

    /// A table with its first seat, which has no number yet.
    fn with_first_seat(
        alloc: Global,
        env: Env,
    ) -> Result<(Table<M>, Seat<(), SeatView<M>>), AllocError>
        ensures env { IfOk result (λ r. r.0.env ≡ env) }
        ensures opening { IfOk result (λ r. IsOpening M.mix_of r.0 0 0 r.1) }
    {
        let laid = opening_laid(alloc, env)?;
        let (words, seat) = atomic_table::Table::of_words(alloc, laid.as_slice(), &env)?;
        let starts = Starts::new(env.geometry);
        let table = Table {
            words,
            env,
            nodes_start: starts.nodes,
            pages_start: starts.pages,
            last_word: starts.last,
        };
        Ok((table, seat))
    }

    /// Enrolls all callers, each in one step.
    fn enroll_all(&self, seat: &mut Seat<(), SeatView<M>>)
        requires { IsOpening M.mix_of self.now 0 0 seat.old }
        ensures { IsOpening M.mix_of self.now self.now.env.geometry.callers self.now.env.geometry.callers seat.new }
    {
        for _drawn in 0..self.env.geometry.callers {
            self.enroll(seat);
        }
    }

    /// Enrolls one more caller, whose number the seat has from then on.
    fn enroll(&self, seat: &mut Seat<(), SeatView<M>>)
        requires { (n : ℕ) × IsOpening M.mix_of self.now n n seat.old × (n < self.now.env.geometry.callers) }
        ensures { (n : ℕ) → IsOpening M.mix_of self.now n n seat.old → IsOpening M.mix_of self.now (n + 1) (n + 1) seat.new }
    {
        let at = physical(places::enrolled_callers());
        self.words.shared.fetch_add::<Enrolls<M>>(seat, at, 1);
    }

    /// The greatest number that the seat still has goes to a pass of its own.
    fn hand(&self, seat: &mut Seat<(), SeatView<M>>, number: u32, local: Local<M>) -> Pass<M>
        requires opening { (drawn : ℕ) × IsOpening M.mix_of self.now (number + 1) drawn seat.old }
        requires local { local ≡ fresh self.now.env }
        ensures rest { (drawn : ℕ) → IsOpening M.mix_of self.now (number + 1) drawn seat.old
            → IsOpening M.mix_of self.now number drawn seat.new }
        ensures pass { IsNew M.mix_of self.now number result }
    {
        let other = self.words.shared.split_seat::<Hands<M>>(seat);
        Pass {
            seat: other,
            number,
            local,
        }
    }
}
