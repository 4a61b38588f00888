//! The rule of the table, and what each kind of step tells its caller. These types are for the
//! proofs alone.

ghost use Rattle.std.specs.Prelude.{◌≡◌, Option, None};
ghost use Rattle.rht_model.specs.declared.history.Call.{Call};
ghost use Rattle.rht_run.specs.Rule.{Holds, first_view, Went, Drew, split_left, split_right, joined, spent_view};

use crate::seats::SeatView;
use atomic_table::{Join, Play, Split, TableRule};
use rht_policy::Mix;
use rht_words::Env;
use std::marker::{Brand, PhantomData};

/// The rule: the words are those of a run.
pub struct Runs<M> {
    marker: PhantomData<M>,
}

impl<M: Mix> TableRule<(), SeatView<M>, Env> for Runs<M> {
    ghost holds = { Holds M.mix_of };

    ghost first = { first_view };
}

/// The call that begins with a step, if one does.
///
/// A type by which one operation tells the table's rule whether it is one event of the run or two: the
/// call's beginning as well. It has no bytes. Where an operation is made with `Brand`, the proof there
/// picks the call; what is written below is only what holds where nothing is picked.
pub trait Turn {
    ghost begins: { Option Call };
}

impl Turn for Brand {
    ghost begins = { None };
}

/// One operation of a caller, with the call that begins before it.
pub struct Goes<M, K> {
    marker: PhantomData<(M, K)>,
}

impl<M: Mix, K: Turn> Play<(), SeatView<M>> for Goes<M, K> {
    ghost then = { λ _ me old after. (after.1 ≡ me.1) × Went M.mix_of K.begins me.0 old after.0 };
}

/// One more caller is enrolled.
pub struct Enrolls<M> {
    marker: PhantomData<M>,
}

impl<M: Mix> Play<(), SeatView<M>> for Enrolls<M> {
    ghost then = { λ _ me old after. (after.1 ≡ me.1) × Drew M.mix_of me.0 old after.0 };
}

/// A caller goes to a seat of its own, and at the end back to another one.
pub struct Hands<M> {
    marker: PhantomData<M>,
}

impl<M: Mix> Split<SeatView<M>> for Hands<M> {
    ghost left = { split_left };

    ghost right = { split_right };
}

impl<M: Mix> Join<SeatView<M>> for Hands<M> {
    ghost both = { joined };

    ghost spent = { spent_view M };
}
