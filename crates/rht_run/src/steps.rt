//! One operation of a pass. It is the only place that touches the words of an open table.

ghost use Rattle.std.specs.Prelude.{◌≡◌, ◌<◌, Option, None, Some};
ghost use Rattle.rht_run.specs.Rule.{CanGo, Went, HasRoom, local_then};
ghost use Rattle.rht_run.specs.Layout.{physical_place};
ghost use Rattle.rht_run.specs.Passes.{CanPerform, IsSameSeat, IsPassOf, IsSamePass, HasGone};

use crate::layout::physical;
use crate::pass::Pass;
use crate::plays::{Goes, Turn};
use crate::seats::SeatView;
use crate::table::Table;
use atomic_table::Seat;
use rht_core::Local;
use rht_model::{Call, Reply};
use rht_policy::Mix;
use rht_words::{Env, Op};

impl<M: Mix> Table<M> {
    /// Performs the operation, which is at this physical place, and answers the word before it. Every
    /// operation is one atomic step; a store is a swap, so that it too tells the old word.
    #[inline(always)]
    pub(crate) fn perform<K: Turn>(
        &self,
        seat: &mut Seat<(), SeatView<M>>,
        op: Op,
        at: usize,
    ) -> u64
        requires can { CanPerform K.begins self.now seat.old op }
        requires place { at ≡ physical_place op }
        ensures seat { IsSameSeat seat.old seat.new }
        ensures went { Went M.mix_of K.begins seat.old.me.0 result seat.new.me.0 }
    {
        let words = &self.words.shared;
        match op {
            Op::Load { .. } => words.load::<Goes<M, K>>(seat, at),
            Op::Store { value, .. } => words.swap::<Goes<M, K>>(seat, at, value),
            Op::Exchange { old, new, .. } => {
                words.compare_exchange::<Goes<M, K>>(seat, at, old, new)
            }
            Op::Add { by, .. } => words.fetch_add::<Goes<M, K>>(seat, at, by),
            Op::Sub { by, .. } => words.fetch_sub::<Goes<M, K>>(seat, at, by),
            Op::And { mask, .. } => words.fetch_and::<Goes<M, K>>(seat, at, mask),
            Op::Or { mask, .. } => words.fetch_or::<Goes<M, K>>(seat, at, mask),
        }
    }

    /// Makes the next operation of the call in progress, or the first one of a call that begins.
    #[inline(always)]
    pub(crate) fn go<K: Turn>(&self, pass: &mut Pass<M>, begins: Option<Call>) -> Option<Reply>
        requires begins { begins ≡ K.begins }
        requires pass { IsPassOf M.mix_of self.now pass.old }
        requires can { CanGo self.now.env pass.old.number begins pass.old.local }
        ensures pass { IsPassOf M.mix_of self.now pass.new }
        ensures same { IsSamePass pass.old pass.new }
        ensures gone { HasGone M.mix_of self.now begins pass.old result pass.new }
    {
        begin_if(&mut pass.local, self.env, pass.number, begins);
        let Some(op) = pass.local.plan() else {
            unreachable!()
        };
        let at = physical(op.place());
        let old = self.perform::<K>(&mut pass.seat, op, at);
        pass.local.take(old)
    }
}

/// Gives the caller the call that begins, if one does.
#[inline(always)]
fn begin_if<M: Mix>(local: &mut Local<M>, env: Env, caller: u32, begins: Option<Call>)
    requires caller { caller < 16 }
    requires room { HasRoom env begins local.old }
    ensures { local.new ≡ local_then env caller begins local.old }
{
    if let Some(call) = begins {
        local.begin(env, caller, call);
    }
}
