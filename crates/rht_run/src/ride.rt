//! One operation of a call that is driven from outside its pass.
//!
//! The calls but a listing, a tidying and a reading of the count go through the states of their machine
//! in straight code: each line makes one operation, and knows in which state the machine is. So no
//! machine is kept while the program runs.
//! The seat's view has it, for the proofs alone.

ghost use Rattle.std.specs.Prelude.{◌≡◌, Some};
ghost use Rattle.rht_model.specs.Rooms.{emptied};
ghost use Rattle.rht_callers.specs.Batches.{CanPut};
ghost use Rattle.rht_core.specs.Locals.{machine_of, doing_after};
ghost use Rattle.rht_core.specs.Runs.{IsAdmittedCall};
ghost use Rattle.rht_run.specs.Layout.{physical_place};
ghost use Rattle.rht_run.specs.Rides.{Riding, any_riding, IsBefore, IsRiding, Stepped, HasCounted, piece_next, driven, batch_with};

use crate::layout::physical;
use crate::pieces::{Frame, Piece};
use crate::seats::SeatView;
use crate::table::Table;
use atomic_table::Seat;
use rht_core::Local;
use rht_policy::Mix;
use rht_words::{Next, Op};
use std::marker::Brand;
use std::sync::Wait;

/// What stays as it is while a call is driven: the caller's number, the call, the calls before it, the
/// caller's rooms and its batch.
///
/// The clauses along a call's way speak of them, and no value of the program has them. So each function
/// there takes a type `K: Ride`, which has that one ghost member and no bytes. `Brand` is the library's
/// marker for a type whose ghost members are picked where it is passed: the call itself passes it, and
/// its proof says what `riding` is from there on; the functions below hand `K` on.
pub trait Ride {
    ghost riding: { Riding };
}

impl Ride for Brand {
    ghost riding = { any_riding };
}

impl<M: Mix> Table<M> {
    /// The first operation of a call, which this piece plans. Its physical place is given with it.
    #[inline(always)]
    pub(crate) fn begin<K: Ride, A, P: Piece<M, A>, F: Frame<M, P, A>>(
        &self,
        seat: &mut Seat<(), SeatView<M>>,
        frame: &F,
        piece: &P,
        at: usize,
    ) -> u64
        requires before { IsBefore M.mix_of self.now K.riding seat.old }
        requires begins { machine_of self.now.env K.riding.number K.riding.batch K.riding.call ≡ Some (F.holding frame.now piece.now) }
        requires admitted { IsAdmittedCall K.riding.call }
        requires place { at ≡ physical_place (P.plan_of piece.now) }
        ensures doing { Stepped M.mix_of self.now K.riding (driven M.mix_of (F.holding frame.now piece.now) result) seat.new }
        ensures piece { Stepped M.mix_of self.now K.riding (piece_next (λ p. F.holding frame.now p) (λ a. F.behind frame.now a) (P.after_of piece.now result)) seat.new }
    {
        let op = piece.planned();
        self.perform::<Brand>(seat, op, at)
    }

    /// The operation that this piece plans, in the machine that holds it.
    #[inline(always)]
    pub(crate) fn operate<K: Ride, A, P: Piece<M, A>, F: Frame<M, P, A>>(
        &self,
        seat: &mut Seat<(), SeatView<M>>,
        frame: &F,
        piece: &P,
    ) -> u64
        requires { IsRiding M.mix_of self.now K.riding (F.holding frame.now piece.now) seat.old }
        ensures doing { Stepped M.mix_of self.now K.riding (driven M.mix_of (F.holding frame.now piece.now) result) seat.new }
        ensures piece { Stepped M.mix_of self.now K.riding (piece_next (λ p. F.holding frame.now p) (λ a. F.behind frame.now a) (P.after_of piece.now result)) seat.new }
        ensures counted { HasCounted seat.old (doing_after M.mix_of (F.holding frame.now piece.now) result).1 seat.new }
    {
        let op = piece.planned();
        let at = physical(op.place());
        self.advance::<K, A, P, F>(seat, frame, piece, op, at)
    }

    /// The same, where its physical place is known: so it need not be worked out from the geometry.
    #[inline(always)]
    pub(crate) fn operate_at<K: Ride, A, P: Piece<M, A>, F: Frame<M, P, A>>(
        &self,
        seat: &mut Seat<(), SeatView<M>>,
        frame: &F,
        piece: &P,
        at: usize,
    ) -> u64
        requires riding { IsRiding M.mix_of self.now K.riding (F.holding frame.now piece.now) seat.old }
        requires place { at ≡ physical_place (P.plan_of piece.now) }
        ensures doing { Stepped M.mix_of self.now K.riding (driven M.mix_of (F.holding frame.now piece.now) result) seat.new }
        ensures piece { Stepped M.mix_of self.now K.riding (piece_next (λ p. F.holding frame.now p) (λ a. F.behind frame.now a) (P.after_of piece.now result)) seat.new }
        ensures counted { HasCounted seat.old (doing_after M.mix_of (F.holding frame.now piece.now) result).1 seat.new }
    {
        let op = piece.planned();
        self.advance::<K, A, P, F>(seat, frame, piece, op, at)
    }

    /// Performs the operation that this piece plans, in the machine that holds it. It is planned once: an
    /// operation that is planned twice makes a function too large to be put into its callers.
    #[inline(always)]
    fn advance<K: Ride, A, P: Piece<M, A>, F: Frame<M, P, A>>(
        &self,
        seat: &mut Seat<(), SeatView<M>>,
        frame: &F,
        piece: &P,
        op: Op,
        at: usize,
    ) -> u64
        requires riding { IsRiding M.mix_of self.now K.riding (F.holding frame.now piece.now) seat.old }
        requires planned { op ≡ P.plan_of piece.now }
        requires place { at ≡ physical_place op }
        ensures doing { Stepped M.mix_of self.now K.riding (driven M.mix_of (F.holding frame.now piece.now) result) seat.new }
        ensures piece { Stepped M.mix_of self.now K.riding (piece_next (λ p. F.holding frame.now p) (λ a. F.behind frame.now a) (P.after_of piece.now result)) seat.new }
        ensures counted { HasCounted seat.old (doing_after M.mix_of (F.holding frame.now piece.now) result).1 seat.new }
    {
        self.perform::<Brand>(seat, op, at)
    }

    /// Runs a machine from where it stands to its answer, one operation after another. It is for the
    /// ways that are seldom taken.
    #[cold]
    #[inline(never)]
    pub(crate) fn run_whole<R: Wait, K: Ride, A, P: Piece<M, A> + Drop, F: Frame<M, P, A>>(
        &self,
        rt: &R,
        seat: &mut Seat<(), SeatView<M>>,
        frame: &F,
        machine: P,
    ) -> A
        requires { IsRiding M.mix_of self.now K.riding (F.holding frame.now machine) seat.old }
        ensures { Stepped M.mix_of self.now K.riding (F.behind frame.now result) seat.new }
    {
        let mut machine = machine;
        for _ in rt.forever() {
            let old = self.operate::<K, A, P, F>(seat, frame, &machine);
            if let Next::Done(answer) = machine.told(old) {
                return answer;
            }
        }
        unreachable!()
    }
}

/// Empties the caller's rooms, as the beginning of a call does that brings no lists. It takes no memory.
#[inline(always)]
pub(crate) fn clear_rooms<M: Mix>(local: &mut Local<M>)
    ensures { local.new ≡ record local.old { owners = emptied local.old.owners; pairs = emptied local.old.pairs } }
{
    local.owners.clear();
    local.pairs.clear();
}

/// The node that a call took out, where it took one out, goes into its caller's batch. It takes no memory.
#[inline(always)]
pub(crate) fn keep_node<M: Mix>(local: &mut Local<M>, removed: Option<u32>)
    requires { CanPut local.old.batch removed }
    ensures { local.new ≡ record local.old { batch = batch_with local.old.batch removed } }
{
    let Some(node) = removed else {
        return;
    };
    if let Some(batch) = &mut local.batch {
        batch.put(node);
    }
}

/// Behind a loop of 2^64 - 1 rounds, which no run uses up: it waits for ever. `rt.forever()` in that
/// loop would do so too, but it asks in each round, and the compiler keeps what it asks.
#[cold]
#[inline(never)]
pub(crate) fn never<R: Wait>(rt: &R)
    ensures { ⊥ }
{
    for _ in rt.forever() {}
}
