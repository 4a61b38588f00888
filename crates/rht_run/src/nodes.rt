//! Taking a free node and filling it, in whatever machine does so.

ghost use Rattle.std.specs.Prelude.{◌≡◌, Some};
ghost use Rattle.rht_words.specs.Ports.{word_of};
ghost use Rattle.rht_arena.specs.NewNode.{new_node_new, new_node_plan, new_node_after, new_node_after_at, node_taken};
ghost use Rattle.rht_arena.specs.declared.new_node.NewNodeAt.TheVariants.{Taking};
ghost use Rattle.rht_core.specs.Locals.{machine_of};
ghost use Rattle.rht_core.specs.Runs.{IsAdmittedCall};
ghost use Rattle.rht_run.specs.Layout.{physical_place};
ghost use Rattle.rht_run.specs.Rides.{IsBefore, IsRiding, Stepped, piece_next, come_to};
ghost use Rattle.rht_run.specs.Pieces.{new_node_told, node_then};

use crate::layout::physical;
use crate::pieces::Frame;
use crate::ride::Ride;
use crate::seats::SeatView;
use crate::starts::Starts;
use crate::table::Table;
use atomic_table::Seat;
use rht_arena::{NewNode, NewNodeAt, TakeNode};
use rht_policy::Mix;
use rht_words::{Next, Port, word_of};

impl<M: Mix> Table<M> {
    /// Begins a call that takes a free node and fills it, and does so. It answers that node, or that none
    /// is free. After 2^64 - 1 rounds, which no run uses up, it stops, and answers the state.
    #[inline(always)]
    pub(crate) fn begin_with_node<K: Ride, F: Frame<M, NewNode, Option<u32>>>(
        &self,
        seat: &mut Seat<(), SeatView<M>>,
        frame: &F,
        starts: Starts,
        port: Port,
        owner: u32,
    ) -> Result<Option<u32>, NewNodeAt>
        requires before { IsBefore M.mix_of self.now K.riding seat.old }
        requires begins { machine_of self.now.env K.riding.number K.riding.batch K.riding.call ≡ Some (F.holding frame.now (new_node_new starts.geometry (word_of port) owner)) }
        requires admitted { IsAdmittedCall K.riding.call }
        ensures { Stepped M.mix_of self.now K.riding (come_to (λ at. F.holding frame.now (record (new_node_new starts.geometry (word_of port) owner) { at = at })) (λ taken. F.behind frame.now taken) result) seat.new }
    {
        let new = NewNode::new(starts.geometry, word_of(port), owner);
        let first = physical(starts.geometry.node_map(0));
        let word = self.begin::<K, Option<u32>, NewNode, F>(seat, frame, &new, first);
        let take = TakeNode::new(starts.geometry);
        let (take, answer) = self.pass_over::<K, F>(seat, frame, &new, take, word);
        let taken = match self.take_node::<K, F>(seat, frame, &new, take, answer) {
            Ok(taken) => taken,
            Err(at) => return Err(at),
        };
        let Some(node) = taken else {
            return Ok(None);
        };
        let at = NewNodeAt::Key { node };
        self.filling_at::<K, F>(seat, frame, &new, at, starts.key(node));
        let at = NewNodeAt::Owner { node };
        self.filling_at::<K, F>(seat, frame, &new, at, starts.owner(node));
        let at = NewNodeAt::ListLink { node };
        self.filling_at::<K, F>(seat, frame, &new, at, starts.list_link(node));
        Ok(Some(node))
    }

    /// Goes over the words of the node map in which no bit is set, once the first word was looked at.
    /// By the test for 0 the compiler sees that no node is claimed in this loop, and keeps no state of
    /// the taking but the word's number. It ends after 2^64 - 1 rounds, which no run uses up.
    #[inline(always)]
    fn pass_over<K: Ride, F: Frame<M, NewNode, Option<u32>>>(
        &self,
        seat: &mut Seat<(), SeatView<M>>,
        frame: &F,
        new: &NewNode,
        take: TakeNode,
        word: u64,
    ) -> (TakeNode, Next<Option<u32>>)
        requires { Stepped M.mix_of self.now K.riding (piece_next (λ p. F.holding frame.now p) (λ a. F.behind frame.now a) (new_node_told new.now (new_node_after_at (Taking take) word))) seat.old }
        ensures { Stepped M.mix_of self.now K.riding (piece_next (λ p. F.holding frame.now p) (λ a. F.behind frame.now a) (new_node_told new.now (node_taken result.0 result.1))) seat.new }
    {
        let mut take = take;
        let mut word = word;
        for _ in 0..u64::MAX {
            if word != 0 {
                return take.after(word);
            }
            let (next, answer) = take.after(word);
            if let Next::Done(node) = answer {
                return (next, Next::Done(node));
            }
            take = next;
            word = self.filling::<K, F>(seat, frame, new, NewNodeAt::Taking { take });
        }
        take.after(word)
    }

    /// Takes a free node, once a word of the node map was looked at. It answers as `begin_with_node` does.
    /// The first operation stands before the loop: there the compiler sees that it claims a node, mostly
    /// the one that is taken.
    #[inline(always)]
    fn take_node<K: Ride, F: Frame<M, NewNode, Option<u32>>>(
        &self,
        seat: &mut Seat<(), SeatView<M>>,
        frame: &F,
        new: &NewNode,
        take: TakeNode,
        answer: Next<Option<u32>>,
    ) -> Result<Option<u32>, NewNodeAt>
        requires { Stepped M.mix_of self.now K.riding (piece_next (λ p. F.holding frame.now p) (λ a. F.behind frame.now a) (new_node_told new.now (node_taken take answer))) seat.old }
        ensures { Stepped M.mix_of self.now K.riding (come_to (λ at. F.holding frame.now (record new.now { at = at })) (λ taken. node_then (λ p. F.holding frame.now p) (λ a. F.behind frame.now a) new.now taken) result) seat.new }
    {
        if let Next::Done(taken) = answer {
            return Ok(taken);
        }
        let word = self.filling::<K, F>(seat, frame, new, NewNodeAt::Taking { take });
        let (mut take, mut answer) = take.after(word);
        for _ in 0..u64::MAX {
            if let Next::Done(taken) = answer {
                return Ok(taken);
            }
            let word = self.filling::<K, F>(seat, frame, new, NewNodeAt::Taking { take });
            (take, answer) = take.after(word);
        }
        if let Next::Done(taken) = answer {
            return Ok(taken);
        }
        Err(NewNodeAt::Taking { take })
    }

    /// The operation of a new node in this state.
    #[inline(always)]
    fn filling<K: Ride, F: Frame<M, NewNode, Option<u32>>>(
        &self,
        seat: &mut Seat<(), SeatView<M>>,
        frame: &F,
        new: &NewNode,
        at: NewNodeAt,
    ) -> u64
        requires { IsRiding M.mix_of self.now K.riding (F.holding frame.now (record new.now { at = at })) seat.old }
        ensures { Stepped M.mix_of self.now K.riding (piece_next (λ p. F.holding frame.now p) (λ a. F.behind frame.now a) (new_node_after (record new.now { at = at }) result)) seat.new }
    {
        self.operate::<K, Option<u32>, NewNode, F>(seat, frame, &new.with(at))
    }

    /// The same, where its physical place is known.
    #[inline(always)]
    fn filling_at<K: Ride, F: Frame<M, NewNode, Option<u32>>>(
        &self,
        seat: &mut Seat<(), SeatView<M>>,
        frame: &F,
        new: &NewNode,
        at: NewNodeAt,
        place: usize,
    ) -> u64
        requires riding { IsRiding M.mix_of self.now K.riding (F.holding frame.now (record new.now { at = at })) seat.old }
        requires place { place ≡ physical_place (new_node_plan (record new.now { at = at })) }
        ensures { Stepped M.mix_of self.now K.riding (piece_next (λ p. F.holding frame.now p) (λ a. F.behind frame.now a) (new_node_after (record new.now { at = at }) result)) seat.new }
    {
        self.operate_at::<K, Option<u32>, NewNode, F>(seat, frame, &new.with(at), place)
    }
}
