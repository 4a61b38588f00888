//! A walk that is resumed piece by piece.
//!
//! Stands on `Table::walk` alone, which it calls with the limit 1. Read `specs/Pieces.antt` first.

ghost use Rattle.std.specs.Prelude.{◌≡◌, ◌≢◌, ◌≤◌, ◌<◌, ◌+◌, ◌-◌, ◌↔◌, ◌++◌, None, true, length, drop, IsTrue, IfOk};
ghost use Rattle.rht_core.specs.Locals.{is_idle};
ghost use Rattle.rht_run.specs.Passes.{IsPassOf};
ghost use Rattle.rht_resume.specs.Pieces.{unbegun, restarted, begun, reopened, taking, behind_answer};
ghost use Rattle.rht_resume.specs.ServedPieces.{HasResumed, HasTurned, IsTurned, IsAgainCaused};

use crate::resume::Piece;
use rht_model::{Cursor, Reply, Room};
use rht_policy::Mix;
use rht_run::{Pass, Table};
use rht_words::Port;
use std::alloc::{AllocError, Global};
use std::marker::Model;

/// Where a resumed walk is.
#[derive(Clone, Copy, Debug, PartialEq, Eq)]
pub struct Spot {
    /// With what the next walk goes on; without one it begins at the first bucket.
    pub cursor: Option<Cursor>,
    /// How many pairs were shown of the occupied bucket that came next; so many of the next walk are passed over,
    /// whichever bucket they are of.
    pub shown: u32,
}

/// The start of a walk.
const START: Spot = Spot {
    cursor: None,
    shown: 0,
};

/// A table's shape can tell of no more buckets than so many.
const MOST_BUCKETS: u32 = 262_144;

/// A walk in pieces, each of at most as many pairs as its caller states. It is kept beside a pass, for a table
/// that has as many nodes. Before it walks another table it is to be restarted, since a cursor into one table may
/// fit another. Contracts see where it is, and the pairs of its last piece. No call but `new` takes memory.
#[derive(Debug, Drop)]
pub struct Resumed {
    /// None once the walk has ended.
    spot: Option<Spot>,
    pairs: Room<(Port, u32)>,
}

impl Model for Resumed {
    ghost use Rattle.rht_resume.specs.Pieces.{Walking};

    ghost Value = { Walking };

    ghost view = { λ r. record { spot = r.spot; pairs = r.pairs.items; nodes = r.pairs.limit } };
}

impl Resumed {
    /// A walk at its start, with room for as many pairs as a table has nodes. Want of memory is its one refusal.
    pub fn new(alloc: Global, nodes: u32) -> Result<Resumed, AllocError>
        ensures { IfOk result (λ resumed. resumed ≡ unbegun nodes) }
    {
        Ok(Resumed {
            spot: Some(START),
            pairs: Room::with_limit(alloc, nodes)?,
        })
    }

    /// Whether the last `next` came to the table's end, and the walk wasn't restarted since.
    pub fn is_ended(&self) -> bool
        ensures { IsTrue result ↔ (self.now.spot ≡ None) }
    {
        self.spot.is_none()
    }

    /// Goes to the start. The pairs of the last piece stay.
    pub fn restart(&mut self)
        ensures { self.new ≡ restarted self.old }
    {
        self.spot = Some(START);
    }

    /// Goes to the start where the walk has ended.
    pub(crate) fn reopen(&mut self)
        ensures { self.new ≡ reopened self.old }
    {
        self.spot = Some(begun(self.spot));
    }

    /// The pairs of the last piece, in the order in which they were seen: a port and its first owner each. Before
    /// the first piece, and after `Again`, there are none.
    pub fn pairs(&self) -> &[(Port, u32)]
        ensures { result.now ≡ self.now.pairs }
    {
        self.pairs.as_slice()
    }

    /// The next piece of the walk, with no more pairs than the limit, which is 1 to the number of nodes; they
    /// stand in `pairs`. It waits for nobody and takes no memory. Its calls of `Table::walk` go on from bucket
    /// to later bucket of one table, so there are no more of them than this has buckets (`laws::few_walks`).
    ///
    /// `Part` has as many pairs as the limit says, and the walk goes on. `End` comes with the rest of them at the
    /// table's end, and the walk is ended then. `Again` comes where a walk was answered so, for its cause; the
    /// piece has no pairs, and the walk is at its start.
    ///
    /// Each pair was bound at some moment of this call (`laws::bound`). Where nothing changes in between, the
    /// pieces of a whole walk show each bound port once (`laws::quiet`). Otherwise a port that stays bound may be
    /// shown twice, or not at all: of a bucket it keeps how many pairs it has shown, and no more.
    pub fn next<M: Mix>(&mut self, table: &Table<M>, pass: &mut Pass<M>, limit: u32) -> Piece
        requires open { self.old.spot ≢ None }
        requires nodes { self.old.nodes ≡ table.now.env.config.nodes }
        requires some { 0 < limit }
        requires within { limit ≤ self.old.nodes }
        requires pass { IsPassOf M.mix_of table.now pass.old }
        requires idle { is_idle pass.old.local ≡ true }
        ensures resumed { HasResumed M.mix_of table.now limit self.old self.new result pass.old pass.new }
        ensures cause { IsAgainCaused M.mix_of table.now result pass.old pass.new }
    {
        self.pairs.clear();
        for _ in 0..MOST_BUCKETS {
            let Some(spot) = self.spot else {
                unreachable!()
            };
            if let Some(piece) = self.turn(table, pass, spot, limit) {
                return piece;
            }
        }
        unreachable!()
    }

    /// Makes one walk, and takes pairs of its answer: a piece where that ends the `next`.
    fn turn<M: Mix>(
        &mut self,
        table: &Table<M>,
        pass: &mut Pass<M>,
        spot: Spot,
        limit: u32,
    ) -> Option<Piece>
        requires pairs { length self.old.pairs ≤ limit }
        requires within { limit ≤ self.old.nodes }
        requires pass { IsPassOf M.mix_of table.now pass.old }
        requires idle { is_idle pass.old.local ≡ true }
        ensures { HasTurned M.mix_of table.now limit spot self.old self.new result pass.old pass.new }
    {
        match table.walk(pass, spot.cursor, 1) {
            Reply::Walked { len, next } => self.take(spot, pass.pairs(), len, next, limit),
            Reply::Again { table } => {
                self.spot = Some(START);
                self.pairs.clear();
                Some(Piece::Again { table })
            }
            _ => unreachable!(),
        }
    }

    /// Takes the pairs of an answer that weren't shown, as many as are wanted.
    fn take(
        &mut self,
        spot: Spot,
        seen: &[(Port, u32)],
        len: u32,
        next: Option<Cursor>,
        limit: u32,
    ) -> Option<Piece>
        requires pairs { length self.old.pairs ≤ limit }
        requires within { limit ≤ self.old.nodes }
        requires len { length seen.now ≡ len }
        ensures { IsTurned (taking limit spot self.old.pairs (limit - length self.old.pairs) (drop spot.shown seen.now) next)
            result self.old self.new }
    {
        let wanted = limit - self.pairs.len();
        let fresh = unshown(seen, spot.shown);
        if (wanted as usize) < fresh.len() {
            self.add(&fresh[..wanted as usize]);
            self.spot = Some(Spot {
                cursor: spot.cursor,
                shown: spot.shown + wanted,
            });
            return Some(Piece::Part);
        }
        self.add(fresh);
        self.go_on(next, limit)
    }

    /// Goes on behind an answer of which no pair is left.
    fn go_on(&mut self, next: Option<Cursor>, limit: u32) -> Option<Piece>
        ensures { IsTurned (behind_answer limit self.old.pairs next) result self.old self.new }
    {
        match next {
            None => {
                self.spot = None;
                Some(Piece::End {
                    len: self.pairs.len(),
                })
            }
            Some(cursor) => {
                self.spot = Some(Spot {
                    cursor: Some(cursor),
                    shown: 0,
                });
                if self.pairs.len() == limit {
                    Some(Piece::Part)
                } else {
                    None
                }
            }
        }
    }

    /// The piece has these pairs too.
    fn add(&mut self, more: &[(Port, u32)])
        requires { length self.old.pairs + length more.now ≤ self.old.nodes }
        ensures pairs { self.new.pairs ≡ self.old.pairs ++ more.now }
        ensures spot { self.new.spot ≡ self.old.spot }
        ensures nodes { self.new.nodes ≡ self.old.nodes }
    {
        for pair in more {
            self.pairs.push(*pair);
        }
    }
}

/// Where the next piece begins, once a walk that has ended is restarted.
fn begun(spot: Option<Spot>) -> Spot
    ensures { result ≡ begun spot }
{
    match spot {
        None => START,
        Some(spot) => spot,
    }
}

/// The pairs behind those that were shown.
fn unshown(seen: &[(Port, u32)], shown: u32) -> &[(Port, u32)]
    ensures { result.now ≡ drop shown seen.now }
{
    &seen[seen.len().min(shown as usize)..]
}
