//! The look-up of a port, in straight code. It waits for nobody: its loops end.
//!
//! The one over tables has as many rounds as a number has values. Each makes an operation, and no
//! look-up has so many (`find_bound` of `rht_find`). So nothing stands behind it.

ghost use Rattle.std.specs.Prelude.{◌≡◌, ◌<◌};
ghost use Rattle.rht_model.specs.declared.history.Call.TheVariants.{Find as FindCall};
ghost use Rattle.rht_callers.specs.declared.local.Doing.TheVariants.{Finding};
ghost use Rattle.rht_core.specs.Locals.{doing_after};
ghost use Rattle.rht_find.specs.Find.{plan_at, locating};
ghost use Rattle.rht_find.specs.declared.find.FindAt.TheVariants.{Closing, Heading, Locating};
ghost use Rattle.rht_run.specs.Layout.{physical_place};
ghost use Rattle.rht_run.specs.Looking.{nested_reach, way_on, walked, bucket_begun, bucket_walked};
ghost use Rattle.rht_run.specs.PieceFrames.{find_at};
ghost use Rattle.rht_run.specs.Rides.{IsBefore, IsRiding, HasEnded, Stepped, HasCounted, steps_in, looked_up, owner_in, driven};

use crate::layout::section;
use crate::locating::Way;
use crate::pieces::{Piece, Whole};
use crate::ride::Ride;
use crate::seats::SeatView;
use crate::starts::Starts;
use crate::table::Table;
use atomic_table::Seat;
use rht_find::{Find, FindAt, Head};
use rht_model::Reply;
use rht_nest::{Place, Reach, ReachAt, is_nested};
use rht_policy::{Mix, bucket_of};
use rht_words::{
    Env, Geometry, Next, Port, head_of, marker_of, node_of, owner_of, slot_of, table_of, word_of,
};

/// Where one walk along a chain has come to.
#[derive(Clone, Copy)]
pub enum Walked {
    /// To a node that has the port's key.
    Found(u32),
    /// To an end, at this link.
    Ended(u64),
}

impl<M: Mix> Table<M> {
    /// Looks the port up, from the first operation to the reply. It answers the port's first owner, which
    /// goes back in registers where a reply would go through memory.
    #[inline(always)]
    pub(crate) fn drive_find<K: Ride>(
        &self,
        seat: &mut Seat<(), SeatView<M>>,
        number: u32,
        port: Port,
    ) -> Option<u32>
        requires before { IsBefore M.mix_of self.now K.riding seat.old }
        requires number { K.riding.number ≡ number }
        requires call { K.riding.call ≡ FindCall port }
        ensures { HasEnded M.mix_of self.now K.riding (looked_up result) seat.new }
    {
        let env = self.env;
        let starts = self.starts();
        let find = Find::<M>::new(env, number, port);
        self.begin::<K, Reply, Find<M>, Whole>(seat, &Whole, &find, section(number));
        let current = self.finding::<K>(seat, env, number, port, FindAt::CurrentTable);
        let mut table = table_of(current);
        for rounds in 0..u64::MAX {
            let place = match self.reach_bucket::<K>(seat, env, starts, number, port, table) {
                Way::Flat { place, .. } => place,
                Way::Nested { shape, bucket } => {
                    return self.find_nested::<K>(seat, number, port, table, shape, bucket);
                }
            };
            let found = self.walk_bucket::<K>(seat, env, starts, number, port, table, place);
            if let Some(node) = found {
                let at = FindAt::Owner { node };
                let word = self.finding_at::<K>(seat, env, number, port, at, starts.owner(node));
                return self.answering::<K>(seat, env, number, port, Some(owner_of(word)));
            }
            let future = self.finding::<K>(seat, env, number, port, FindAt::Future { table });
            let Some(next) = slot_of(future) else {
                return self.answering::<K>(seat, env, number, port, None);
            };
            table = next;
        }
        unreachable!()
    }

    /// Loads the shape and the seed of the table of this slot, and works out the port's bucket.
    #[inline(always)]
    fn reach_bucket<K: Ride>(
        &self,
        seat: &mut Seat<(), SeatView<M>>,
        env: Env,
        starts: Starts,
        number: u32,
        port: Port,
        table: u32,
    ) -> Way
        requires starts { starts.geometry ≡ env.geometry }
        requires riding { IsRiding M.mix_of self.now K.riding (find_at env number port (locating env table)) seat.old }
        ensures riding { IsRiding M.mix_of self.now K.riding (find_at env number port (way_on env table result)) seat.new }
        ensures more { steps_in seat.old < steps_in seat.new }
    {
        let reach = Reach::new(env.geometry, table);
        let shape = self.finding::<K>(seat, env, number, port, FindAt::Locating { reach });
        let reach = reach.with(ReachAt::Seed { shape });
        let seed = self.finding::<K>(seat, env, number, port, FindAt::Locating { reach });
        let bucket = bucket_of::<M>(port, shape, seed);
        if is_nested(shape) {
            return Way::Nested { shape, bucket };
        }
        let place = starts.bucket(shape, bucket);
        Way::Flat { shape, place }
    }

    /// Walks the bucket whose word is at this place, and behind a strange end anew, where that may be
    /// still. It answers the node that has the port's key. Whether it may is told by how many walks there
    /// were, so a look-up that has found its port hasn't read how often a walk may be repeated.
    #[inline(always)]
    fn walk_bucket<K: Ride>(
        &self,
        seat: &mut Seat<(), SeatView<M>>,
        env: Env,
        starts: Starts,
        number: u32,
        port: Port,
        table: u32,
        place: usize,
    ) -> Option<u32>
        requires env { env ≡ self.now.env }
        requires starts { starts.geometry ≡ env.geometry }
        requires riding { IsRiding M.mix_of self.now K.riding (find_at env number port (bucket_begun env table place)) seat.old }
        ensures riding { IsRiding M.mix_of self.now K.riding (find_at env number port (bucket_walked table result)) seat.new }
        ensures more { steps_in seat.old < steps_in seat.new }
    {
        let mut left = env.config.rewalks;
        for walks in 0..u64::MAX {
            let head = Head { table, place, left };
            let link = match self.walk_chain::<K>(seat, env, starts, number, port, head) {
                Walked::Found(node) => return Some(node),
                Walked::Ended(link) => link,
            };
            if link == marker_of(place) || walks == u64::from(self.env.config.rewalks) {
                return None;
            }
            left -= 1;
        }
        unreachable!()
    }

    /// Walks along the chain of a bucket, over at most as many nodes as there are.
    #[inline(always)]
    fn walk_chain<K: Ride>(
        &self,
        seat: &mut Seat<(), SeatView<M>>,
        env: Env,
        starts: Starts,
        number: u32,
        port: Port,
        head: Head,
    ) -> Walked
        requires starts { starts.geometry ≡ env.geometry }
        requires riding { IsRiding M.mix_of self.now K.riding (find_at env number port (Heading head)) seat.old }
        ensures riding { IsRiding M.mix_of self.now K.riding (find_at env number port (walked head result)) seat.new }
        ensures more { steps_in seat.old < steps_in seat.new }
    {
        let nodes = env.geometry.nodes;
        let word = self.finding::<K>(seat, env, number, port, FindAt::Heading { head });
        let mut link = head_of(head.place, word);
        for visited in 0..nodes {
            let Some(node) = node_of(nodes, link) else {
                return Walked::Ended(link);
            };
            let at = FindAt::Key {
                head,
                node,
                visited,
            };
            let key = self.finding_at::<K>(seat, env, number, port, at, starts.key(node));
            if key == word_of(port) {
                return Walked::Found(node);
            }
            let at = FindAt::Link {
                head,
                node,
                visited: visited + 1,
            };
            link = self.finding_at::<K>(seat, env, number, port, at, starts.chain_link(node));
        }
        Walked::Ended(link)
    }

    /// Closes the read section, with which the look-up ends: the port has this first owner, or is missing.
    #[inline(always)]
    fn answering<K: Ride>(
        &self,
        seat: &mut Seat<(), SeatView<M>>,
        env: Env,
        number: u32,
        port: Port,
        owner: Option<u32>,
    ) -> Option<u32>
        requires { IsRiding M.mix_of self.now K.riding (find_at env number port (Closing (looked_up owner))) seat.old }
        ensures { HasEnded M.mix_of self.now K.riding (looked_up result) seat.new }
    {
        let reply = looked_up(owner);
        let at = FindAt::Closing { reply };
        self.finding_at::<K>(seat, env, number, port, at, section(number));
        owner
    }

    /// Looks the port up from a nested table on.
    #[cold]
    #[inline(never)]
    fn find_nested<K: Ride>(
        &self,
        seat: &mut Seat<(), SeatView<M>>,
        number: u32,
        port: Port,
        table: u32,
        shape: u64,
        bucket: u32,
    ) -> Option<u32>
        requires call { K.riding.call ≡ FindCall port }
        requires riding { IsRiding M.mix_of self.now K.riding (find_at self.now.env number port (Locating (nested_reach self.now.env.geometry table shape bucket))) seat.old }
        ensures { HasEnded M.mix_of self.now K.riding (looked_up result) seat.new }
    {
        let reach = nested_reach(self.env.geometry, table, shape, bucket);
        let find = Find::<M>::new(self.env, number, port);
        owner_in(self.find_on::<K>(seat, port, find.with(FindAt::Locating { reach })))
    }

    /// Goes on with a look-up from where it stands to its reply, one operation after another.
    fn find_on<K: Ride>(&self, seat: &mut Seat<(), SeatView<M>>, port: Port, find: Find<M>) -> Reply
        requires call { K.riding.call ≡ FindCall port }
        requires riding { IsRiding M.mix_of self.now K.riding (Finding find) seat.old }
        ensures { HasEnded M.mix_of self.now K.riding result seat.new }
    {
        let mut find = find;
        for rounds in 0..u64::MAX {
            let old = self.operate::<K, Reply, Find<M>, Whole>(seat, &Whole, &find);
            if let Next::Done(reply) = find.told(old) {
                return reply;
            }
        }
        unreachable!()
    }

    /// The operation of the look-up in this state.
    #[inline(always)]
    fn finding<K: Ride>(
        &self,
        seat: &mut Seat<(), SeatView<M>>,
        env: Env,
        number: u32,
        port: Port,
        at: FindAt,
    ) -> u64
        requires { IsRiding M.mix_of self.now K.riding (find_at env number port at) seat.old }
        ensures doing { Stepped M.mix_of self.now K.riding (driven M.mix_of (find_at env number port at) result) seat.new }
        ensures counted { HasCounted seat.old (doing_after {M = M} M.mix_of (find_at env number port at) result).1 seat.new }
    {
        let find = Find::<M>::new(env, number, port).with(at);
        self.operate::<K, Reply, Find<M>, Whole>(seat, &Whole, &find)
    }

    /// The same, where its physical place is known.
    #[inline(always)]
    fn finding_at<K: Ride>(
        &self,
        seat: &mut Seat<(), SeatView<M>>,
        env: Env,
        number: u32,
        port: Port,
        at: FindAt,
        place: usize,
    ) -> u64
        requires riding { IsRiding M.mix_of self.now K.riding (find_at env number port at) seat.old }
        requires place { place ≡ physical_place (plan_at env number at) }
        ensures doing { Stepped M.mix_of self.now K.riding (driven M.mix_of (find_at env number port at) result) seat.new }
        ensures counted { HasCounted seat.old (doing_after {M = M} M.mix_of (find_at env number port at) result).1 seat.new }
    {
        let find = Find::<M>::new(env, number, port).with(at);
        self.operate_at::<K, Reply, Find<M>, Whole>(seat, &Whole, &find, place)
    }
}

/// The way to a bucket, once the shape and the seed of a nested table were loaded.
fn nested_reach(geometry: Geometry, table: u32, shape: u64, bucket: u32) -> Reach
    requires { table < 8 }
    ensures { result ≡ nested_reach geometry table shape bucket }
{
    let place = Place::nested(geometry, shape, bucket);
    Reach::new(geometry, table).with(ReachAt::Entry { place })
}

/// The reply of a look-up: this is the port's first owner, or the port is missing.
#[inline(always)]
pub(crate) fn looked_up(owner: Option<u32>) -> Reply
    ensures { result ≡ looked_up owner }
{
    match owner {
        Some(owner) => Reply::Found { owner },
        None => Reply::Missing,
    }
}

/// The owner in the reply of a look-up.
fn owner_in(reply: Reply) -> Option<u32>
    ensures { result ≡ owner_in reply }
{
    match reply {
        Reply::Found { owner } => Some(owner),
        _ => None,
    }
}
