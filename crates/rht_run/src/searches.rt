//! The search of a port's list for an owner, in whatever machine makes it.

ghost use Rattle.std.specs.Prelude.{◌≡◌, ◌<◌};
ghost use Rattle.rht_release.specs.ListSearch.{search_plan, search_after, search_new, IsSearchIn};
ghost use Rattle.rht_release.specs.declared.release.ReleaseAt.TheVariants as releases;
ghost use Rattle.rht_release.specs.declared.rebind.RebindAt.TheVariants as rebinds;
ghost use Rattle.rht_run.specs.Layout.{physical_place};
ghost use Rattle.rht_run.specs.Rides.{IsRiding, Stepped, piece_next, come_to};
ghost use Rattle.rht_run.specs.Searches.{owner_search, owner_search_after, owner_sought, release_searched, release_searching, rebind_searched, rebind_searching};
ghost use Rattle.rht_run.specs.Seeks.{release_at, rebind_at};

use crate::pieces::{Frame, Piece};
use crate::ride::Ride;
use crate::seats::SeatView;
use crate::starts::Starts;
use crate::table::Table;
use atomic_table::Seat;
use rht_policy::Mix;
use rht_release::{FoundPort, ListPlace, ListSearch};
use rht_words::{Env, Next, Op, Port, node_of, owner_of};
use std::marker::Model;

/// The search for this owner.
#[derive(Clone, Copy)]
pub struct OwnerSearch {
    pub env: Env,
    pub owner: u32,
    pub search: ListSearch,
}

impl Model for OwnerSearch {
    ghost use Rattle.rht_release.specs.ListSearch.{IsSearchIn};
    ghost use Rattle.rht_run.specs.Searches.{OwnerSearchModel};

    ghost Value = { OwnerSearchModel };

    ghost view = { λ p. record { env = p.env; owner = p.owner; search = p.search } };

    ghost inverse = { λ p. record { env = p.env; owner = p.owner; search = p.search } };

    ghost invariant = { λ p. IsSearchIn p.env.geometry p.search };
}

/// How it ended: at the first node with the owner, or without one.
#[derive(Clone, Copy)]
pub struct OwnerSought {
    pub env: Env,
    pub owner: u32,
    pub place: Option<ListPlace>,
}

impl<M: Mix> Piece<M, OwnerSought> for OwnerSearch {
    ghost plan_of = { λ p. search_plan p.env.geometry p.search };

    ghost after_of = { owner_search_after };

    ghost is_in = { λ env p. IsSearchIn env.geometry p.search };

    #[inline(always)]
    fn planned(&self) -> Op {
        self.search.plan(self.env.geometry)
    }

    #[inline(always)]
    fn told(&mut self, old: u64) -> Next<OwnerSought> {
        let OwnerSearch { env, owner, search } = *self;
        let (search, next) = search.after(env.geometry, owner, old);
        self.search = search;
        match next {
            Next::Go => Next::Go,
            Next::Done(place) => Next::Done(OwnerSought { env, owner, place }),
        }
    }
}

/// A release that looks for its owner in the list of this port.
#[derive(Clone, Copy)]
pub struct ReleaseSearching {
    pub caller: u32,
    pub port: Port,
    pub found: FoundPort,
}

impl<M: Mix> Frame<M, OwnerSearch, OwnerSought> for ReleaseSearching {
    ghost use Rattle.std.specs.Prelude.{refl};

    ghost holding = { λ f p. release_at p.env f.caller f.port p.owner (releases.Searching f.found p.search) };

    ghost behind = { λ f there. release_searched f.caller f.port f.found there };

    ghost busy = { λ f p. refl };

    ghost empties = { λ f p room. refl };

    ghost beside = { λ f p batch. refl };

    ghost pairs = { λ f p room. refl };

    ghost plans = { λ f p. refl };

    ghost within = { λ env c f p is. is.at_in.search_in };

    ghost goes = { λ f p old. release_searching f.caller f.port f.found p.env p.owner (search_after p.env.geometry p.owner p.search old) };

    ghost keeps = { λ f p room old. refl };
}

/// A rebind that looks for the old owner in the list of this port, with this node.
#[derive(Clone, Copy)]
pub struct RebindSearching {
    pub caller: u32,
    pub port: Port,
    pub new: u32,
    pub node: u32,
    pub found: FoundPort,
}

impl<M: Mix> Frame<M, OwnerSearch, OwnerSought> for RebindSearching {
    ghost use Rattle.std.specs.Prelude.{refl};

    ghost holding = { λ f p. rebind_at p.env f.caller f.port p.owner f.new (rebinds.Searching f.node f.found p.search) };

    ghost behind = { λ f there. rebind_searched f.caller f.port f.found f.new f.node there };

    ghost busy = { λ f p. refl };

    ghost empties = { λ f p room. refl };

    ghost beside = { λ f p batch. refl };

    ghost pairs = { λ f p room. refl };

    ghost plans = { λ f p. refl };

    ghost within = { λ env c f p is. is.at_in.search_in };

    ghost goes = { λ f p old. rebind_searching f.caller f.port f.found f.new f.node p.env p.owner (search_after p.env.geometry p.owner p.search old) };

    ghost keeps = { λ f p room old. refl };
}

impl<M: Mix> Table<M> {
    /// Looks for the first node with the owner, from this node of the port's list on. After 2^64 - 1 nodes,
    /// which no run has, it stops, and gives the search as it stands there.
    #[inline(always)]
    pub(crate) fn search<K: Ride, F: Frame<M, OwnerSearch, OwnerSought>>(
        &self,
        seat: &mut Seat<(), SeatView<M>>,
        frame: &F,
        starts: Starts,
        owner: u32,
        first: u32,
    ) -> Result<Option<ListPlace>, ListSearch>
        requires starts { starts.geometry ≡ self.now.env.geometry }
        requires riding { IsRiding M.mix_of self.now K.riding (F.holding frame.now (owner_search self.now.env owner (search_new first))) seat.old }
        ensures { Stepped M.mix_of self.now K.riding (come_to (λ search. F.holding frame.now (owner_search self.now.env owner search)) (λ place. F.behind frame.now (owner_sought self.now.env owner place)) result) seat.new }
    {
        let mut node = first;
        let mut before = None;
        for _ in 0..u64::MAX {
            let at = ListSearch::Owner { node, before };
            let place = starts.owner(node);
            let word = self.searching_at::<K, F>(seat, frame, owner, at, place);
            if owner_of(word) == owner {
                return Ok(Some(ListPlace { node, before }));
            }
            let at = ListSearch::ListLink { node };
            let place = starts.list_link(node);
            let link = self.searching_at::<K, F>(seat, frame, owner, at, place);
            let Some(next) = node_of(self.env.geometry.nodes, link) else {
                return Ok(None);
            };
            before = Some(node);
            node = next;
        }
        Err(ListSearch::Owner { node, before })
    }

    /// The operation of the search in this state, whose physical place is known.
    #[inline(always)]
    fn searching_at<K: Ride, F: Frame<M, OwnerSearch, OwnerSought>>(
        &self,
        seat: &mut Seat<(), SeatView<M>>,
        frame: &F,
        owner: u32,
        search: ListSearch,
        place: usize,
    ) -> u64
        requires riding { IsRiding M.mix_of self.now K.riding (F.holding frame.now (owner_search self.now.env owner search)) seat.old }
        requires place { place ≡ physical_place (search_plan self.now.env.geometry search) }
        ensures { Stepped M.mix_of self.now K.riding (piece_next (λ p. F.holding frame.now p) (λ a. F.behind frame.now a) (owner_search_after (owner_search self.now.env owner search) result)) seat.new }
    {
        let piece = OwnerSearch {
            env: self.env,
            owner,
            search,
        };
        self.operate_at::<K, OwnerSought, OwnerSearch, F>(seat, frame, &piece, place)
    }
}
