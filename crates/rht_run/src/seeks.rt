//! The way to a port as a piece, and the bucket in which it probes.

ghost use Rattle.std.specs.Prelude.{◌≡◌, ℕ};
ghost use Rattle.rht_arena.specs.NewNode.{new_node_after};
ghost use Rattle.rht_chain.specs.Probe.{probe_after};
ghost use Rattle.rht_nest.specs.Locate.{locate_after};
ghost use Rattle.rht_release.specs.Seek.{seek_plan, seek_after, IsSeekIn};
ghost use Rattle.rht_release.specs.Release.{release_plan, release_after, IsReleaseAtIn};
ghost use Rattle.rht_release.specs.declared.release.ReleaseAt.TheVariants as releases;
ghost use Rattle.rht_release.specs.Rebind.{rebind_plan, rebind_after, IsRebindAtIn};
ghost use Rattle.rht_release.specs.declared.rebind.RebindAt.TheVariants as rebinds;
ghost use Rattle.rht_callers.specs.declared.local.Doing.TheVariants.{Releasing, Rebinding};
ghost use Rattle.rht_run.specs.Rides.{ended};
ghost use Rattle.rht_release.specs.declared.seek.SeekAt.TheVariants as seeks;
ghost use Rattle.rht_run.specs.Seeks.{port_seek, port_seek_after, seek_located, seek_locating, seek_probed, seek_probing, release_at, release_sought, release_seeking, rebind_at, rebind_filled, rebind_filling, rebind_sought, rebind_seeking};

use crate::pieces::{Frame, Piece, PortLocate, PortLocated, Whole};
use rht_arena::NewNode;
use rht_chain::{Probe, Probed};
use rht_model::Reply;
use rht_policy::Mix;
use rht_release::{FoundPort, Rebind, Release, Seek};
use rht_words::{Env, Geometry, Next, Op, Port};

/// The way to this port.
#[derive(Clone, Copy)]
pub struct PortSeek {
    pub port: Port,
    pub seek: Seek,
}

impl<M: Mix> Piece<M, (Port, Option<FoundPort>)> for PortSeek {
    ghost plan_of = { λ p. seek_plan p.seek };

    ghost after_of = { port_seek_after M.mix_of };

    ghost is_in = { λ env p. IsSeekIn env.geometry p.seek };

    #[inline(always)]
    fn planned(&self) -> Op {
        self.seek.plan()
    }

    #[inline(always)]
    fn told(&mut self, old: u64) -> Next<(Port, Option<FoundPort>)> {
        let (seek, next) = self.seek.after::<M>(self.port, old);
        self.seek = seek;
        match next {
            Next::Go => Next::Go,
            Next::Done(found) => Next::Done((self.port, found)),
        }
    }
}

/// A way to a port that finds the port's bucket.
#[derive(Clone, Copy)]
pub struct SeekLocating<F> {
    pub frame: F,
    pub geometry: Geometry,
}

impl<M: Mix, F: Frame<M, PortSeek, (Port, Option<FoundPort>)>> Frame<M, PortLocate, PortLocated>
    for SeekLocating<F> {
    ghost use Rattle.std.proofs.Common.{◌∙◌};

    ghost holding = { λ f p. F.holding f.frame (port_seek f.geometry p.port (seeks.Locating p.locate)) };

    ghost behind = { λ f there. seek_located (λ p. F.holding f.frame p) (λ a. F.behind f.frame a) f.geometry there.port there.table there.found.shape there.found.bucket };

    ghost busy = { λ f p. F.busy f.frame (port_seek f.geometry p.port (seeks.Locating p.locate)) };

    ghost empties = { λ f p room. F.empties f.frame (port_seek f.geometry p.port (seeks.Locating p.locate)) room };

    ghost beside = { λ f p batch. F.beside f.frame (port_seek f.geometry p.port (seeks.Locating p.locate)) batch };

    ghost pairs = { λ f p room. F.pairs f.frame (port_seek f.geometry p.port (seeks.Locating p.locate)) room };

    ghost plans = { λ f p. F.plans f.frame (port_seek f.geometry p.port (seeks.Locating p.locate)) };

    ghost within = { λ env c f p is. (F.within env c f.frame (port_seek f.geometry p.port (seeks.Locating p.locate)) is).at_in };

    ghost goes = { λ f p old. F.goes f.frame (port_seek f.geometry p.port (seeks.Locating p.locate)) old ∙ seek_locating (λ q. F.holding f.frame q) (λ a. F.behind f.frame a) f.geometry p.port (locate_after M.mix_of p.port p.locate old) };

    ghost keeps = { λ f p room old. F.keeps f.frame (port_seek f.geometry p.port (seeks.Locating p.locate)) room old };
}

/// A way to a port that is in the port's bucket.
#[derive(Clone, Copy)]
pub struct SeekProbing<F> {
    pub frame: F,
    pub geometry: Geometry,
    pub port: Port,
    pub table: u32,
    pub shape: u64,
}

impl<M: Mix, F: Frame<M, PortSeek, (Port, Option<FoundPort>)>> Frame<M, Probe, Probed>
    for SeekProbing<F> {
    ghost use Rattle.std.specs.Prelude.{refl};
    ghost use Rattle.std.proofs.Common.{◌∙◌};

    ghost holding = { λ f p. F.holding f.frame (port_seek f.geometry f.port (seeks.Probing f.table f.shape p)) };

    ghost behind = { λ f end. seek_probed (λ p. F.holding f.frame p) (λ a. F.behind f.frame a) f.geometry f.port f.table f.shape end };

    ghost busy = { λ f p. F.busy f.frame (port_seek f.geometry f.port (seeks.Probing f.table f.shape p)) };

    ghost empties = { λ f p room. F.empties f.frame (port_seek f.geometry f.port (seeks.Probing f.table f.shape p)) room };

    ghost beside = { λ f p batch. F.beside f.frame (port_seek f.geometry f.port (seeks.Probing f.table f.shape p)) batch };

    ghost pairs = { λ f p room. F.pairs f.frame (port_seek f.geometry f.port (seeks.Probing f.table f.shape p)) room };

    ghost plans = { λ f p. F.plans f.frame (port_seek f.geometry f.port (seeks.Probing f.table f.shape p)) };

    ghost within = { λ env c f p is. (F.within env c f.frame (port_seek f.geometry f.port (seeks.Probing f.table f.shape p)) is).at_in.probe_in };

    ghost goes = { λ f p old. F.goes f.frame (port_seek f.geometry f.port (seeks.Probing f.table f.shape p)) old ∙ seek_probing (λ q. F.holding f.frame q) (λ a. F.behind f.frame a) f.geometry f.port f.table f.shape (probe_after p old) };

    ghost keeps = { λ f p room old. F.keeps f.frame (port_seek f.geometry f.port (seeks.Probing f.table f.shape p)) room old };
}

// ---- the release

impl<M: Mix> Piece<M, (Reply, Option<u32>)> for Release<M> {
    ghost plan_of = { release_plan };

    ghost after_of = { release_after M.mix_of };

    ghost is_in = { λ env m. IsReleaseAtIn env m.at };

    #[inline(always)]
    fn planned(&self) -> Op {
        self.plan()
    }

    #[inline(always)]
    fn told(&mut self, old: u64) -> Next<(Reply, Option<u32>)> {
        self.take(old)
    }
}

impl<M: Mix> Frame<M, Release<M>, (Reply, Option<u32>)> for Whole {
    ghost use Rattle.std.specs.Prelude.{refl};

    ghost holding = { λ f m. Releasing m };

    ghost behind = { λ f end. ended end };

    ghost busy = { λ f m. refl };

    ghost empties = { λ f m room. refl };

    ghost beside = { λ f m batch. refl };

    ghost pairs = { λ f m room. refl };

    ghost plans = { λ f m. refl };

    ghost within = { λ env c f m is. is.at_in };

    ghost goes = { λ f m old. refl };

    ghost keeps = { λ f m room old. refl };
}

/// A release on its way to the port.
#[derive(Clone, Copy)]
pub struct ReleaseSeeking {
    pub env: Env,
    pub caller: u32,
    pub owner: u32,
}

impl<M: Mix> Frame<M, PortSeek, (Port, Option<FoundPort>)> for ReleaseSeeking {
    ghost use Rattle.std.specs.Prelude.{refl};

    ghost holding = { λ f p. release_at f.env f.caller p.port f.owner (releases.Seeking p.seek) };

    ghost behind = { λ f found. release_sought f.env f.caller found.0 f.owner found.1 };

    ghost busy = { λ f p. refl };

    ghost empties = { λ f p room. refl };

    ghost beside = { λ f p batch. refl };

    ghost pairs = { λ f p room. refl };

    ghost plans = { λ f p. refl };

    ghost within = { λ env c f p is. is.at_in };

    ghost goes = { λ f p old. release_seeking f.env f.caller p.port f.owner (seek_after M.mix_of p.port p.seek old) };

    ghost keeps = { λ f p room old. refl };
}

// ---- the rebind

impl<M: Mix> Piece<M, (Reply, Option<u32>)> for Rebind<M> {
    ghost plan_of = { rebind_plan };

    ghost after_of = { rebind_after M.mix_of };

    ghost is_in = { λ env m. IsRebindAtIn env m.at };

    #[inline(always)]
    fn planned(&self) -> Op {
        self.plan()
    }

    #[inline(always)]
    fn told(&mut self, old: u64) -> Next<(Reply, Option<u32>)> {
        self.take(old)
    }
}

impl<M: Mix> Frame<M, Rebind<M>, (Reply, Option<u32>)> for Whole {
    ghost use Rattle.std.specs.Prelude.{refl};

    ghost holding = { λ f m. Rebinding m };

    ghost behind = { λ f end. ended end };

    ghost busy = { λ f m. refl };

    ghost empties = { λ f m room. refl };

    ghost beside = { λ f m batch. refl };

    ghost pairs = { λ f m room. refl };

    ghost plans = { λ f m. refl };

    ghost within = { λ env c f m is. is.at_in };

    ghost goes = { λ f m old. refl };

    ghost keeps = { λ f m room old. refl };
}

/// A rebind that takes a node and fills it.
#[derive(Clone, Copy)]
pub struct RebindFilling {
    pub env: Env,
    pub caller: u32,
    pub port: Port,
    pub owner: u32,
    pub new: u32,
}

impl<M: Mix> Frame<M, NewNode, Option<u32>> for RebindFilling {
    ghost use Rattle.std.specs.Prelude.{refl};

    ghost holding = { λ f p. rebind_at f.env f.caller f.port f.owner f.new (rebinds.Filling p) };

    ghost behind = { λ f node. rebind_filled f.env f.caller f.port f.owner f.new node };

    ghost busy = { λ f p. refl };

    ghost empties = { λ f p room. refl };

    ghost beside = { λ f p batch. refl };

    ghost pairs = { λ f p room. refl };

    ghost plans = { λ f p. refl };

    ghost within = { λ env c f p is. is.at_in };

    ghost goes = { λ f p old. rebind_filling f.env f.caller f.port f.owner f.new (new_node_after p old) };

    ghost keeps = { λ f p room old. refl };
}

/// A rebind on its way to the port, with this node.
#[derive(Clone, Copy)]
pub struct RebindSeeking {
    pub env: Env,
    pub caller: u32,
    pub owner: u32,
    pub new: u32,
    pub node: u32,
}

impl<M: Mix> Frame<M, PortSeek, (Port, Option<FoundPort>)> for RebindSeeking {
    ghost use Rattle.std.specs.Prelude.{refl};

    ghost holding = { λ f p. rebind_at f.env f.caller p.port f.owner f.new (rebinds.Seeking f.node p.seek) };

    ghost behind = { λ f found. rebind_sought f.env f.caller found.0 f.owner f.new f.node found.1 };

    ghost busy = { λ f p. refl };

    ghost empties = { λ f p room. refl };

    ghost beside = { λ f p batch. refl };

    ghost pairs = { λ f p room. refl };

    ghost plans = { λ f p. refl };

    ghost within = { λ env c f p is. is.at_in.seek_in };

    ghost goes = { λ f p old. rebind_seeking f.env f.caller p.port f.owner f.new f.node (seek_after M.mix_of p.port p.seek old) };

    ghost keeps = { λ f p room old. refl };
}
