//! The release of a port, in straight code.

ghost use Rattle.std.specs.Prelude.{◌≡◌, ◌<◌, false, Some};
ghost use Rattle.rht_model.specs.declared.history.Call.TheVariants.{Release as ReleaseCall};
ghost use Rattle.rht_model.specs.declared.history.Reply.TheVariants.{Released};
ghost use Rattle.rht_release.specs.FoundPort.{relink_of};
ghost use Rattle.rht_release.specs.declared.release.ReleaseAt.TheVariants.{Seeking, LinkBehind, Unlinking, Lowering, Closing};
ghost use Rattle.rht_release.specs.Release.{plan_at, promoting, IsReleaseAtIn};
ghost use Rattle.rht_run.specs.Layout.{physical_place};
ghost use Rattle.rht_run.specs.Rides.{IsBefore, IsRiding, HasEndedWith, Stepped, released, driven};
ghost use Rattle.rht_run.specs.Seeks.{release_at, release_came, port_seek, nested_seek};

use crate::layout::section;
use crate::pieces::Whole;
use crate::ride::Ride;
use crate::searches::ReleaseSearching;
use crate::seats::SeatView;
use crate::seeking::{Sought, nested_seek};
use crate::seeks::ReleaseSeeking;
use crate::starts::Starts;
use crate::table::Table;
use atomic_table::Seat;
use rht_core::{Doing, Local};
use rht_model::Reply;
use rht_policy::Mix;
use rht_release::release::{closing, kicks, unlocking};
use rht_release::{FoundPort, ListPlace, Release, ReleaseAt, Seek, SeekAt};
use rht_words::{Env, Port, link_of, node_of, table_of};

impl<M: Mix> Table<M> {
    /// Takes the binding out, from the first operation on. It answers whether `work` has something to do, or
    /// that there is no such binding, and the node that was taken out; or the state in which it left the
    /// release: at a bucket's lock that it didn't get in `rounds` rounds, or before the entries of a nested table.
    #[inline(never)]
    pub(crate) fn drive_release<K: Ride>(
        &self,
        seat: &mut Seat<(), SeatView<M>>,
        number: u32,
        port: Port,
        owner: u32,
        rounds: u64,
    ) -> Result<(Option<bool>, Option<u32>), ReleaseAt>
        requires before { IsBefore M.mix_of self.now K.riding seat.old }
        requires number { K.riding.number ≡ number }
        requires call { K.riding.call ≡ ReleaseCall port owner }
        ensures { Stepped M.mix_of self.now K.riding (release_came self.now.env number port owner result) seat.new }
    {
        let env = self.env;
        let release = Release::<M>::new(env, number, port, owner);
        self.begin::<K, (Reply, Option<u32>), Release<M>, Whole>(
            seat,
            &Whole,
            &release,
            section(number),
        );
        let frame = ReleaseSeeking {
            env,
            caller: number,
            owner,
        };
        let geometry = env.geometry;
        let starts = self.starts();
        let at = SeekAt::CurrentTable;
        let table = table_of(self.seeking::<K, ReleaseSeeking>(seat, &frame, geometry, port, at));
        let sought = self.seek::<K, ReleaseSeeking>(seat, &frame, starts, port, table, rounds);
        let found = match sought {
            Sought::Found { found } => found,
            Sought::Nowhere => {
                return Ok(self.close_release::<K>(seat, env, number, port, owner, None, None));
            }
            Sought::Nested {
                table,
                shape,
                bucket,
            } => {
                return self.release_nested::<K>(seat, number, port, owner, table, shape, bucket);
            }
            Sought::Left { at } => {
                return self.release_seeking::<K>(seat, number, port, owner, at);
            }
        };
        let frame = ReleaseSearching {
            caller: number,
            port,
            found,
        };
        let first = found.node;
        let searched = self.search::<K, ReleaseSearching>(seat, &frame, starts, owner, first);
        let place = match searched {
            Ok(place) => place,
            Err(search) => return Err(ReleaseAt::Searching { found, search }),
        };
        let Some(ListPlace { node, before }) = place else {
            let at = unlocking(found, None);
            self.releasing::<K>(seat, env, number, port, owner, at);
            return Ok(self.close_release::<K>(seat, env, number, port, owner, None, None));
        };
        Ok(self.take_out::<K>(seat, env, starts, number, port, owner, found, node, before))
    }

    /// Takes this node out of the port's list, where the node before it is this one.
    #[inline(always)]
    fn take_out<K: Ride>(
        &self,
        seat: &mut Seat<(), SeatView<M>>,
        env: Env,
        starts: Starts,
        number: u32,
        port: Port,
        owner: u32,
        found: FoundPort,
        node: u32,
        before: Option<u32>,
    ) -> (Option<bool>, Option<u32>)
        requires starts { starts.geometry ≡ env.geometry }
        requires riding { IsRiding M.mix_of self.now K.riding (release_at env number port owner (LinkBehind found node before)) seat.old }
        ensures { HasEndedWith M.mix_of self.now K.riding (released result.0) result.1 seat.new }
    {
        let at = ReleaseAt::LinkBehind {
            found,
            node,
            before,
        };
        let place = starts.list_link(node);
        let behind = self.releasing_at::<K>(seat, env, number, port, owner, at, place);
        if let Some(before) = before {
            let at = ReleaseAt::CuttingOut {
                found,
                node,
                before,
                link: behind,
            };
            self.releasing::<K>(seat, env, number, port, owner, at);
            let at = unlocking(found, Some(node));
            self.releasing::<K>(seat, env, number, port, owner, at);
            let kick = Some(false);
            return self.close_release::<K>(seat, env, number, port, owner, kick, Some(node));
        }
        let second = node_of(env.geometry.nodes, behind);
        let at = ReleaseAt::ChainLink { found, second };
        let place = starts.chain_link(found.node);
        let link = self.releasing_at::<K>(seat, env, number, port, owner, at, place);
        if let Some(second) = second {
            let at = ReleaseAt::SecondLink {
                found,
                second,
                link,
            };
            self.releasing::<K>(seat, env, number, port, owner, at);
            self.promoting::<K>(seat, env, number, port, owner, found, second);
            let kick = Some(false);
            return self.close_release::<K>(seat, env, number, port, owner, kick, Some(found.node));
        }
        self.unlinking::<K>(seat, env, number, port, owner, found, link);
        let shape = found.shape;
        let node = found.node;
        let at = ReleaseAt::Lowering { node, shape };
        let count = self.releasing::<K>(seat, env, number, port, owner, at);
        let kick = Some(kicks(env, shape, count));
        self.close_release::<K>(seat, env, number, port, owner, kick, Some(node))
    }

    /// Closes the read section, with which the release ends so: this node was taken out, or none.
    #[inline(always)]
    fn close_release<K: Ride>(
        &self,
        seat: &mut Seat<(), SeatView<M>>,
        env: Env,
        number: u32,
        port: Port,
        owner: u32,
        kick: Option<bool>,
        removed: Option<u32>,
    ) -> (Option<bool>, Option<u32>)
        requires { IsRiding M.mix_of self.now K.riding (release_at env number port owner (Closing (released kick) removed)) seat.old }
        ensures { HasEndedWith M.mix_of self.now K.riding (released result.0) result.1 seat.new }
    {
        let at = closing(released(kick), removed);
        self.releasing_at::<K>(seat, env, number, port, owner, at, section(number));
        (kick, removed)
    }

    /// Puts the list's second node in the first one's place, and unlocks the bucket.
    #[inline(always)]
    fn promoting<K: Ride>(
        &self,
        seat: &mut Seat<(), SeatView<M>>,
        env: Env,
        number: u32,
        port: Port,
        owner: u32,
        found: FoundPort,
        second: u32,
    )
        requires { IsRiding M.mix_of self.now K.riding (release_at env number port owner (promoting env.geometry found second)) seat.old }
        ensures { IsRiding M.mix_of self.now K.riding (release_at env number port owner (Closing (Released false) (Some found.node))) seat.new }
    {
        let relink = found.relink(env.geometry, link_of(second));
        let at = ReleaseAt::Promoting { found, relink };
        self.releasing::<K>(seat, env, number, port, owner, at);
        let Some(_) = found.before else {
            return;
        };
        let (relink, _) = relink.after();
        let at = ReleaseAt::Promoting { found, relink };
        self.releasing::<K>(seat, env, number, port, owner, at);
    }

    /// Takes the port's only node out of the chain, and unlocks the bucket.
    #[inline(always)]
    fn unlinking<K: Ride>(
        &self,
        seat: &mut Seat<(), SeatView<M>>,
        env: Env,
        number: u32,
        port: Port,
        owner: u32,
        found: FoundPort,
        link: u64,
    )
        requires { IsRiding M.mix_of self.now K.riding (release_at env number port owner (Unlinking found (relink_of env.geometry found link))) seat.old }
        ensures { IsRiding M.mix_of self.now K.riding (release_at env number port owner (Lowering found.node found.shape)) seat.new }
    {
        let relink = found.relink(env.geometry, link);
        let at = ReleaseAt::Unlinking { found, relink };
        self.releasing::<K>(seat, env, number, port, owner, at);
        let Some(_) = found.before else {
            return;
        };
        let (relink, _) = relink.after();
        let at = ReleaseAt::Unlinking { found, relink };
        self.releasing::<K>(seat, env, number, port, owner, at);
    }

    /// Leaves a release before the entries of a nested table.
    #[cold]
    #[inline(never)]
    fn release_nested<K: Ride>(
        &self,
        seat: &mut Seat<(), SeatView<M>>,
        number: u32,
        port: Port,
        owner: u32,
        table: u32,
        shape: u64,
        bucket: u32,
    ) -> Result<(Option<bool>, Option<u32>), ReleaseAt>
        requires { IsRiding M.mix_of self.now K.riding (release_at self.now.env number port owner (Seeking (nested_seek self.now.env.geometry table shape bucket))) seat.old }
        ensures { Stepped M.mix_of self.now K.riding (release_came self.now.env number port owner result) seat.new }
    {
        let seek = nested_seek(self.env.geometry, table, shape, bucket);
        Err(ReleaseAt::Seeking { seek })
    }

    /// Leaves a release whose way to the port was left here.
    #[cold]
    #[inline(never)]
    fn release_seeking<K: Ride>(
        &self,
        seat: &mut Seat<(), SeatView<M>>,
        number: u32,
        port: Port,
        owner: u32,
        at: SeekAt,
    ) -> Result<(Option<bool>, Option<u32>), ReleaseAt>
        requires { IsRiding M.mix_of self.now K.riding (release_at self.now.env number port owner (Seeking (port_seek self.now.env.geometry port at).seek)) seat.old }
        ensures { Stepped M.mix_of self.now K.riding (release_came self.now.env number port owner result) seat.new }
    {
        let seek = Seek::new(self.env.geometry).with(at);
        Err(ReleaseAt::Seeking { seek })
    }

    /// The operation of the release in this state.
    #[inline(always)]
    fn releasing<K: Ride>(
        &self,
        seat: &mut Seat<(), SeatView<M>>,
        env: Env,
        number: u32,
        port: Port,
        owner: u32,
        at: ReleaseAt,
    ) -> u64
        requires { IsRiding M.mix_of self.now K.riding (release_at env number port owner at) seat.old }
        ensures { Stepped M.mix_of self.now K.riding (driven M.mix_of (release_at env number port owner at) result) seat.new }
    {
        let release = Release::<M>::new(env, number, port, owner).with(at);
        self.operate::<K, (Reply, Option<u32>), Release<M>, Whole>(seat, &Whole, &release)
    }

    /// The same, where its physical place is known.
    #[inline(always)]
    fn releasing_at<K: Ride>(
        &self,
        seat: &mut Seat<(), SeatView<M>>,
        env: Env,
        number: u32,
        port: Port,
        owner: u32,
        at: ReleaseAt,
        place: usize,
    ) -> u64
        requires riding { IsRiding M.mix_of self.now K.riding (release_at env number port owner at) seat.old }
        requires place { place ≡ physical_place (plan_at env number at) }
        ensures { Stepped M.mix_of self.now K.riding (driven M.mix_of (release_at env number port owner at) result) seat.new }
    {
        let release = Release::<M>::new(env, number, port, owner).with(at);
        self.operate_at::<K, (Reply, Option<u32>), Release<M>, Whole>(seat, &Whole, &release, place)
    }
}

/// Leaves a caller in the middle of a release, which stands here. It takes no memory.
#[cold]
#[inline(never)]
pub(crate) fn leave_release<M: Mix>(
    local: &mut Local<M>,
    env: Env,
    caller: u32,
    port: Port,
    owner: u32,
    at: ReleaseAt,
)
    requires caller { caller < 16 }
    requires at { IsReleaseAtIn env at }
    ensures { local.new ≡ record local.old { doing = release_at env caller port owner at } }
{
    let release = Release::new(env, caller, port, owner).with(at);
    local.doing = Doing::Releasing(release);
}

/// The reply of a release: the binding was taken out, with this kick, or there is none.
#[inline(always)]
pub(crate) fn released(kick: Option<bool>) -> Reply
    ensures { result ≡ released kick }
{
    match kick {
        Some(kick) => Reply::Released { kick },
        None => Reply::Absent,
    }
}
