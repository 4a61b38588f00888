//! Taking the lock of a bucket and walking its chain, in whatever machine does so.

ghost use Rattle.std.specs.Prelude.{◌≡◌, ◌<◌, MatchOption};
ghost use Rattle.rht_chain.specs.Lock.{lock_new};
ghost use Rattle.rht_chain.specs.Probe.{probe_new, probe_plan_at, probe_after};
ghost use Rattle.rht_chain.specs.declared.locked_walk.LockedWalkAt.TheVariants.{Key};
ghost use Rattle.rht_chain.specs.declared.probe.ProbeAt.TheVariants as at;
ghost use Rattle.rht_run.specs.Layout.{physical_place};
ghost use Rattle.rht_run.specs.Rides.{IsRiding, Stepped, piece_next, come_to};

use crate::pieces::{Frame, ProbeLocking};
use crate::ride::Ride;
use crate::seats::SeatView;
use crate::starts::Starts;
use crate::table::Table;
use atomic_table::Seat;
use rht_chain::{Lock, Locked, LockedWalk, Probe, ProbeAt, Probed};
use rht_policy::Mix;
use rht_words::{Next, Start, head_of, is_locked, node_of};

impl<M: Mix> Table<M> {
    /// Locks the bucket at this place, in at most `rounds` rounds, and walks its chain to the first node with
    /// the key. Where it doesn't get the lock in these, or after 2^64 - 1 nodes, which no run has, it stops,
    /// and gives the probe as it stands there.
    #[inline(always)]
    pub(crate) fn probe<K: Ride, F: Frame<M, Probe, Probed>>(
        &self,
        seat: &mut Seat<(), SeatView<M>>,
        frame: &F,
        starts: Starts,
        place: usize,
        key: u64,
        rounds: u64,
    ) -> Result<Probed, Probe>
        requires { IsRiding M.mix_of self.now K.riding (F.holding frame.now (probe_new starts.geometry place key)) seat.old }
        ensures { Stepped M.mix_of self.now K.riding (come_to (λ p. F.holding frame.now p) (λ a. F.behind frame.now a) result) seat.new }
    {
        let probe = Probe::new(starts.geometry, place, key);
        let locking = ProbeLocking {
            frame,
            probe: &probe,
        };
        let Some(bucket) = self.take_lock::<K, ProbeLocking<F>>(seat, &locking, place, rounds)
        else {
            return Err(probe);
        };
        let Locked { place, word } = bucket;
        match LockedWalk::new(starts.geometry, place, word, key) {
            Start::Running(walk) => {
                let Some(node) = node_of(starts.geometry.nodes, head_of(place, word)) else {
                    unreachable!()
                };
                self.walk_locked::<K, F>(seat, frame, &probe, bucket, walk, starts, node)
            }
            Start::Done(seen) => Ok(Probed { bucket, seen }),
        }
    }

    /// Takes the lock of the bucket at this place, in at most `rounds` rounds. A round ends without it where
    /// the word was found locked, or was another one at the exchange. Each round begins with the lock's
    /// first state, so the compiler keeps no state of it; after the last one the lock is in that state too.
    #[inline(always)]
    pub(crate) fn take_lock<K: Ride, F: Frame<M, Lock, Locked>>(
        &self,
        seat: &mut Seat<(), SeatView<M>>,
        frame: &F,
        place: usize,
        rounds: u64,
    ) -> Option<Locked>
        requires { IsRiding M.mix_of self.now K.riding (F.holding frame.now (lock_new place)) seat.old }
        ensures { MatchOption result (IsRiding M.mix_of self.now K.riding (F.holding frame.now (lock_new place)) seat.new) (λ bucket. Stepped M.mix_of self.now K.riding (F.behind frame.now bucket) seat.new) }
    {
        for _ in 0..rounds {
            let lock = Lock::new(place);
            let word = self.operate::<K, Locked, Lock, F>(seat, frame, &lock);
            if is_locked(word) {
                continue;
            }
            let (lock, _) = lock.after(word);
            let found = self.operate::<K, Locked, Lock, F>(seat, frame, &lock);
            if found == word {
                return Some(Locked { place, word });
            }
        }
        None
    }

    /// Walks the chain of a bucket that is locked, from this node on. A round loads a node's key and the
    /// link behind it. It begins with the walk before a key, so the compiler keeps no state of it.
    #[inline(always)]
    fn walk_locked<K: Ride, F: Frame<M, Probe, Probed>>(
        &self,
        seat: &mut Seat<(), SeatView<M>>,
        frame: &F,
        probe: &Probe,
        bucket: Locked,
        walk: LockedWalk,
        starts: Starts,
        node: u32,
    ) -> Result<Probed, Probe>
        requires starts { walk.geometry ≡ starts.geometry }
        requires node { node < starts.geometry.nodes }
        requires riding { IsRiding M.mix_of self.now K.riding (F.holding frame.now (record probe.now { at = at.Walking bucket (record walk { at = Key node }) })) seat.old }
        ensures { Stepped M.mix_of self.now K.riding (come_to (λ p. F.holding frame.now p) (λ a. F.behind frame.now a) result) seat.new }
    {
        let mut walk = walk;
        let mut node = node;
        for _ in 0..u64::MAX {
            walk = walk.at_key(node);
            let at = ProbeAt::Walking { bucket, walk };
            let key = self.probing::<K, F>(seat, frame, probe, at, starts.key(node));
            let (next, answer) = walk.after(key);
            if let Next::Done(seen) = answer {
                return Ok(Probed { bucket, seen });
            }
            walk = next;
            let at = ProbeAt::Walking { bucket, walk };
            let link = self.probing::<K, F>(seat, frame, probe, at, starts.chain_link(node));
            let (next, answer) = walk.after(link);
            if let Next::Done(seen) = answer {
                return Ok(Probed { bucket, seen });
            }
            let Some(behind) = node_of(starts.geometry.nodes, link) else {
                unreachable!()
            };
            walk = next;
            node = behind;
        }
        self.walking_left::<K, F>(seat, frame, probe, bucket, walk, node)
    }

    /// The probe before the key of this node, with which the walk leaves off.
    #[cold]
    #[inline(never)]
    fn walking_left<K: Ride, F: Frame<M, Probe, Probed>>(
        &self,
        seat: &mut Seat<(), SeatView<M>>,
        frame: &F,
        probe: &Probe,
        bucket: Locked,
        walk: LockedWalk,
        node: u32,
    ) -> Result<Probed, Probe>
        requires node { node < walk.geometry.nodes }
        requires riding { IsRiding M.mix_of self.now K.riding (F.holding frame.now (record probe.now { at = at.Walking bucket (record walk { at = Key node }) })) seat.old }
        ensures { Stepped M.mix_of self.now K.riding (come_to (λ p. F.holding frame.now p) (λ a. F.behind frame.now a) result) seat.new }
    {
        let walk = walk.at_key(node);
        Err(probe.with(ProbeAt::Walking { bucket, walk }))
    }

    /// The operation of a probe in this state, which is at this physical place.
    #[inline(always)]
    fn probing<K: Ride, F: Frame<M, Probe, Probed>>(
        &self,
        seat: &mut Seat<(), SeatView<M>>,
        frame: &F,
        probe: &Probe,
        at: ProbeAt,
        place: usize,
    ) -> u64
        requires riding { IsRiding M.mix_of self.now K.riding (F.holding frame.now (record probe.now { at = at })) seat.old }
        requires place { place ≡ physical_place (probe_plan_at at) }
        ensures { Stepped M.mix_of self.now K.riding (piece_next (λ p. F.holding frame.now p) (λ a. F.behind frame.now a) (probe_after (record probe.now { at = at }) result)) seat.new }
    {
        self.operate_at::<K, Probed, Probe, F>(seat, frame, &probe.with(at), place)
    }
}
