//! A port that was found in a bucket, which stays locked.

ghost use Rattle.std.specs.Prelude.{◌≡◌};
ghost use Rattle.rht_chain.specs.LockedWalk.{IsNodeOrNone};
ghost use Rattle.rht_release.specs.FoundPort.{relink_of, unlock_of};

use rht_chain::{Locked, Relink, Unlock};
use rht_words::Geometry;

/// What a call knows that has found its port: the bucket, which it has locked, and the first node
/// of the port's list, which is in the bucket's chain.
#[derive(Clone, Copy, Debug, PartialEq, Eq)]
pub struct FoundPort {
    /// The slot of the table.
    pub table: u32,
    /// The table's shape.
    pub shape: u64,
    /// The bucket that was locked.
    pub bucket: Locked,
    /// The first node of the port's list.
    pub node: u32,
    /// The node before it in the chain; none where it is the bucket's first.
    pub before: Option<u32>,
}

impl FoundPort {
    /// The giving of another link to the place before the port's first node, which unlocks the
    /// bucket.
    #[inline(always)]
    pub fn relink(&self, geometry: Geometry, link: u64) -> Relink
        requires { IsNodeOrNone geometry self.now.before }
        ensures { result ≡ relink_of geometry self.now link }
    {
        let Locked { place, word } = self.bucket;
        Relink::new(geometry, place, word, self.before, link)
    }

    /// The unlocking of the bucket without a change.
    #[inline(always)]
    pub fn unlock(&self) -> Unlock
        ensures { result ≡ unlock_of self.now }
    {
        Unlock::new(self.bucket.place, self.bucket.word)
    }
}
