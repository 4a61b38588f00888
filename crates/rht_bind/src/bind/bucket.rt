//! How a bind comes to the bucket of its port. In a nested table the bucket's page may be missing: then
//! the bind goes on in the table behind, or enters a page where there was none.

ghost use Rattle.std.specs.Prelude.{◌≡◌, ◌<◌};
ghost use Rattle.rht_words.specs.Places.{IsBucketPlace};
ghost use Rattle.rht_nest.specs.Locate.{locate_after, IsLocateIn, IsLocatedBucketIn};
ghost use Rattle.rht_nest.specs.Place.{IsPlaceIn, IsEnteredIn};
ghost use Rattle.rht_nest.specs.Grow.{grow_after, IsGrowIn};
ghost use Rattle.rht_bind.specs.Bind.{locating, located, probing, at_bucket, grown, behind_page};

use super::{Attempt, BindAt, answering};
use rht_chain::Probe;
use rht_model::Reply;
use rht_nest::{Grow, Locate, LocateAt, LocatedBucket, Place};
use rht_policy::Mix;
use rht_words::{Env, Next, Port, Shape, Start, word_of};

/// The port's bucket in the table of this slot is looked for.
#[inline(always)]
pub fn locating(env: Env, attempt: Attempt, table: u32) -> BindAt
    requires { table < 8 }
    ensures { result ≡ locating env attempt table }
{
    let locate = Locate::new(env.geometry, table);
    BindAt::Locating { attempt, locate }
}

/// After an operation that looks for the bucket.
#[inline(always)]
pub(super) fn located<M: Mix>(
    env: Env,
    port: Port,
    attempt: Attempt,
    locate: Locate,
    old: u64,
) -> BindAt
    requires { IsLocateIn env.geometry locate }
    ensures { result ≡ located env port attempt (locate_after M.mix_of port locate old).0 (locate_after M.mix_of port locate old).1 }
{
    let (locate, next) = locate.after::<M>(port, old);
    match next {
        Next::Go => BindAt::Locating { attempt, locate },
        Next::Done(there) => {
            at_bucket(
                env,
                port,
                attempt,
                locate.table(),
                there.shape,
                there.bucket,
            )
        }
    }
}

/// The locking of a bucket that is there. Where it is missing it is empty, and a table that was behind
/// before that was seen is looked through next: the node goes into no table that has a further one.
/// Where no table was behind, a page is entered for the bucket.
#[inline(always)]
pub fn at_bucket(
    env: Env,
    port: Port,
    attempt: Attempt,
    table: u32,
    shape: u64,
    bucket: LocatedBucket,
) -> BindAt
    requires { IsLocatedBucketIn env.geometry bucket }
    ensures { result ≡ at_bucket env port attempt table shape bucket }
{
    match bucket {
        LocatedBucket::At(place) => probing(env, port, attempt, table, shape, place),
        LocatedBucket::Missing { place, early } => match early {
            Some(next) => locating(env, attempt, next),
            None => BindAt::Entering {
                attempt,
                table,
                shape,
                place,
                grow: Grow::new(env.geometry, place.entry()),
            },
        },
    }
}

/// The locking of the bucket whose word has this place.
#[inline(always)]
pub fn probing(
    env: Env,
    port: Port,
    attempt: Attempt,
    table: u32,
    shape: u64,
    place: usize,
) -> BindAt
    requires { IsBucketPlace env.geometry place }
    ensures { result ≡ probing env port attempt table shape place }
{
    BindAt::Probing {
        attempt,
        table,
        shape,
        probe: Probe::new(env.geometry, place, word_of(port)),
    }
}

/// After an operation that enters a page. Where none was free, the bind has its answer.
#[inline(always)]
pub(super) fn grown(
    env: Env,
    port: Port,
    attempt: Attempt,
    table: u32,
    shape: u64,
    place: Place,
    grow: Grow,
    old: u64,
) -> BindAt
    requires table { table < 8 }
    requires place { IsPlaceIn env.geometry place }
    requires grow { IsGrowIn env.geometry grow }
    ensures { result ≡ grown env port attempt table shape place (grow_after grow old).0 (grow_after grow old).1 }
{
    let (grow, next) = grow.after(old);
    match next {
        Next::Go => BindAt::Entering {
            attempt,
            table,
            shape,
            place,
            grow,
        },
        Next::Done(Some(page)) => {
            behind_page(env, port, attempt, table, shape, place.entered(page))
        }
        Next::Done(None) => {
            let size = Shape::from(shape).size();
            answering(attempt.node, Reply::NoTable { size })
        }
    }
}

/// Behind an entry that leads to a page, whoever entered it: the bucket is there, or the next entry is
/// looked at.
#[inline(always)]
pub fn behind_page(
    env: Env,
    port: Port,
    attempt: Attempt,
    table: u32,
    shape: u64,
    way: Start<Place, usize>,
) -> BindAt
    requires table { table < 8 }
    requires way { IsEnteredIn env.geometry way }
    ensures { result ≡ behind_page env port attempt table shape way }
{
    match way {
        Start::Running(place) => {
            let entry = LocateAt::Entry {
                shape,
                early: None,
                place,
            };
            let locate = Locate::new(env.geometry, table).with(entry);
            BindAt::Locating { attempt, locate }
        }
        Start::Done(place) => probing(env, port, attempt, table, shape, place),
    }
}
