//! The functions between the states in which a worker moves the entries of the current table.

ghost use Rattle.std.specs.Prelude.{◌≡◌, ◌<◌};
ghost use Rattle.rht_words.specs.Shapes.{size_of, unpacked};
ghost use Rattle.rht_nest.specs.Place.{place_after};
ghost use Rattle.rht_chain.specs.Lock.{lock_after};
ghost use Rattle.rht_chain.specs.LockedWalk.{IsNodeOrNone};
ghost use Rattle.rht_move.specs.LastTable.{last_table_after};
ghost use Rattle.rht_move.specs.LastEntry.{last_entry_after};
ghost use Rattle.rht_move.specs.Work.{bucket_of_root, next_bucket, entry_passed, locked, entry_table, entry_table_seen, unlocking, first_entry, entry_or_empty, walked, keyed, second_locked, cut_off, unlocked_bucket, retiring};

use crate::last_entry::{Entry, LastEntry};
use crate::last_table::LastTable;
use crate::rehash::{Emptying, Rehash, Second, Target};
use crate::work::ending::{Ending, letting_go};
use crate::work::{Outcome, WorkAt};
use rht_chain::{Lock, Locked, Unlock};
use rht_nest::{Bucket, Place, flat_place, is_nested};
use rht_policy::{Mix, bucket_of};
use rht_words::{Geometry, Next, Shape, head_of, node_of, port_of, unlocked};

/// The locking of a bucket of the current table, or the way to it where that table is nested.
#[inline(always)]
pub fn bucket_of_root(geometry: Geometry, rehash: Rehash, number: u32) -> WorkAt
    ensures { result ≡ bucket_of_root geometry rehash number }
{
    if is_nested(rehash.shape) {
        WorkAt::Entry {
            rehash,
            number,
            place: Place::nested(geometry, rehash.shape, number),
        }
    } else {
        WorkAt::Locking {
            rehash,
            number,
            lock: Lock::new(flat_place(geometry, rehash.shape, number)),
        }
    }
}

/// The bucket behind this one. Behind the last one the table is empty.
#[inline(always)]
pub fn next_bucket(geometry: Geometry, rehash: Rehash, number: u32) -> WorkAt
    requires { number < size_of (unpacked rehash.shape) }
    ensures { result ≡ next_bucket geometry rehash number }
{
    if number + 1 < Shape::from(rehash.shape).size() {
        bucket_of_root(geometry, rehash, number + 1)
    } else {
        WorkAt::Publishing { rehash }
    }
}

/// After an entry, which was this: the next one is loaded, or the bucket is locked. One that is missing
/// is empty, and so the next bucket comes.
#[inline(always)]
pub fn entry_passed(
    geometry: Geometry,
    rehash: Rehash,
    number: u32,
    place: Place,
    old: u64,
) -> WorkAt
    requires { number < size_of (unpacked rehash.shape) }
    ensures { result ≡ entry_passed geometry rehash number (place_after place old).0 (place_after place old).1 }
{
    let (place, next) = place.after(old);
    match next {
        Next::Go => WorkAt::Entry {
            rehash,
            number,
            place,
        },
        Next::Done(Bucket::At(word)) => WorkAt::Locking {
            rehash,
            number,
            lock: Lock::new(word),
        },
        Next::Done(Bucket::Absent(_)) => next_bucket(geometry, rehash, number),
    }
}

/// After an operation of the lock: a bucket that is locked is emptied, entry by entry.
#[inline(always)]
pub fn locked(geometry: Geometry, rehash: Rehash, number: u32, lock: Lock, old: u64) -> WorkAt
    requires { rehash.root < 8 }
    ensures { result ≡ locked geometry rehash number (lock_after lock old).0 (lock_after lock old).1 }
{
    let (lock, next) = lock.after(old);
    match next {
        Next::Go => WorkAt::Locking {
            rehash,
            number,
            lock,
        },
        Next::Done(word) => {
            let place = lock.place();
            let bucket = Locked { place, word };
            let emptying = Emptying {
                rehash,
                number,
                bucket,
            };
            entry_table(geometry, emptying)
        }
    }
}

/// The search for the table to which the bucket's last entry is moved, from the current one on.
#[inline(always)]
pub fn entry_table(geometry: Geometry, emptying: Emptying) -> WorkAt
    requires { emptying.rehash.root < 8 }
    ensures { result ≡ entry_table geometry emptying }
{
    let seek = LastTable::new(geometry, emptying.rehash.root);
    WorkAt::EntryTable { emptying, seek }
}

/// After an operation of that search. Nothing is moved to a nested table.
#[inline(always)]
pub fn entry_table_seen(emptying: Emptying, seek: LastTable, old: u64) -> WorkAt
    ensures { result ≡ entry_table_seen emptying (last_table_after seek old).0 (last_table_after seek old).1 }
{
    let (seek, next) = seek.after(old);
    match next {
        Next::Go => WorkAt::EntryTable { emptying, seek },
        Next::Done(last) if is_nested(last.shape) => unlocking(emptying, true),
        Next::Done(last) => WorkAt::Seed { emptying, last },
    }
}

/// The unlocking of the bucket. With `stop` the move ends behind it.
#[inline(always)]
pub fn unlocking(emptying: Emptying, stop: bool) -> WorkAt
    ensures { result ≡ unlocking emptying stop }
{
    WorkAt::Unlocking {
        rehash: emptying.rehash,
        number: emptying.number,
        unlock: Unlock::new(emptying.bucket.place, emptying.bucket.word),
        stop,
    }
}

/// After the word of the locked bucket was loaded: its last entry is looked for, from its first one
/// on.
#[inline(always)]
pub fn first_entry(geometry: Geometry, emptying: Emptying, target: Target, word: u64) -> WorkAt
    ensures { result ≡ first_entry geometry emptying target word }
{
    let place = emptying.bucket.place;
    let bucket = Locked {
        place,
        word: unlocked(word),
    };
    let emptying = Emptying { bucket, ..emptying };
    let first = node_of(geometry.nodes, head_of(place, bucket.word));
    entry_or_empty(geometry, emptying, target, first)
}

/// A bucket without an entry is unlocked.
#[inline(always)]
pub fn entry_or_empty(
    geometry: Geometry,
    emptying: Emptying,
    target: Target,
    first: Option<u32>,
) -> WorkAt
    requires { IsNodeOrNone geometry first }
    ensures { result ≡ entry_or_empty geometry emptying target first }
{
    match first {
        Some(first) => WorkAt::Walking {
            emptying,
            target,
            walk: LastEntry::new(geometry, first),
        },
        None => unlocking(emptying, false),
    }
}

/// After an operation of the walk: once the last entry is known its key is loaded.
#[inline(always)]
pub fn walked(emptying: Emptying, target: Target, walk: LastEntry, old: u64) -> WorkAt
    ensures { result ≡ walked emptying target (last_entry_after walk old).0 (last_entry_after walk old).1 }
{
    let (walk, next) = walk.after(old);
    match next {
        Next::Go => WorkAt::Walking {
            emptying,
            target,
            walk,
        },
        Next::Done(entry) => WorkAt::Key {
            emptying,
            target,
            entry,
        },
    }
}

/// After the key of the entry was loaded: its bucket in the last table, which is flat, is locked too.
#[inline(always)]
pub fn keyed<M: Mix>(
    geometry: Geometry,
    emptying: Emptying,
    target: Target,
    entry: Entry,
    key: u64,
) -> WorkAt
    ensures { result ≡ keyed M.mix_of geometry emptying target entry key }
{
    let bucket = bucket_of::<M>(port_of(key), target.shape, target.seed);
    WorkAt::LockingSecond {
        emptying,
        entry,
        table: target.table,
        lock: Lock::new(flat_place(geometry, target.shape, bucket)),
    }
}

/// After an operation of the second lock: with both buckets locked the entry is linked anew.
#[inline(always)]
pub fn second_locked(emptying: Emptying, entry: Entry, table: u32, lock: Lock, old: u64) -> WorkAt
    ensures { result ≡ second_locked emptying entry table (lock_after lock old).0 (lock_after lock old).1 }
{
    let (lock, next) = lock.after(old);
    match next {
        Next::Go => WorkAt::LockingSecond {
            emptying,
            entry,
            table,
            lock,
        },
        Next::Done(word) => {
            let place = lock.place();
            let bucket = Locked { place, word };
            let second = Second { table, bucket };
            WorkAt::EntryLink {
                emptying,
                entry,
                second,
            }
        }
    }
}

/// After an entry was cut off: the bucket's next last entry is moved. Where none was before it, the
/// bucket is empty.
#[inline(always)]
pub fn cut_off(geometry: Geometry, emptying: Emptying, before: Option<u32>) -> WorkAt
    requires { emptying.rehash.root < 8 }
    ensures { result ≡ cut_off geometry emptying before }
{
    match before {
        Some(_) => entry_table(geometry, emptying),
        None => {
            let place = emptying.bucket.place;
            let bucket = Locked { place, word: 0 };
            let emptying = Emptying { bucket, ..emptying };
            entry_table(geometry, emptying)
        }
    }
}

/// Behind the unlocking the next bucket is emptied, or the move has stopped.
#[inline(always)]
pub fn unlocked_bucket(geometry: Geometry, rehash: Rehash, number: u32, stop: bool) -> WorkAt
    requires { number < size_of (unpacked rehash.shape) }
    ensures { result ≡ unlocked_bucket geometry rehash number stop }
{
    if stop {
        letting_go(Outcome::Moved { again: true })
    } else {
        next_bucket(geometry, rehash, number)
    }
}

/// The closing of the section, behind which the table before is retired. Where the new current table
/// has a future, there is more to do.
#[inline(always)]
pub fn retiring(rehash: Rehash, future: Option<u32>) -> WorkAt
    ensures { result ≡ retiring rehash future }
{
    let root = rehash.root;
    let ending = match future {
        Some(_) => Ending::Retiring { root, again: true },
        None => Ending::Retiring {
            root,
            again: rehash.again,
        },
    };
    WorkAt::Closing { ending }
}
