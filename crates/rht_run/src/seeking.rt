//! The way to a port that is taken out or replaced, in whatever machine goes it.

ghost use Rattle.std.specs.Prelude.{◌≡◌, ◌<◌};
ghost use Rattle.rht_release.specs.Seek.{seek_after_at, locating};
ghost use Rattle.rht_run.specs.Rides.{IsRiding, Stepped, piece_next};
ghost use Rattle.rht_run.specs.Seeks.{port_seek, seek_told, nested_seek, sought_then};

use crate::locating::{Way, nested_locate};
use crate::pieces::Frame;
use crate::ride::Ride;
use crate::seats::SeatView;
use crate::seeks::{PortSeek, SeekLocating, SeekProbing};
use crate::starts::Starts;
use crate::table::Table;
use atomic_table::Seat;
use rht_policy::Mix;
use rht_release::seek::{leaving, locating};
use rht_release::{FoundPort, Seek, SeekAt};
use rht_words::{Geometry, Port, slot_of, word_of};

/// Where the way to a port has come to.
#[derive(Clone, Copy)]
pub enum Sought {
    /// To the port. Its bucket stays locked.
    Found { found: FoundPort },
    /// To the end: no table binds the port, and no bucket is locked.
    Nowhere,
    /// To the nested table of this slot and this shape, in which it goes to the bucket of this number.
    Nested { table: u32, shape: u64, bucket: u32 },
    /// It was left here: a bucket's lock wasn't had in the rounds that were given.
    Left { at: SeekAt },
}

impl<M: Mix> Table<M> {
    /// Goes from the table of this slot through the futures to the bucket in which the port is found, or
    /// to the first table that is nested. It stops where it didn't get the lock of a bucket in `rounds` rounds,
    /// and after 2^64 - 1 tables, which no run goes through.
    #[inline(always)]
    pub(crate) fn seek<K: Ride, F: Frame<M, PortSeek, (Port, Option<FoundPort>)> + Copy>(
        &self,
        seat: &mut Seat<(), SeatView<M>>,
        frame: &F,
        starts: Starts,
        port: Port,
        table: u32,
        rounds: u64,
    ) -> Sought
        requires { IsRiding M.mix_of self.now K.riding (F.holding frame.now (port_seek starts.geometry port (locating starts.geometry table))) seat.old }
        ensures { Stepped M.mix_of self.now K.riding (sought_then (λ p. F.holding frame.now p) (λ a. F.behind frame.now a) starts.geometry port result) seat.new }
    {
        let geometry = starts.geometry;
        let mut table = table;
        for _ in 0..u64::MAX {
            let locating = SeekLocating {
                frame: *frame,
                geometry,
            };
            let way = self.find_way::<K, SeekLocating<F>>(seat, &locating, starts, port, table);
            let (shape, place) = match way {
                Way::Flat { shape, place } => (shape, place),
                Way::Nested { shape, bucket } => {
                    return Sought::Nested {
                        table,
                        shape,
                        bucket,
                    };
                }
            };
            let probing = SeekProbing {
                frame: *frame,
                geometry,
                port,
                table,
                shape,
            };
            let key = word_of(port);
            let end = match self.probe::<K, SeekProbing<F>>(
                seat, &probing, starts, place, key, rounds,
            ) {
                Ok(end) => end,
                Err(probe) => {
                    let at = SeekAt::Probing {
                        table,
                        shape,
                        probe,
                    };
                    return Sought::Left { at };
                }
            };
            let bucket = end.bucket;
            if let Some(node) = end.seen.found {
                let before = end.seen.before;
                let found = FoundPort {
                    table,
                    shape,
                    bucket,
                    node,
                    before,
                };
                return Sought::Found { found };
            }
            let at = SeekAt::Future { table, bucket };
            let future = slot_of(self.seeking::<K, F>(seat, frame, geometry, port, at));
            let at = leaving(table, bucket, future);
            self.seeking::<K, F>(seat, frame, geometry, port, at);
            let Some(next) = future else {
                return Sought::Nowhere;
            };
            table = next;
        }
        let at = locating(geometry, table);
        Sought::Left { at }
    }

    /// The operation of the way in this state.
    #[inline(always)]
    pub(crate) fn seeking<K: Ride, F: Frame<M, PortSeek, (Port, Option<FoundPort>)>>(
        &self,
        seat: &mut Seat<(), SeatView<M>>,
        frame: &F,
        geometry: Geometry,
        port: Port,
        at: SeekAt,
    ) -> u64
        requires { IsRiding M.mix_of self.now K.riding (F.holding frame.now (port_seek geometry port at)) seat.old }
        ensures { Stepped M.mix_of self.now K.riding (piece_next (λ p. F.holding frame.now p) (λ a. F.behind frame.now a) (seek_told geometry port (seek_after_at M.mix_of geometry port at result))) seat.new }
    {
        let seek = Seek::new(geometry).with(at);
        let piece = PortSeek { port, seek };
        self.operate::<K, (Port, Option<FoundPort>), PortSeek, F>(seat, frame, &piece)
    }
}

/// The way to a port, once the shape and the seed of a nested table were loaded.
#[inline(always)]
pub(crate) fn nested_seek(geometry: Geometry, table: u32, shape: u64, bucket: u32) -> Seek
    requires { table < 8 }
    ensures { result ≡ nested_seek geometry table shape bucket }
{
    let locate = nested_locate(geometry, table, shape, bucket);
    Seek::new(geometry).with(SeekAt::Locating { locate })
}
