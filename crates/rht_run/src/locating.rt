//! Finding the bucket of a port, in whatever machine does so.

ghost use Rattle.std.specs.Prelude.{◌≡◌, ◌<◌};
ghost use Rattle.rht_nest.specs.Locate.{locate_new};
ghost use Rattle.rht_run.specs.Rides.{IsRiding, Stepped, piece_next};
ghost use Rattle.rht_run.specs.Pieces.{port_locate, port_locate_after, nested_locate, way_then};

use crate::pieces::{Frame, PortLocate, PortLocated};
use crate::ride::Ride;
use crate::seats::SeatView;
use crate::starts::Starts;
use crate::table::Table;
use atomic_table::Seat;
use rht_nest::{Locate, LocateAt, Place, is_nested};
use rht_policy::{Mix, bucket_of};
use rht_words::{Geometry, Port};

/// Where the way to a port's bucket goes, once the table's shape and seed are known.
#[derive(Clone, Copy)]
pub enum Way {
    /// To the bucket's word at this place, in a flat table of this shape.
    Flat { shape: u64, place: usize },
    /// Over the entries of a nested table of this shape, to the bucket of this number.
    Nested { shape: u64, bucket: u32 },
}

impl<M: Mix> Table<M> {
    /// Loads the shape and the seed of the table of this slot, and works out the port's bucket.
    #[inline(always)]
    pub(crate) fn find_way<K: Ride, F: Frame<M, PortLocate, PortLocated>>(
        &self,
        seat: &mut Seat<(), SeatView<M>>,
        frame: &F,
        starts: Starts,
        port: Port,
        table: u32,
    ) -> Way
        requires { IsRiding M.mix_of self.now K.riding (F.holding frame.now (port_locate port (locate_new starts.geometry table))) seat.old }
        ensures { Stepped M.mix_of self.now K.riding (way_then (λ p. F.holding frame.now p) (λ there. F.behind frame.now there) starts.geometry port table result) seat.new }
    {
        let locate = Locate::new(starts.geometry, table);
        let shape = self.locating::<K, F>(seat, frame, port, locate);
        let locate = locate.with(LocateAt::Seed { shape });
        let seed = self.locating::<K, F>(seat, frame, port, locate);
        let bucket = bucket_of::<M>(port, shape, seed);
        if is_nested(shape) {
            return Way::Nested { shape, bucket };
        }
        let place = starts.bucket(shape, bucket);
        Way::Flat { shape, place }
    }

    /// The operation of the finding in this state.
    #[inline(always)]
    fn locating<K: Ride, F: Frame<M, PortLocate, PortLocated>>(
        &self,
        seat: &mut Seat<(), SeatView<M>>,
        frame: &F,
        port: Port,
        locate: Locate,
    ) -> u64
        requires { IsRiding M.mix_of self.now K.riding (F.holding frame.now (port_locate port locate)) seat.old }
        ensures { Stepped M.mix_of self.now K.riding (piece_next (λ p. F.holding frame.now p) (λ a. F.behind frame.now a) (port_locate_after M.mix_of (port_locate port locate) result)) seat.new }
    {
        self.operate::<K, PortLocated, PortLocate, F>(seat, frame, &PortLocate { port, locate })
    }
}

/// The finding of a port's bucket, once the shape and the seed of a nested table were loaded.
#[inline(always)]
pub(crate) fn nested_locate(geometry: Geometry, table: u32, shape: u64, bucket: u32) -> Locate
    requires { table < 8 }
    ensures { result ≡ nested_locate geometry table shape bucket }
{
    let place = Place::nested(geometry, shape, bucket);
    Locate::new(geometry, table).with(LocateAt::Early { shape, place })
}
