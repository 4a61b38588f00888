//! How a table is closed: one seat takes in what all others have, and sees the last words.

ghost use Rattle.std.specs.Prelude.{◌≡◌, ℕ, ◌+◌, ◌<◌, ◌++◌, [], ◌∷◌, List, length, vec_len, IfOk, IfErr};
ghost use Rattle.std.specs.Slots.{slots_items, slots_len, IsFull};
ghost use Rattle.rht_words.specs.Places.{words_in};
ghost use Rattle.rht_run.specs.declared.pass.Pass.{Pass as PassOf};
ghost use Rattle.rht_run.specs.declared.seats.Held.{Held as HeldOf};
ghost use Rattle.rht_run.specs.Layout.{gaps, IsLaidOut};
ghost use Rattle.rht_run.specs.Rule.{In};
ghost use Rattle.rht_run.specs.Passes.{IsPassOf, Among, HasTaken, IsClosedWith, IsLaidEnd};
ghost use Rattle.rht_run.specs.ClosingSpaces.{IsSpaceFor};

use crate::layout::physical;
use crate::pass::Pass;
use crate::plays::Hands;
use crate::seats::SeatView;
use crate::table::Table;
use atomic_table::Seat;
use rht_core::ClosingRoom;
use rht_model::{Closed, Room};
use rht_policy::Mix;
use std::alloc::{AllocError, Global};

/// A table that wasn't closed, for want of memory, with the passes that came with it.
#[derive(Drop)]
pub struct NotClosed<M: Mix> {
    /// The table, as it was.
    pub table: Table<M>,
    /// The passes, as they were.
    pub passes: Vec<Pass<M>>,
}

/// The memory that a closing needs, taken beforehand: 8 bytes for each word of the table, and room for what the
/// words say.
#[derive(Drop)]
pub struct ClosingSpace {
    pub(crate) words: Room<u64>,
    pub(crate) room: ClosingRoom,
}

impl<M: Mix> Table<M> {
    /// What is bound, in rising order of ports, the size of the current table, and how many ports are
    /// bound, as the last words say it. These are the words at the end of one run with the table's
    /// config, in which the number of each of the passes has what the pass has. The one refusal is
    /// want of memory: all is handed back as it was. All memory is taken before the first pass is
    /// joined, and nothing is refused behind that. It is no function of the kernel, where a table
    /// goes with all that is in it.
    pub fn close(
        alloc: Global,
        table: Table<M>,
        passes: Vec<Pass<M>>,
    ) -> Result<Closed, NotClosed<M>>
        requires some { 0 < vec_len passes }
        requires passes { (p : PassOf M) → Among p passes.items → IsPassOf M.mix_of table p }
        ensures closed { IfOk result (IsClosedWith M.mix_of table.env passes.items) }
        ensures table { IfErr result (λ all. all.table ≡ table) }
        ensures passes { IfErr result (λ all. all.passes.items ≡ passes.items) }
    {
        let Ok(space) = table.closing_space(alloc) else {
            return Err(NotClosed { table, passes });
        };
        Ok(table.close_in(passes, space))
    }

    /// Takes the memory that `close_in` needs for this table. The one refusal is want of memory.
    pub fn closing_space(&self, alloc: Global) -> Result<ClosingSpace, AllocError>
        ensures { IfOk result (IsSpaceFor self.now.env.geometry) }
    {
        let geometry = self.env.geometry;
        let words = Room::with_limit(alloc, geometry.words() as u32)?;
        let room = ClosingRoom::new(alloc, geometry)?;
        Ok(ClosingSpace { words, room })
    }

    /// Closes the table, as `close`, in space that was taken for it before. Nothing is refused.
    pub fn close_in(self, passes: Vec<Pass<M>>, space: ClosingSpace) -> Closed
        requires some { 0 < vec_len passes }
        requires passes { (p : PassOf M) → Among p passes.items → IsPassOf M.mix_of self p }
        requires space { IsSpaceFor self.env.geometry space }
        ensures { IsClosedWith M.mix_of self.env passes.items result }
    {
        let geometry = self.env.geometry;
        let ClosingSpace { mut words, room } = space;
        let laid = self.end(passes);
        read_words(&mut words, &laid, geometry.words() as u32);
        laid.free();
        room.closed(geometry, words.as_slice())
    }

    /// Joins all passes, and closes the words.
    fn end(self, passes: Vec<Pass<M>>) -> atomic_table::Closed<(), Global>
        requires some { 0 < vec_len passes }
        requires passes { (p : PassOf M) → Among p passes.items → IsPassOf M.mix_of self p }
        ensures words { (slots_len result.words ≡ words_in self.env.geometry + gaps) × IsFull result.words }
        ensures slots { slots_len result.slots ≡ 0 }
        ensures end { IsLaidEnd M.mix_of self.env passes.items (slots_items result.words) }
    {
        let mut passes = passes;
        let first = passes.remove(0);
        let Pass {
            mut seat,
            number: _,
            local: _,
        } = first;
        self.absorb_all(&mut seat, passes);
        let Table {
            words,
            env: _,
            nodes_start: _,
            pages_start: _,
            last_word: _,
        } = self;
        words.close_with(seat)
    }

    /// The seat takes in what all passes have.
    fn absorb_all(&self, seat: &mut Seat<(), SeatView<M>>, mut passes: Vec<Pass<M>>)
        requires seat { (seat.old.table_id ≡ self.now.words.shared.table_id) × (seat.old.me.1 ≡ []) × (seat.old.me.0.env ≡ self.now.env) }
        requires passes { (p : PassOf M) → Among p passes.items → IsPassOf M.mix_of self.now p }
        ensures seat { (seat.new.table_id ≡ seat.old.table_id) × (seat.new.me.1 ≡ []) × (seat.new.me.0.env ≡ self.now.env) }
        ensures old { (h : HeldOf M) → In h seat.old.me.0.held → In h seat.new.me.0.held }
        ensures taken { HasTaken passes.items seat.new }
    {
        while let Some(pass) = passes.pop() {
            self.absorb(seat, pass);
        }
    }

    /// The seat takes in what the pass has.
    fn absorb(&self, seat: &mut Seat<(), SeatView<M>>, pass: Pass<M>)
        requires seat { (seat.old.table_id ≡ self.now.words.shared.table_id) × (seat.old.me.1 ≡ []) × (seat.old.me.0.env ≡ self.now.env) }
        requires pass { IsPassOf M.mix_of self.now pass }
        ensures seat { (seat.new.table_id ≡ seat.old.table_id) × (seat.new.me.1 ≡ []) × (seat.new.me.0.env ≡ self.now.env) }
        ensures held { seat.new.me.0.held ≡ seat.old.me.0.held ++ pass.seat.me.0.held }
    {
        let Pass {
            seat: other,
            number: _,
            local: _,
        } = pass;
        self.words.shared.join_seat::<Hands<M>>(seat, other);
    }
}

/// Reads all words that lie in a closed table, in the order of their places.
fn read_words(into: &mut Room<u64>, closed: &atomic_table::Closed<(), Global>, count: u32)
    requires closed { (slots_len closed.now.words ≡ count + gaps) × IsFull closed.now.words }
    requires room { (into.old.items ≡ []) × (into.old.limit ≡ count) }
    ensures { (words : List ℕ) → IsLaidOut (slots_items closed.now.words) words → length words ≡ count → into.new.items ≡ words }
{
    for place in 0..count {
        into.push(closed.word(physical(place as usize)));
    }
}
