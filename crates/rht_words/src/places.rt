//! The places of the words that no geometry moves: the single words, the section words and the
//! slots. The places of the maps, the nodes and the pages are methods of `Geometry`.

ghost use Rattle.std.specs.Prelude.{◌≡◌, ◌<◌};
ghost use Rattle.rht_words.specs.Places.{CurrentTable, WorkLock, PortCount, NextSerial, EnrolledCallers, Section, Slot, ShapeWord, SeedWord, FutureWord, SerialWord, StateWord, LoadedSection, section_place, slot_place, place_of, words_in};
ghost use Rattle.rht_words.specs.declared.geometry.Geometry.{Geometry};

/// The slot number of the current table.
#[inline(always)]
pub fn current_table() -> usize
    ensures place { result ≡ 0 }
    ensures named { (g : Geometry) → result ≡ place_of g CurrentTable }
    ensures within { (g : Geometry) → result < words_in g }
{
    0
}

/// 0 where nobody works on the tables, 1 where somebody does.
#[inline(always)]
pub fn work_lock() -> usize
    ensures place { result ≡ 1 }
    ensures named { (g : Geometry) → result ≡ place_of g WorkLock }
    ensures within { (g : Geometry) → result < words_in g }
{
    1
}

/// How many ports are bound, and how many callers have raised the count for a node that they link
/// next.
#[inline(always)]
pub fn port_count() -> usize
    ensures place { result ≡ 2 }
    ensures named { (g : Geometry) → result ≡ place_of g PortCount }
    ensures within { (g : Geometry) → result < words_in g }
{
    2
}

/// The serial of the table that is made next.
#[inline(always)]
pub fn next_serial() -> usize
    ensures place { result ≡ 3 }
    ensures named { (g : Geometry) → result ≡ place_of g NextSerial }
    ensures within { (g : Geometry) → result < words_in g }
{
    3
}

/// How many callers have enrolled.
#[inline(always)]
pub fn enrolled_callers() -> usize
    ensures place { result ≡ 4 }
    ensures named { (g : Geometry) → result ≡ place_of g EnrolledCallers }
    ensures within { (g : Geometry) → result < words_in g }
{
    4
}

/// The section word of a caller, of which there are 16: odd inside a read section.
#[inline(always)]
pub fn section(caller: u32) -> usize
    ensures place { result ≡ section_place caller }
    ensures named { (g : Geometry) → result ≡ place_of g (Section caller) }
    ensures within { (g : Geometry) → caller < 16 → result < words_in g }
{
    8 + caller as usize
}

/// The place at which a slot's words begin.
#[inline(always)]
fn slot_start(slot: u32) -> usize
    ensures { result ≡ slot_place slot ShapeWord }
{
    24 + 32 * slot as usize
}

/// The packed shape of the slot's table.
#[inline(always)]
pub fn shape(slot: u32) -> usize
    ensures place { result ≡ slot_place slot ShapeWord }
    ensures named { (g : Geometry) → result ≡ place_of g (Slot slot ShapeWord) }
    ensures within { (g : Geometry) → slot < 8 → result < words_in g }
{
    slot_start(slot)
}

/// The seed of the hash of the slot's table.
#[inline(always)]
pub fn seed(slot: u32) -> usize
    ensures place { result ≡ slot_place slot SeedWord }
    ensures named { (g : Geometry) → result ≡ place_of g (Slot slot SeedWord) }
    ensures within { (g : Geometry) → slot < 8 → result < words_in g }
{
    slot_start(slot) + 1
}

/// The link to the future table, to which the slot's table is moved.
#[inline(always)]
pub fn future(slot: u32) -> usize
    ensures place { result ≡ slot_place slot FutureWord }
    ensures named { (g : Geometry) → result ≡ place_of g (Slot slot FutureWord) }
    ensures within { (g : Geometry) → slot < 8 → result < words_in g }
{
    slot_start(slot) + 2
}

/// The serial of the slot's table.
#[inline(always)]
pub fn serial(slot: u32) -> usize
    ensures place { result ≡ slot_place slot SerialWord }
    ensures named { (g : Geometry) → result ≡ place_of g (Slot slot SerialWord) }
    ensures within { (g : Geometry) → slot < 8 → result < words_in g }
{
    slot_start(slot) + 3
}

/// Whether the slot is free, taken or retired.
#[inline(always)]
pub fn state(slot: u32) -> usize
    ensures place { result ≡ slot_place slot StateWord }
    ensures named { (g : Geometry) → result ≡ place_of g (Slot slot StateWord) }
    ensures within { (g : Geometry) → slot < 8 → result < words_in g }
{
    slot_start(slot) + 4
}

/// The section word of a caller as it was when the slot's table was retired.
#[inline(always)]
pub fn loaded_section(slot: u32, caller: u32) -> usize
    ensures place { result ≡ slot_place slot (LoadedSection caller) }
    ensures named { (g : Geometry) → result ≡ place_of g (Slot slot (LoadedSection caller)) }
    ensures within { (g : Geometry) → slot < 8 → caller < 16 → result < words_in g }
{
    slot_start(slot) + 8 + caller as usize
}
