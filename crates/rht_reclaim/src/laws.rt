//! What the other crates rely on. Each function is empty, and its clause is the law.

ghost use Rattle.rht_reclaim.specs.GiveTableLaws.{ReturnsTable, GivesEachOnce, ReturnsSoon, ReturnsWithin};
ghost use Rattle.rht_reclaim.specs.KeepLaws.{KeepsSections, KeepsSoon, KeepsWithin};
ghost use Rattle.rht_reclaim.specs.ReturnLaws.{ReturnsTables, TablesReturnSoon, TablesReturnWithin};

/// A giving back of a retired table that has ended loaded the shape first, and last stored that the slot is
/// free. Between, it set the bits of a flat table's run, word by word. Of a nested table it loaded each entry of
/// the top page that is in use, in order. Where one led to a page it stored 0 there and then gave that page
/// back; with two levels it did so before with each of the 64 entries of that page. Then it gave the top page
/// back. It did nothing else.
pub fn returns_table()
    ensures { ReturnsTable }
{}

/// A giving back of a retired table that has ended set the bit of each page of a flat table's run once, and of
/// no other page. Of a nested table it set the bit of each page as often as it found an entry that leads to
/// it, and that of the top page once more: so each page of a table was given once, where no two entries lead
/// to one page.
pub fn gives_each_once()
    ensures { GivesEachOnce }
{}

/// A giving back of a retired table ends within 12,483 operations, whatever words it finds. So many it
/// makes where 64 entries of the top page are in use, there are two levels of entries, and each is found
/// to lead to a page.
pub fn returns_table_soon()
    ensures { ReturnsSoon }
{}

/// Each operation of a giving back loads the slot's shape, loads an entry of a page or stores 0 there,
/// sets bits in a word of the page map, or stores 0 in the slot's state; and it is on one of the words.
pub fn returns_table_within()
    ensures { ReturnsWithin }
{}

/// A keeping of section words that has ended loaded the section word of each caller in order, and behind
/// each load stored that very word in the slot's word for that caller. It did nothing else.
pub fn keeps_sections()
    ensures { KeepsSections }
{}

/// A keeping of section words ends within two operations for each caller.
pub fn keeps_soon()
    ensures { KeepsSoon }
{}

/// Each operation of a keeping loads the section word of a caller that there is, or stores a word in the
/// slot's word for one, and is on one of the words: where the words that it finds are such of 64 bits.
pub fn keeps_within()
    ensures { KeepsWithin }
{}

/// A giving back of retired tables that has ended loaded the state of each slot in order. Where that said
/// that the slot's table is retired, it loaded the words that were kept there, from the first caller's on.
/// With an odd one it loaded that caller's section word too. Where it found that very word it did nothing
/// else with the slot. Where it found no such caller, it gave the table back as `returns_table` says.
pub fn returns_tables()
    ensures { ReturnsTables }
{}

/// It ends within one operation for each slot, two for each caller there, and those of the giving back of a
/// table, whatever words it finds. So it waits for nobody.
pub fn tables_return_soon()
    ensures { TablesReturnSoon }
{}

/// Each of its operations loads the state of a slot, a word that was kept there or a section word, or is one
/// of the giving back of the slot's table. And it is on one of the words.
pub fn tables_return_within()
    ensures { TablesReturnWithin }
{}
