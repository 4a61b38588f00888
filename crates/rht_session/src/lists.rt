//! Lists that come with replies, written into room that the caller has.

ghost use Rattle.std.specs.Prelude.{◌≡◌, ◌+◌, List, [], ◌∷◌, ◌++◌, length, map, drop};
ghost use Rattle.rht_session.specs.declared.plain.CPair.{CPair as CPairOf};
ghost use Rattle.rht_session.specs.Plain.{c_pair};
ghost use Rattle.rht_session.specs.Lists.{shown, owned, all_owned, IsWritten};

use crate::plain::CPair;
use rht_model::Bindings;
use rht_words::Port;

/// Writes the owners from the place `skip` on, as many as there is room for, and says how many these are.
pub(crate) fn write_owners(owners: &[u32], skip: usize, into: &mut [u32]) -> usize
    ensures count { result ≡ length (shown owners.now skip (length into.old)) }
    ensures written { into.new ≡ shown owners.now skip (length into.old) ++ drop result into.old }
{
    let from = skip.min(owners.len());
    let count = (owners.len() - from).min(into.len());
    for place in 0..count {
        into[place] = owners[from + place];
    }
    count
}

/// Writes the pairs from the place `skip` on, as many as there is room for, and says how many these are.
pub(crate) fn write_pairs(pairs: &[(Port, u32)], skip: usize, into: &mut [CPair]) -> usize
    ensures count { result ≡ length (shown (map c_pair pairs.now) skip (length into.old)) }
    ensures written { into.new ≡ shown (map c_pair pairs.now) skip (length into.old) ++ drop result into.old }
{
    let from = skip.min(pairs.len());
    let count = (pairs.len() - from).min(into.len());
    for place in 0..count {
        into[place] = CPair::of(pairs[from + place]);
    }
    count
}

/// Writes all bindings, as many as there is room for, a pair for each owner of each port; and says how many these
/// are.
pub(crate) fn write_bindings(bindings: &Bindings, into: &mut [CPair]) -> usize
    ensures { IsWritten into.old (map c_pair (all_owned bindings.now.pairs)) result into.new }
{
    let mut place = 0;
    for number in 0..bindings.len() {
        place = write_port(bindings.port(number), bindings.owners(number), place, into);
    }
    place
}

/// Writes a pair for each owner of a port, from this place on, and says which place is next.
fn write_port(port: Port, owners: &[u32], place: usize, into: &mut [CPair]) -> usize
    ensures { (before list : List CPairOf) → IsWritten before list place into.old
        → IsWritten before (list ++ map c_pair (owned port owners.now)) result into.new }
{
    let mut next = place;
    for number in 0..owners.len() {
        next = write_at(CPair::of((port, owners[number])), next, into);
    }
    next
}

/// Writes a pair at this place, if there is room for it, and says which place is next.
fn write_at(pair: CPair, place: usize, into: &mut [CPair]) -> usize
    ensures { (before list : List CPairOf) → IsWritten before list place into.old
        → IsWritten before (list ++ pair ∷ []) result into.new }
{
    if place < into.len() {
        into[place] = pair;
        place + 1
    } else {
        place
    }
}
