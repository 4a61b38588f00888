//! The lists that came with a handle's last call.

ghost use Rattle.std.specs.Prelude.{◌≡◌, ℕ, map};
ghost use Rattle.rht_session.specs.Plain.{c_pair};
ghost use Rattle.rht_session.specs.Sessions.{owners_of, pairs_of};
ghost use Rattle.rht_session.specs.Handles.{IsFitHandle};
ghost use Rattle.rht_c.specs.Exports.{HasShown};

use rht_session::{CPair, Handle};

/// Writes owners, as `Handle::owners`, and says how many; none where that refuses.
#[unsafe(no_mangle)]
pub extern "C" fn rht_owners(handle: &mut Handle, skip: usize, into: &mut [u32]) -> usize
    requires { IsFitHandle handle.old }
    ensures fit { IsFitHandle handle.new }
    ensures shown { HasShown owners_of skip handle.old into.old result into.new handle.new }
{
    handle.owners(skip, into).unwrap_or(0)
}

/// Writes pairs, as `Handle::pairs`, and says how many; none where that refuses.
#[unsafe(no_mangle)]
pub extern "C" fn rht_pairs(handle: &mut Handle, skip: usize, into: &mut [CPair]) -> usize
    requires { IsFitHandle handle.old }
    ensures fit { IsFitHandle handle.new }
    ensures shown { HasShown (λ s. map c_pair (pairs_of s)) skip handle.old into.old result into.new handle.new }
{
    handle.pairs(skip, into).unwrap_or(0)
}
