//! Passes, by which callers step through a table.

ghost use Rattle.std.specs.Prelude.{◌≡◌, ◌++◌, length, true, None};
ghost use Rattle.std.specs.List.{last_or};
ghost use Rattle.rht_core.specs.Locals.{is_idle};
ghost use Rattle.rht_core.specs.Replies.{owners_with, pairs_with};
ghost use Rattle.rht_run.specs.declared.table.Table.{Table as TableOf};
ghost use Rattle.rht_run.specs.Passes.{IsPassOf, book_of};
ghost use Rattle.rht_run.specs.Untidied.{untidied};

use crate::seats::SeatView;
use atomic_table::Seat;
use rht_core::Local;
use rht_grace::Batch;
use rht_policy::Mix;
use rht_words::Port;

/// One caller's token: whoever has it makes the caller's calls. It can't be copied.
#[derive(Drop)]
pub struct Pass<M: Mix> {
    pub(crate) seat: Seat<(), SeatView<M>>,
    pub(crate) number: u32,
    pub(crate) local: Local<M>,
}

impl<M: Mix> Pass<M> {
    /// Whether the pass is in no call.
    pub fn is_idle(&self) -> bool
        ensures { result ≡ is_idle self.now.local }
    {
        self.local.is_idle()
    }

    /// The owners that came with the pass's last finished call, where that answered `Listed`, in the
    /// order of the port's list; otherwise none.
    pub fn owners(&self) -> &[u32]
        ensures owners { result.now ≡ self.now.local.owners.items }
        ensures last { (t : TableOf M) → IsPassOf M.mix_of t self.now → is_idle self.now.local ≡ true
            → result.now ≡ owners_with (last_or None (book_of self.now).finished) }
    {
        self.local.owners()
    }

    /// The pairs that came with the pass's last finished call, where that answered `Walked`, in the
    /// order in which they were seen: a port and its first owner each; otherwise none.
    pub fn pairs(&self) -> &[(Port, u32)]
        ensures pairs { result.now ≡ self.now.local.pairs.items }
        ensures last { (t : TableOf M) → IsPassOf M.mix_of t self.now → is_idle self.now.local ≡ true
            → result.now ≡ pairs_with (last_or None (book_of self.now).finished) }
    {
        self.local.pairs()
    }

    /// How many nodes the pass's calls took out that aren't given back: those that wait, and those that don't yet.
    /// It is 0 while the pass tidies, since the tidying has them then.
    pub fn untidied(&self) -> u32
        ensures { result ≡ untidied self.now }
    {
        match &self.local.batch {
            Some(batch) => node_count(batch),
            None => 0,
        }
    }
}

/// How many nodes the batch has, which are no more than the table's.
fn node_count(batch: &Batch) -> u32
    ensures { result ≡ length (batch.now.fresh ++ batch.now.waiting) }
{
    let _geometry = batch.geometry();
    (batch.fresh().len() + batch.waiting().len()) as u32
}
