//! The line that sums up the run of a script that was made from a number.

ghost use Rattle.std.specs.Prelude.{◌≡◌, ◌≤◌, ◌++◌, length, flat_map};
ghost use Rattle.rht_io.specs.Told.{Puts};
ghost use Rattle.rht_script.specs.SummaryText.{sort_name, is_of, count_of, how_many, sort_text, sum_of_ports, bound_sums, summary_line, AreCountable};
ghost use Rattle.rht_script.specs.Writing.{Adds};

use super::pieces::Writer;
use rht_io::{Failed, Sink};
use rht_model::{Bindings, Closed, Replies, Reply};

/// The sorts of replies that the line counts.
#[derive(Clone, Copy, Debug, PartialEq, Eq)]
pub(crate) enum Sort {
    /// Whatever a command was answered.
    Any,
    Bound,
    Exists,
    Found,
    Missing,
    Released,
}

impl Sort {
    /// The name that the line has for the replies of this sort.
    fn name(self) -> &'static [u8]
        ensures text { result.now ≡ sort_name self }
        ensures short { length result.now ≤ 40 }
    {
        match self {
            Sort::Any => b" commands",
            Sort::Bound => b" bound",
            Sort::Exists => b" exists",
            Sort::Found => b" found",
            Sort::Missing => b" missing",
            Sort::Released => b" released",
        }
    }

    /// Whether the reply is of this sort.
    fn has(self, reply: Reply) -> bool
        ensures { result ≡ is_of self reply }
    {
        match self {
            Sort::Any => true,
            Sort::Bound => matches!(reply, Reply::Bound { .. }),
            Sort::Exists => matches!(reply, Reply::Exists { .. }),
            Sort::Found => matches!(reply, Reply::Found { .. }),
            Sort::Missing => matches!(reply, Reply::Missing),
            Sort::Released => matches!(reply, Reply::Released { .. }),
        }
    }
}

/// Writes the line that sums up the run of the script of this number: how many replies its workers
/// had, how many of them are of each sort, how many ports are bound at the end, and the sum of
/// their numbers, whatever their nets.
pub fn write_summary<O: Sink>(
    out: &mut O,
    number: u32,
    workers: &[Replies],
    closed: &Closed,
) -> Result<(), Failed>
    requires few { AreCountable workers.now }
    requires keys { closed.now.keys ≡ length closed.now.bindings.pairs }
    ensures { Puts O.held O.faults out.old out.new result
        (summary_line number workers.now closed.now.bindings.pairs) }
{
    let mut text = Writer::new(out);
    text.add_named(b"gen", number.into())?;
    text.add(b":")?;
    add_counts(
        &mut text,
        &[
            Sort::Any,
            Sort::Bound,
            Sort::Exists,
            Sort::Found,
            Sort::Missing,
            Sort::Released,
        ],
        workers,
    )?;
    add_bound_sums(&mut text, closed.keys, &closed.bindings)?;
    text.put()
}

/// Adds the count of each of these sorts.
fn add_counts<O: Sink>(
    text: &mut Writer<'_, O>,
    sorts: &[Sort],
    workers: &[Replies],
) -> Result<(), Failed>
    requires { AreCountable workers.now }
    ensures text { Adds O.held O.faults text.old.out.now text.new.out.now result
        text.old.waiting text.new.waiting (flat_map (sort_text workers.now) sorts.now) }
    ensures same_sink { text.new.out.ghost_name ≡ text.old.out.ghost_name }
{
    for sort in sorts {
        text.add_named(sort.name(), how_many(*sort, workers))?;
    }
    Ok(())
}

/// How many replies of all workers are of the sort.
fn how_many(sort: Sort, workers: &[Replies]) -> u64
    requires { AreCountable workers.now }
    ensures { result ≡ how_many sort workers.now }
{
    let mut count = 0;
    for i in 0..workers.len() {
        count += count_of(sort, &workers[i]);
    }
    count
}

/// How many replies of a worker are of the sort.
fn count_of(sort: Sort, replies: &Replies) -> u64
    ensures count { result ≡ count_of sort replies.now }
    ensures few { result ≤ length replies.now }
{
    let mut count = 0;
    for i in 0..replies.len() {
        if sort.has(replies.reply(i)) {
            count += 1;
        }
    }
    count
}

/// Adds how many ports are bound, and the sum of their numbers.
fn add_bound_sums<O: Sink>(
    text: &mut Writer<'_, O>,
    keys: u32,
    bindings: &Bindings,
) -> Result<(), Failed>
    requires { keys ≡ length bindings.now.pairs }
    ensures text { Adds O.held O.faults text.old.out.now text.new.out.now result
        text.old.waiting text.new.waiting (bound_sums bindings.now.pairs) }
    ensures same_sink { text.new.out.ghost_name ≡ text.old.out.ghost_name }
{
    text.add_named(b" keys", keys.into())?;
    text.add_named(b" sum", sum_of_ports(bindings))?;
    text.end_line()
}

/// The sum of the numbers of the ports that are bound.
fn sum_of_ports(bindings: &Bindings) -> u64
    requires { length bindings.now.pairs ≤ 4294967295 }
    ensures { result ≡ sum_of_ports bindings.now.pairs }
{
    let mut sum = 0;
    for i in 0..bindings.len() {
        sum += u64::from(bindings.port(i).number);
    }
    sum
}
