//! The rows of the record: what is done, over how many ports, by how many threads, and how often.
//! `bench/floor.c` has the same numbers.

use rht_words::{Config, Hash, Kind};

/// What the threads of a row do.
#[derive(Clone, Copy)]
pub enum Workload {
    /// Each looks up its own ports, which are bound.
    Hits,
    /// As `Hits`, where the ports of each thread lie in buckets of their own, side by side.
    Apart,
    /// Each looks up all ports of the row, which are bound, as each other thread does.
    Common,
    /// Each looks up ports that aren't bound.
    Misses,
    /// Of twenty calls, each makes eighteen look-ups of bound ports, a bind and a release.
    Mixed,
    /// Each binds a port and releases it again.
    Churn,
    /// Each binds its own ports, in a table that has room for all of them.
    Binds,
    /// As `Binds`, in a table that begins small. Whoever is told so resizes it.
    Growth,
    /// Each walks the whole table, in which all ports of the row are bound. A walk counts as one call.
    Walks,
    /// As `Walks`, and behind each walk a port is bound and released for each twenty of the thread's own.
    Between,
    /// As `Hits`, in a table as that of `Resizing`, which nobody resizes.
    Resting,
    /// As `Hits`, beside one thread more. That one binds ports of its own and releases them, so that the
    /// table grows and shrinks for as long as the others look up.
    Resizing,
    /// As `Resting`, and the clock is read before each look-up and behind it.
    TimedResting,
    /// As `Resizing`, and the clock is read before each look-up and behind it.
    TimedResizing,
}

/// Which ports a thread looks up.
#[derive(Clone, Copy)]
pub enum Asked {
    /// Its own, which are bound.
    Own,
    /// The others of those, which aren't.
    Others,
}

/// All workloads, in the order of the record.
pub const WORKLOADS: [Workload; 14] = [
    Workload::Hits,
    Workload::Apart,
    Workload::Common,
    Workload::Misses,
    Workload::Mixed,
    Workload::Churn,
    Workload::Binds,
    Workload::Growth,
    Workload::Walks,
    Workload::Between,
    Workload::Resting,
    Workload::Resizing,
    Workload::TimedResting,
    Workload::TimedResizing,
];

/// A table that grows begins with room for one of so many ports. From there on its size is doubled
/// six times.
const GROWTH: u32 = 42;

impl Workload {
    /// Its name in the record.
    pub fn name(self) -> &'static str {
        match self {
            Workload::Hits => "hits",
            Workload::Apart => "apart",
            Workload::Common => "common",
            Workload::Misses => "misses",
            Workload::Mixed => "mixed",
            Workload::Churn => "churn",
            Workload::Binds => "binds",
            Workload::Growth => "growth",
            Workload::Walks => "walks",
            Workload::Between => "between",
            Workload::Resting => "resting",
            Workload::Resizing => "resizing",
            Workload::TimedResting => "timed_resting",
            Workload::TimedResizing => "timed_resizing",
        }
    }

    /// By how many threads its rows are done. Where one more may be at work there are three at most.
    pub fn threads(self) -> [u32; 3] {
        if self.may_shrink() {
            [1, 2, 3]
        } else {
            [1, 2, 4]
        }
    }

    /// Whether one thread more resizes the table meanwhile.
    pub fn is_resized(self) -> bool {
        matches!(self, Workload::Resizing | Workload::TimedResizing)
    }

    /// Whether the table may shrink, as one has to that is resized for as long as others look up.
    fn may_shrink(self) -> bool {
        matches!(
            self,
            Workload::Resting
                | Workload::Resizing
                | Workload::TimedResting
                | Workload::TimedResizing
        )
    }

    /// Whether the ports are bound before the clock is started.
    pub fn begins_bound(self) -> bool {
        !matches!(self, Workload::Binds | Workload::Growth)
    }

    /// Whether each thread has all ports of the row, and not a share of them.
    pub fn has_common_ports(self) -> bool {
        matches!(self, Workload::Common)
    }
}

/// How much is measured.
#[derive(Clone, Copy)]
pub struct Scale {
    /// The ports of the rows over few ports.
    pub few: u32,
    /// The ports of the rows over many, a multiple of those.
    pub many: u32,
    /// The nodes of each table.
    pub nodes: u32,
    /// The pages of each table.
    pub pages: u32,
    /// How many times as much is measured. With 0 each thread goes once through its ports, which is
    /// enough where instructions are counted.
    pub times: u32,
    /// The net of the ports.
    pub net: u16,
}

/// One row.
#[derive(Clone, Copy)]
pub struct Row {
    /// What is done.
    pub workload: Workload,
    /// Over how many ports, which the threads share out among them.
    pub ports: u32,
    /// The net of these ports.
    pub net: u16,
    /// By how many threads.
    pub threads: u32,
    /// How often each thread goes through its ports in one table.
    pub rounds: u32,
    /// How many tables are opened, one after another.
    pub tables: u32,
    /// With what.
    pub config: Config,
}

impl Scale {
    /// Some hundred calls a row, which take less than a millisecond.
    pub fn small() -> Scale {
        Scale {
            few: 40,
            many: 160,
            nodes: 4_096,
            pages: 64,
            times: 0,
            net: 0,
        }
    }

    /// Some hundred thousand calls a row, and so many times that, on ports of this net. With 8 a row of
    /// four threads takes half a second or so.
    pub fn large(times: u32, net: u16) -> Scale {
        Scale {
            few: 1_000,
            many: 16_000,
            nodes: 65_536,
            pages: 2_048,
            times,
            net,
        }
    }

    /// A row of this scale. No thread that is measured tidies, so a node that it took out doesn't come back.
    /// So what binds is done a few times in one table, and then in another one.
    pub fn row(self, workload: Workload, ports: u32, threads: u32) -> Row {
        let share = self.many / ports.max(1);
        let (rounds, tables) = match workload {
            Workload::Hits | Workload::Common | Workload::Misses => (
                self.often(share.saturating_mul(128)),
                1,
            ),
            Workload::Apart | Workload::Resting | Workload::Resizing => (
                self.often(share.saturating_mul(512)),
                1,
            ),
            Workload::TimedResting | Workload::TimedResizing => (
                self.often(share.saturating_mul(80)),
                1,
            ),
            Workload::Walks => (self.often(share.saturating_mul(64)), 1),
            Workload::Between => (share, self.often(32)),
            Workload::Mixed => (share.saturating_mul(4), self.often(16)),
            Workload::Churn => (share, self.often(8)),
            Workload::Binds => (1, self.often(share.saturating_mul(16))),
            Workload::Growth => (1, self.often(share.saturating_mul(4))),
        };
        Row {
            workload,
            ports,
            net: self.net,
            threads,
            rounds,
            tables,
            config: self.config(workload, ports, threads),
        }
    }

    /// So often, and so many times that, but at least once.
    fn often(self, count: u32) -> u32 {
        count.saturating_mul(self.times).max(1)
    }

    /// What the table of a row is opened with. Where many tables are opened, one for few ports is small.
    fn config(self, workload: Workload, ports: u32, threads: u32) -> Config {
        let share = match workload {
            Workload::Binds | Workload::Growth => (self.many / ports.max(1)).max(1),
            _ => 1,
        };
        Config {
            kind: Kind::Single,
            nodes: self.nodes / share,
            pages: if workload.may_shrink() {
                self.pages.saturating_mul(2)
            } else {
                self.pages / share
            },
            callers: threads.saturating_add(u32::from(workload.is_resized())),
            hint: match workload {
                Workload::Growth => (ports / GROWTH).max(1),
                _ => ports,
            },
            min: 4,
            max: 0,
            seed: 1,
            rewalks: 8,
            hash: match workload {
                Workload::Apart => Hash::Low,
                _ => Hash::Mix,
            },
            shrink: workload.may_shrink(),
        }
    }
}
