//! Numbers and flags as C lays them out.

ghost use Rattle.std.specs.Prelude.{◌≡◌};
ghost use Rattle.rht_session.specs.Plain.{port_said, c_pair, cursor_said, c_cursor, least_said, greatest_said, config_said, has_no_spare, c_config};

use rht_model::Cursor;
use rht_words::limits::{LEAST_SIZE, MAX, MIN};
use rht_words::{Config, Hash, Kind, Port, rounded_down, rounded_up};

/// A port.
#[repr(C)]
#[derive(Clone, Copy, Debug, PartialEq, Eq)]
pub struct CPort {
    pub number: u32,
    pub net: u16,
}

/// A port with its first owner.
#[repr(C)]
#[derive(Clone, Copy, Debug, PartialEq, Eq)]
pub struct CPair {
    pub port: CPort,
    pub owner: u32,
}

/// Where a walk goes on, or without `more` nowhere; a walk that is to begin at the first bucket has none.
#[repr(C)]
#[derive(Clone, Copy, Debug, PartialEq, Eq)]
pub struct CCursor {
    pub serial: u64,
    pub bucket: u32,
    pub more: bool,
}

/// Words for fields to come, which are 0 until then.
pub const NO_SPARE: [u32; 8] = [0, 0, 0, 0, 0, 0, 0, 0];

/// What a table is opened with. The fields are those of `Config`; `listed` and `low` say its kind and hash. With
/// spare words that aren't 0 none is opened.
#[repr(C)]
#[derive(Clone, Copy, Debug, PartialEq, Eq)]
pub struct CConfig {
    pub nodes: u32,
    pub pages: u32,
    pub callers: u32,
    pub hint: u32,
    pub min: u32,
    pub max: u32,
    pub seed: u32,
    pub rewalks: u32,
    pub listed: bool,
    pub low: bool,
    pub shrink: bool,
    pub spare: [u32; 8],
}

/// The numbers that come with a reply. A field that the reply hasn't is 0.
#[repr(C)]
#[derive(Clone, Copy, Debug, PartialEq, Eq)]
pub struct CReply {
    pub count: u64,
    pub section: u64,
    pub next: CCursor,
    pub owner: u32,
    pub len: u32,
    pub table: u32,
    pub last: u32,
    pub size: u32,
    pub returned: u32,
    pub caller: u32,
    pub kick: bool,
    pub again: bool,
    pub spare: [u32; 8],
}

/// What a table was at its end: how many of its bindings were written, how many ports were bound, and the size of
/// its current table in buckets.
#[repr(C)]
#[derive(Clone, Copy, Debug, PartialEq, Eq)]
pub struct CClosed {
    pub len: u64,
    pub keys: u32,
    pub size: u32,
    pub spare: [u32; 8],
}

impl CPort {
    /// The port that this says.
    #[inline(always)]
    pub fn port(self) -> Port
        ensures { result ≡ port_said self }
    {
        Port {
            net: self.net,
            number: self.number,
        }
    }
}

impl CPair {
    /// The pair as C has it.
    pub fn of(pair: (Port, u32)) -> CPair
        ensures { result ≡ c_pair pair }
    {
        CPair {
            port: CPort {
                number: pair.0.number,
                net: pair.0.net,
            },
            owner: pair.1,
        }
    }
}

impl CCursor {
    /// The cursor that this says.
    pub fn cursor(self) -> Option<Cursor>
        ensures { result ≡ cursor_said self }
    {
        if self.more {
            Some(Cursor {
                serial: self.serial,
                bucket: self.bucket,
            })
        } else {
            None
        }
    }

    /// The cursor as C has it.
    pub fn of(cursor: Option<Cursor>) -> CCursor
        ensures { result ≡ c_cursor cursor }
    {
        match cursor {
            Some(cursor) => CCursor {
                serial: cursor.serial,
                bucket: cursor.bucket,
                more: true,
            },
            None => CCursor {
                serial: 0,
                bucket: 0,
                more: false,
            },
        }
    }
}

impl CConfig {
    /// The config that this says. A least size up to 65,536 is rounded up to a power of two, 4 at least, and a
    /// greatest one up to 131,072 is rounded down. What is above stays as it is, and opens no table.
    pub fn config(self) -> Config
        ensures { result ≡ config_said self }
    {
        let kind = if self.listed {
            Kind::Listed
        } else {
            Kind::Single
        };
        let hash = if self.low { Hash::Low } else { Hash::Mix };
        Config {
            kind,
            nodes: self.nodes,
            pages: self.pages,
            callers: self.callers,
            hint: self.hint,
            min: least(self.min),
            max: greatest(self.max),
            seed: self.seed,
            rewalks: self.rewalks,
            hash,
            shrink: self.shrink,
        }
    }

    /// Whether its spare words are all 0.
    pub fn has_no_spare(&self) -> bool
        ensures { result ≡ has_no_spare self.now }
    {
        self.spare.iter().all(|word| *word == 0)
    }

    /// The config as C has it.
    pub fn of(config: Config) -> CConfig
        ensures { result ≡ c_config config }
    {
        CConfig {
            nodes: config.nodes,
            pages: config.pages,
            callers: config.callers,
            hint: config.hint,
            min: config.min,
            max: config.max,
            seed: config.seed,
            rewalks: config.rewalks,
            listed: config.kind == Kind::Listed,
            low: config.hash == Hash::Low,
            shrink: config.shrink,
            spare: NO_SPARE,
        }
    }
}

/// The least size of a table, rounded.
fn least(min: u32) -> u32
    ensures { result ≡ least_said min }
{
    if min <= MIN.greatest {
        rounded_up(min).max(LEAST_SIZE)
    } else {
        min
    }
}

/// The greatest size of a table, rounded.
fn greatest(max: u32) -> u32
    ensures { result ≡ greatest_said max }
{
    if max <= MAX.greatest {
        rounded_down(max)
    } else {
        max
    }
}
