//! The words of scripts that have a meaning.

/// The first word of the table line.
pub const TABLE: &[u8] = b"table";

/// The kind of a table in which a port has at most one owner.
pub const SINGLE: &[u8] = b"single";

/// The kind of a table in which a port has a list of owners.
pub const LISTED: &[u8] = b"listed";

/// The objects that can be bound at one time.
pub const NODES: &[u8] = b"nodes";

/// How many ports are expected.
pub const HINT: &[u8] = b"hint";

/// The least size in buckets.
pub const MIN: &[u8] = b"min";

/// The greatest size in buckets.
pub const MAX: &[u8] = b"max";

/// The pages that buckets are kept in.
pub const PAGES: &[u8] = b"pages";

/// The workers of the script, each of which is a caller of the table.
pub const WORKERS: &[u8] = b"workers";

/// The seed of the first table's hash.
pub const SEED: &[u8] = b"seed";

/// How often a look-up walks one bucket again.
pub const REWALKS: &[u8] = b"rewalks";

/// How ports are written.
pub const FORM: &[u8] = b"form";

/// Which hash picks the bucket of a port.
pub const HASH: &[u8] = b"hash";

/// The hash that mixes port and seed.
pub const MIX: &[u8] = b"mix";

/// The hash that is the port's number itself.
pub const LOW: &[u8] = b"low";

/// Whether the table shrinks.
pub const SHRINK: &[u8] = b"shrink";

/// It does.
pub const ON: &[u8] = b"on";

/// It doesn't.
pub const OFF: &[u8] = b"off";

/// Who runs the work: as an option, and as a verb, the work itself.
pub const WORK: &[u8] = b"work";

/// A worker does by itself, where a reply asks for it.
pub const AUTO: &[u8] = b"auto";

/// Only a command does.
pub const MANUAL: &[u8] = b"manual";

/// The first word of a command that any worker may do.
pub const ANY: &[u8] = b"any";

/// The verb that binds a port to an owner.
pub const BIND: &[u8] = b"bind";

/// The verb that looks a port up.
pub const FIND: &[u8] = b"find";

/// The verb that lists all owners of a port.
pub const ALL: &[u8] = b"all";

/// The verb that takes a binding out.
pub const RELEASE: &[u8] = b"release";

/// The verb that puts a new owner in another one's place.
pub const REBIND: &[u8] = b"rebind";

/// The verb that shows each bound port with its first owner.
pub const WALK: &[u8] = b"walk";

/// The verb that gives back the nodes that the worker took out.
pub const TIDY: &[u8] = b"tidy";

/// The verb that counts the bound ports.
pub const COUNT: &[u8] = b"count";

/// The first word of a schedule line whose events are shown.
pub const STEP: &[u8] = b"step";

/// The first word of a schedule line whose events aren't shown.
pub const SKIP: &[u8] = b"skip";

/// The first word of a schedule line that ends calls.
pub const FINISH: &[u8] = b"finish";
