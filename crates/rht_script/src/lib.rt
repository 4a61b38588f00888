//! Scripts and the text that answers them.
//!
//! Stands on `rht_model`, `rht_words` and `rht_io`. The program reads a script's bytes by `read`, a dealt
//! script's by `read_dealt`, or makes one from a number by `generated`, and writes the text of a run by
//! `write_run`, or by `write_dones` that of a dealt script; `write_reply`, `write_done`, `write_closed` and
//! `write_fault` write parts of such text. Programs with lines of their own begin with `first_table` and go over
//! the lines below it by `Lines` and `Words`, or over any by `line_end` and `word_at`. They read single lines and
//! words by `command`, `call_of_verb`, `number_within`, `table_line`, `command_line`, `number_of` and `port_word`.
//! They write by a `Writer`, `add_reply` and `add_closed`, many lines at a put,
//! or by `write_number`, `write_port` and `write_ports`.
//! Read `specs/Grammar.antt` and `specs/Text.antt` first.
#![tactic(auto)]

mod cause;
mod done;
mod generator;
pub mod laws;
mod options;
mod reader;
mod script;
mod writer;

pub use cause::{Cause, at_line};
pub use done::Done;
pub use generator::generated;
pub use reader::{
    Lines, MOST_BYTES, Words, call_of_verb, command, command_line, first_table, line_end,
    number_of, number_within, port_word, read, read_dealt, table_line, word_at,
};
pub use script::{ReadError, Sched, Script, ScriptFault, TableLine, is_sound_call, worker_limits};
pub use writer::{
    Writer, add_closed, add_reply, write_closed, write_done, write_dones, write_fault,
    write_number, write_open, write_operation, write_port, write_ports, write_reply, write_run,
    write_size, write_summary,
};
