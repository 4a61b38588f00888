//! The theory of a run, which knows no machine of a call and no event: ghosts, what is true of them
//! and of words, what callers know, what each kind of operation makes of that, and the operations of
//! the pieces of machines.
//!
//! There is no code here. Stands on the words, the model and the pieces; the machines stand on it.
//! Read `proofs/Lib.antt` first, then `proofs/Theory.antt`.
#![tactic(auto)]
