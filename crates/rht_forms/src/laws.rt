//! What follows for a run over a source and sinks that never fail.

ghost use Rattle.std.specs.Prelude.{◌≡◌, ◌↔◌, ◌⊎◌, ℕ, None, Some, Ok, Err, string_bytes, map};
ghost use Rattle.rht_script.specs.declared.script.ScriptFault.{ScriptFault};
ghost use Rattle.rht_script.specs.Grammar.{Said, reading_of};
ghost use Rattle.rht_script.specs.Reading.{FirstFault};
ghost use Rattle.rht_script.specs.Dealt.{dealing_of};
ghost use Rattle.rht_lease.specs.Reading.{SaidLeases, lease_reading_of};
ghost use Rattle.rht_resume.specs.Reading.{SaidResume, resume_reading_of};
ghost use Rattle.rht_check.specs.Reading.{SaidClaim, claim_reading_of};
ghost use Rattle.rht_forms.specs.declared.form.Form.{Form};
ghost use Rattle.rht_forms.specs.declared.form.Form.TheVariants.{Gen, Deal, Lease, Check, Resume};
ghost use Rattle.rht_forms.specs.Forms.{form_of, ReadsScript};

use crate::program::run;
use rht_io::{Gate, SureSink, SureSource};
use std::alloc::Global;
use std::sync::Wait;
use std::thread::Threads;

/// The status of a run on these bytes where nothing outside can fail. A form that reads a script
/// has 0 for a script and 2 for other bytes, or 5 where memory ran out; `deal` has so for dealt scripts,
/// `lease` for lease scripts, `check` for claimed histories, and `resume` for resume scripts; `gen` has 0 or
/// 5; and where the words are no command form the status is 1.
pub fn complete<R: Threads + Wait + Sync, G: Gate + Sync>(
    rt: &R,
    alloc: Global,
    words: &Vec<String>,
    bytes: Vec<u8>,
    gate: &G,
) -> u8
    ensures usage { (result ≡ 1) ↔ (form_of (map string_bytes words.now.items) ≡ None) }
    ensures served { (form : Form) (said : Said) → form_of (map string_bytes words.now.items) ≡ Some form
        → ReadsScript form → reading_of bytes.items ≡ Ok said → (result ≡ 0) ⊎ (result ≡ 5) }
    ensures refused { (form : Form) (fault : ScriptFault)
        → form_of (map string_bytes words.now.items) ≡ Some form
        → ReadsScript form → FirstFault bytes.items fault → (result ≡ 2) ⊎ (result ≡ 5) }
    ensures dealt { (said : Said) → form_of (map string_bytes words.now.items) ≡ Some Deal
        → dealing_of bytes.items ≡ Ok said → (result ≡ 0) ⊎ (result ≡ 5) }
    ensures undealt { (fault : ScriptFault) → form_of (map string_bytes words.now.items) ≡ Some Deal
        → dealing_of bytes.items ≡ Err fault → (result ≡ 2) ⊎ (result ≡ 5) }
    ensures leased { (said : SaidLeases) → form_of (map string_bytes words.now.items) ≡ Some Lease
        → lease_reading_of bytes.items ≡ Ok said → (result ≡ 0) ⊎ (result ≡ 5) }
    ensures unleased { (fault : ScriptFault) → form_of (map string_bytes words.now.items) ≡ Some Lease
        → lease_reading_of bytes.items ≡ Err fault → (result ≡ 2) ⊎ (result ≡ 5) }
    ensures judged { (said : SaidClaim) → form_of (map string_bytes words.now.items) ≡ Some Check
        → claim_reading_of bytes.items ≡ Ok said → (result ≡ 0) ⊎ (result ≡ 5) }
    ensures unclaimed { (fault : ScriptFault) → form_of (map string_bytes words.now.items) ≡ Some Check
        → claim_reading_of bytes.items ≡ Err fault → (result ≡ 2) ⊎ (result ≡ 5) }
    ensures resumed { (said : SaidResume) → form_of (map string_bytes words.now.items) ≡ Some Resume
        → resume_reading_of bytes.items ≡ Ok said → (result ≡ 0) ⊎ (result ≡ 5) }
    ensures unresumed { (fault : ScriptFault) → form_of (map string_bytes words.now.items) ≡ Some Resume
        → resume_reading_of bytes.items ≡ Err fault → (result ≡ 2) ⊎ (result ≡ 5) }
    ensures generated { (number : ℕ) → form_of (map string_bytes words.now.items) ≡ Some (Gen number)
        → (result ≡ 0) ⊎ (result ≡ 5) }
{
    let mut source = SureSource::new(bytes);
    let mut out = SureSink::new();
    let mut err = SureSink::new();
    run(rt, alloc, words, &mut source, &mut out, &mut err, gate)
}
