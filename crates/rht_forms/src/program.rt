//! The top call: the program from bytes to bytes.
//!
//! Stands on the forms, the reader of the input, the script's writer, the registry whose workers do a
//! script's commands on a table or which replays it, the closing of that table, the dealing of a script, the
//! doing of a lease script and of a resume script, the judge of claimed histories, and the endings. Begin with
//! the clauses of `run`: they say what each status means.

ghost use Rattle.std.specs.Prelude.{◌≡◌, ◌≢◌, ◌≤◌, ◌↔◌, ◌⊎◌, None, Some, Option, List, ℕ, string_bytes, map, IfOk};
ghost use Rattle.rht_io.specs.Told.{Rose, PutsLine};
ghost use Rattle.rht_policy.specs.Mix.{mix_named};
ghost use Rattle.rht_core.specs.Serving.{IsServedRun};
ghost use Rattle.rht_script.specs.declared.script.ScriptFault.{ScriptFault};
ghost use Rattle.rht_script.specs.Sound.{IsSoundScript};
ghost use Rattle.rht_script.specs.Text.{fault_line};
ghost use Rattle.rht_run.specs.ServedRuns.{tag_of, HasRun};
ghost use Rattle.rht_script.specs.Dealt.{IsDealtScript};
ghost use Rattle.rht_registry.specs.Players.{IsReplayed};
ghost use Rattle.rht_deal.specs.Dealing.{IsDealing};
ghost use Rattle.rht_lease.specs.Leasing.{IsLeasing};
ghost use Rattle.rht_lease.specs.Scripts.{IsSoundLeases};
ghost use Rattle.rht_resume.specs.Resuming.{IsResuming};
ghost use Rattle.rht_resume.specs.Scripts.{IsSoundResume};
ghost use Rattle.rht_forms.specs.declared.form.Form.{Form};
ghost use Rattle.rht_forms.specs.declared.form.Form.TheVariants.{Run, Replay, Gen, Deal, Lease, Check, Resume};
ghost use Rattle.rht_forms.specs.Forms.{form_of, HasForm, ReadsInput, HasInput, IsFaultOf};
ghost use Rattle.rht_forms.specs.Endings.{IsDone, IsCutShort, Serves, ServesUnread, served_by, replayed_by, ending_of, status_line};
ghost use Rattle.rht_forms.specs.Headline.{Headline};
ghost use Rattle.rht_forms.specs.Printed.{DealHeadline, LeaseHeadline, ResumeHeadline};

use crate::ending::{Ending, Failure};
use crate::form::Form;
use crate::input::{read_claimed, read_deal, read_leasing, read_resuming, read_script};
use rht_check::{check, write_verdict};
use rht_deal::{Dealt, run_dealt, write_dealt};
use rht_io::{Failed, Gate, Sink, Source};
use rht_lease::{LeaseOutcome, LeaseScript, run_leases, write_leases};
use rht_model::{Closed, Replies};
use rht_policy::{Lookup3, Low, Mix};
use rht_registry::{ReplayError, replay, run_workers};
use rht_resume::{ResumeOutcome, ResumeScript, run_resumed, write_resumed};
use rht_run::Table;
use rht_script::{Script, generated, write_run, write_summary};
use rht_words::Hash;
use std::alloc::{AllocError, Global};
use std::sync::Wait;
use std::thread::Threads;

/// Runs the program on the words after its name, and answers its exit status.
///
/// The input comes from the source: a script, a dealt script, a lease script, a resume script or a claimed
/// history, as the form has it; `gen` reads none. The text goes to `out`, and the line of a status above 0 to
/// `err`, whose faults change no status. The gate hears of each command before it, and after it where there is
/// memory to keep what it was answered; `replay` and `check` don't ask it.
pub fn run<R: Threads + Wait + Sync, S: Source, O: Sink, E: Sink, G: Gate + Sync>(
    rt: &R,
    alloc: Global,
    words: &Vec<String>,
    source: &mut S,
    out: &mut O,
    err: &mut E,
    gate: &G,
) -> u8
    // 0: the form's input was read to its end, where it reads any, and its whole text was written.
    ensures done { result ≡ 0 → HasForm (map string_bytes words.now.items)
        (λ form. IsDone form (S.left source.old) (S.left source.new) (O.held out.old) (O.held out.new)) }

    // The headline, for a script that was run: the text is that of a run which one legal history fits. In every such run look-ups
    // find what stays bound, and nothing is given again that an open section could reach.
    ensures headline { result ≡ 0 → form_of (map string_bytes words.now.items) ≡ Some Run
        → Headline (S.left source.old) (S.left source.new) (O.held out.old) (O.held out.new) }

    // The same for a dealt script: the text is that of a run in which each command was done once, and which one legal history fits.
    ensures dealt { result ≡ 0 → form_of (map string_bytes words.now.items) ≡ Some Deal
        → DealHeadline (S.left source.old) (S.left source.new) (O.held out.old) (O.held out.new) }

    // And for a lease script: the text is that of a run which serves the calls that its commands stand for, and which one legal
    // history fits.
    ensures leased { result ≡ 0 → form_of (map string_bytes words.now.items) ≡ Some Lease
        → LeaseHeadline (S.left source.old) (S.left source.new) (O.held out.old) (O.held out.new) }

    // And for a resume script, of which a `next` stands for its walks.
    ensures resumed { result ≡ 0 → form_of (map string_bytes words.now.items) ≡ Some Resume
        → ResumeHeadline (S.left source.old) (S.left source.new) (O.held out.old) (O.held out.new) }

    // 1: exactly where the words are no command form. Nothing is read, and nothing written to out.
    ensures usage { (result ≡ 1) ↔ (form_of (map string_bytes words.now.items) ≡ None) }
    ensures usage_leaves { result ≡ 1 → (source.new ≡ source.old) × (out.new ≡ out.old) }

    // 2: the whole input, or one byte more than a script can have, was read, and is none that the form
    // takes. The line names its first fault. Nothing was written.
    ensures no_script { result ≡ 2 → (fault : ScriptFault)
        × HasForm (map string_bytes words.now.items)
        (λ form. IsFaultOf form (S.left source.old) (S.left source.new) fault)
        × PutsLine (E.held err.old) (E.held err.new) (E.faults err.old) (E.faults err.new) (fault_line fault)
        × (out.new ≡ out.old) }

    // 3: the form reads its input, and the source had a fault. Nothing was written.
    ensures unread { result ≡ 3 → Rose (S.faults source.old) (S.faults source.new) × (out.new ≡ out.old)
        × HasForm (map string_bytes words.now.items) ReadsInput }

    // 4: the sink had a fault. A prefix of the form's text was written.
    ensures unwritten { result ≡ 4 → Rose (O.faults out.old) (O.faults out.new)
        × HasForm (map string_bytes words.now.items)
        (λ form. IsCutShort form (S.left source.old) (S.left source.new) (O.held out.old) (O.held out.new)) }

    // 5: memory ran out. Nothing was written, or a prefix of the form's text.
    ensures memory { result ≡ 5 → (out.new ≡ out.old)
        ⊎ HasForm (map string_bytes words.now.items)
        (λ form. IsCutShort form (S.left source.old) (S.left source.new) (O.held out.old) (O.held out.new)) }
    ensures statuses { result ≤ 5 }

    // Where the words are `gen` and a number, nothing is read, whatever the status is.
    ensures nothing_read { (number : ℕ) → form_of (map string_bytes words.now.items) ≡ Some (Gen number)
        → source.new ≡ source.old }

    // The line of any other status, or a prefix of it where the faults of err rose.
    ensures line { result ≢ 2
        → PutsLine (E.held err.old) (E.held err.new) (E.faults err.old) (E.faults err.new) (status_line result) }

    // Input that is whole is served, unless memory runs out.
    ensures served { (form : Form) (bytes : List ℕ) (rest : Option (List ℕ))
        → form_of (map string_bytes words.now.items) ≡ Some form
        → S.left source.old ≡ Some bytes → HasInput form (Some bytes) rest
        → ¬ Rose (S.faults source.old) (S.faults source.new) → ¬ Rose (O.faults out.old) (O.faults out.new)
        → (result ≡ 0) ⊎ (result ≡ 5) }

    // So are `gen` and its number, whatever the source is.
    ensures generated { (number : ℕ) → form_of (map string_bytes words.now.items) ≡ Some (Gen number)
        → ¬ Rose (O.faults out.old) (O.faults out.new) → (result ≡ 0) ⊎ (result ≡ 5) }

    // And input at fault is refused with the line of its first fault, unless memory runs out.
    ensures refused { (form : Form) (bytes : List ℕ) (rest : Option (List ℕ)) (fault : ScriptFault)
        → form_of (map string_bytes words.now.items) ≡ Some form
        → S.left source.old ≡ Some bytes → IsFaultOf form (Some bytes) rest fault
        → ¬ Rose (S.faults source.old) (S.faults source.new)
        → ((result ≡ 2)
        × PutsLine (E.held err.old) (E.held err.new) (E.faults err.old) (E.faults err.new) (fault_line fault))
        ⊎ (result ≡ 5) }
{
    match Form::of(words) {
        Some(form) => ending_of(serve(rt, alloc, form, source, out, gate)).end(err),
        None => Ending::Usage.end(err),
    }
}

/// How a run of a form ends.
fn ending_of(served: Result<(), Failure>) -> Ending
    ensures { result ≡ ending_of served }
{
    match served {
        Ok(()) => Ending::Done,
        Err(failure) => Ending::Unserved(failure),
    }
}

/// Serves a form, up to the first thing that goes wrong.
fn serve<R: Threads + Wait + Sync, S: Source, O: Sink, G: Gate + Sync>(
    rt: &R,
    alloc: Global,
    form: Form,
    source: &mut S,
    out: &mut O,
    gate: &G,
) -> Result<(), Failure>
    ensures served { Serves S.left S.faults O.held O.faults form source.old source.new out.old out.new result }
    ensures unread { (number : ℕ) → form ≡ Gen number → source.new ≡ source.old }
{
    match form {
        Form::Run => serve_run(rt, alloc, source, out, gate),
        Form::Replay => serve_replay(alloc, source, out),
        Form::Gen { number } => serve_gen(rt, alloc, number, out, gate),
        Form::Deal => serve_deal(rt, alloc, source, out, gate),
        Form::Lease => serve_lease(rt, alloc, source, out, gate),
        Form::Check => serve_check(alloc, source, out),
        Form::Resume => serve_resume(rt, alloc, source, out, gate),
    }
}

/// Reads a script, does its commands, and prints what they are answered.
fn serve_run<R: Threads + Wait + Sync, S: Source, O: Sink, G: Gate + Sync>(
    rt: &R,
    alloc: Global,
    source: &mut S,
    out: &mut O,
    gate: &G,
) -> Result<(), Failure>
    ensures { Serves S.left S.faults O.held O.faults Run source.old source.new out.old out.new result }
{
    let script = read_script(alloc, source)?;
    let (replies, closed) = run_hashed(rt, alloc, &script, gate)?;
    served_by(write_run(out, &replies, &closed))
}

/// Reads a script, and replays it.
fn serve_replay<S: Source, O: Sink>(
    alloc: Global,
    source: &mut S,
    out: &mut O,
) -> Result<(), Failure>
    ensures { Serves S.left S.faults O.held O.faults Replay source.old source.new out.old out.new result }
{
    let script = read_script(alloc, source)?;
    replayed_by(replay_hashed(alloc, &script, out))
}

/// Does the commands of the script of a number, and prints a line that sums up what they are answered.
fn serve_gen<R: Threads + Wait + Sync, O: Sink, G: Gate + Sync>(
    rt: &R,
    alloc: Global,
    number: u32,
    out: &mut O,
    gate: &G,
) -> Result<(), Failure>
    ensures { ServesUnread O.held O.faults (Gen number) out.old out.new result }
{
    let script = generated(alloc, number)?;
    let (replies, closed) = run_hashed(rt, alloc, &script, gate)?;
    served_by(write_summary(out, number, &replies, &closed))
}

/// Reads a dealt script, does its commands, and prints who did each and what it was answered.
fn serve_deal<R: Threads + Wait + Sync, S: Source, O: Sink, G: Gate + Sync>(
    rt: &R,
    alloc: Global,
    source: &mut S,
    out: &mut O,
    gate: &G,
) -> Result<(), Failure>
    ensures { Serves S.left S.faults O.held O.faults Deal source.old source.new out.old out.new result }
{
    let script = read_deal(alloc, source)?;
    let dealt = deal_hashed(rt, alloc, &script, gate)?;
    served_by(write_dealt(out, &dealt))
}

/// Reads a lease script, does its commands, and prints what they are answered.
fn serve_lease<R: Threads + Wait + Sync, S: Source, O: Sink, G: Gate + Sync>(
    rt: &R,
    alloc: Global,
    source: &mut S,
    out: &mut O,
    gate: &G,
) -> Result<(), Failure>
    ensures { Serves S.left S.faults O.held O.faults Lease source.old source.new out.old out.new result }
{
    let script = read_leasing(alloc, source)?;
    let outcome = lease_hashed(rt, alloc, &script, gate)?;
    served_by(write_leases(out, &outcome))
}

/// Reads a claimed history, and prints the verdict on it.
fn serve_check<S: Source, O: Sink>(
    alloc: Global,
    source: &mut S,
    out: &mut O,
) -> Result<(), Failure>
    ensures { Serves S.left S.faults O.held O.faults Check source.old source.new out.old out.new result }
{
    let claim = read_claimed(alloc, source)?;
    let verdict = check(alloc, &claim)?;
    served_by(write_verdict(out, &verdict))
}

/// Reads a resume script, does its commands, and prints what they are answered.
fn serve_resume<R: Threads + Wait + Sync, S: Source, O: Sink, G: Gate + Sync>(
    rt: &R,
    alloc: Global,
    source: &mut S,
    out: &mut O,
    gate: &G,
) -> Result<(), Failure>
    ensures { Serves S.left S.faults O.held O.faults Resume source.old source.new out.old out.new result }
{
    let script = read_resuming(alloc, source)?;
    let outcome = resume_hashed(rt, alloc, &script, gate)?;
    served_by(write_resumed(out, &outcome))
}

/// Replays a script on a table whose ports are hashed as its config says.
fn replay_hashed<O: Sink>(alloc: Global, script: &Script, out: &mut O) -> Result<(), ReplayError>
    requires { IsSoundScript script.now }
    ensures { IsReplayed (tag_of script.now.config.hash) (mix_named script.now.config) script.now O.held O.faults
        out.old out.new result }
{
    match script.config.hash {
        Hash::Mix => replay::<Lookup3, _>(alloc, script, out),
        Hash::Low => replay::<Low, _>(alloc, script, out),
    }
}

/// Deals a script's commands on a table whose ports are hashed as its config says. The one refusal is want
/// of memory.
fn deal_hashed<R: Threads + Wait + Sync, G: Gate + Sync>(
    rt: &R,
    alloc: Global,
    script: &Script,
    gate: &G,
) -> Result<Dealt, AllocError>
    requires { IsDealtScript script.now }
    ensures { IfOk result (λ dealt. IsDealing script.now.config script.now.auto script.now.commands.items dealt.done.items dealt.closed) }
{
    match script.config.hash {
        Hash::Mix => run_dealt::<Lookup3, _, _>(rt, alloc, script, gate),
        Hash::Low => run_dealt::<Low, _, _>(rt, alloc, script, gate),
    }
}

/// Does a lease script's commands on a table whose ports are hashed as its config says. The one refusal is
/// want of memory.
fn lease_hashed<R: Threads + Wait + Sync, G: Gate + Sync>(
    rt: &R,
    alloc: Global,
    script: &LeaseScript,
    gate: &G,
) -> Result<LeaseOutcome, AllocError>
    requires { IsSoundLeases script.now }
    ensures { IfOk result (λ outcome. IsLeasing script.now.config script.now.auto script.now.commands.items outcome.replies.items
        outcome.closed) }
{
    match script.config.hash {
        Hash::Mix => run_leases::<Lookup3, _, _>(rt, alloc, script, gate),
        Hash::Low => run_leases::<Low, _, _>(rt, alloc, script, gate),
    }
}

/// Does a resume script's commands on a table whose ports are hashed as its config says. The one refusal is
/// want of memory.
fn resume_hashed<R: Threads + Wait + Sync, G: Gate + Sync>(
    rt: &R,
    alloc: Global,
    script: &ResumeScript,
    gate: &G,
) -> Result<ResumeOutcome, AllocError>
    requires { IsSoundResume script.now }
    ensures { IfOk result (λ outcome. IsResuming script.now.config script.now.auto script.now.commands.items outcome.replies.items
        outcome.closed) }
{
    match script.config.hash {
        Hash::Mix => run_resumed::<Lookup3, _, _>(rt, alloc, script, gate),
        Hash::Low => run_resumed::<Low, _, _>(rt, alloc, script, gate),
    }
}

/// Does a script's commands on a table whose ports are hashed as its config says, and closes it. The one
/// refusal is want of memory.
fn run_hashed<R: Threads + Wait + Sync, G: Gate + Sync>(
    rt: &R,
    alloc: Global,
    script: &Script,
    gate: &G,
) -> Result<(Vec<Replies>, Closed), AllocError>
    requires sound { IsSoundScript script.now }
    ensures { IfOk result (λ left. HasRun script.now.config script.now.auto script.now.commands.items left.0.items left.1) }
{
    match script.config.hash {
        Hash::Mix => run_by::<Lookup3, _, _>(rt, alloc, script, gate),
        Hash::Low => run_by::<Low, _, _>(rt, alloc, script, gate),
    }
}

/// The same by this hash: the replies to each worker's commands, and what is bound at the end.
fn run_by<M: Mix + Send, R: Threads + Wait + Sync, G: Gate + Sync>(
    rt: &R,
    alloc: Global,
    script: &Script,
    gate: &G,
) -> Result<(Vec<Replies>, Closed), AllocError>
    requires sound { IsSoundScript script.now }
    requires mix { M.mix_of ≡ mix_named script.now.config }
    ensures { IfOk result (λ left. IsServedRun M (mix_named script.now.config) script.now.config script.now.auto
        script.now.commands.items left.0.items left.1) }
{
    let outcome = run_workers::<M, _, _>(rt, alloc, script, gate)?;
    match Table::close(alloc, outcome.table, outcome.passes) {
        Ok(closed) => Ok((outcome.replies, closed)),
        Err(_) => Err(AllocError),
    }
}

/// How a form is served whose text was put so.
fn served_by(put: Result<(), Failed>) -> Result<(), Failure>
    ensures { result ≡ served_by put }
{
    match put {
        Ok(()) => Ok(()),
        Err(Failed) => Err(Failure::Write),
    }
}

/// How a form is served whose text is a replay that ended so.
fn replayed_by(replayed: Result<(), ReplayError>) -> Result<(), Failure>
    ensures { result ≡ replayed_by replayed }
{
    match replayed {
        Ok(()) => Ok(()),
        Err(ReplayError::Write) => Err(Failure::Write),
        Err(ReplayError::Memory) => Err(Failure::Memory),
    }
}
