//! The call of the compiler.

ghost use Rattle.std.specs.Prelude.{◌≡◌, ◌↔◌, ℕ, ◌≤◌, List, Option, Some, None, false, length, map, string_bytes, true};
ghost use Rattle.nu_base.specs.Outside.{Rose};
ghost use Rattle.nuit_lib.specs.Asked.{asked};
ghost use Rattle.nuit_lib.specs.Words.{BuildFile, Command, RunFile, command_of, file_of};
ghost use Rattle.nuit_lib.specs.Ends.{AsksForFile, Builds, CountsInput, Ends, IsQuiet, Performs, RunTakes, Runs, TakesFront, VerbTakes, call_of, is_before_run, limit_of, stream, takes_input};

use crate::building::build;
use crate::running::run;
use crate::saying::{READ_FAULT, say};
use crate::status::Status;
use crate::words::{Verb, command};
use nu_base::{FetchTrouble, Fetched, Files, Sink, Source};
use std::alloc::Global;

/// Does what the words say, and answers how it ended.
///
/// `words` are the arguments of the program without its name. `build FILE` writes the C text of a script to `out`;
/// `run FILE` and `run FILE STEPS` run a C text, of which what it prints goes to `out` as it is printed. Every message goes to
/// `err`.
pub fn nuit<F: Files, I: Source, O: Sink, E: Sink>(
    alloc: Global,
    words: &[String],
    files: &mut F,
    input: &mut I,
    out: &mut O,
    err: &mut E,
) -> Status
    // Why a call ends so, and what it leaves.
    ensures ends { Ends (call_of (map string_bytes words.now) (F.told files.old) (F.faults files.old) (F.faults files.new)
        (stream (I.left input.old) (I.left input.new) (I.faults input.old) (I.faults input.new))
        (stream (O.held out.old) (O.held out.new) (O.faults out.old) (O.faults out.new))
        (stream (E.held err.old) (E.held err.new) (E.faults err.old) (E.faults err.new))) result }

    // Usage comes exactly where the words have no form.
    ensures usage { IsQuiet (F.faults files.old) (F.faults files.new) (I.faults input.old) (I.faults input.new) (O.faults out.old) (O.faults out.new) (E.faults err.old) (E.faults err.new) result
        → (result ≡ Status.Usage) ↔ (command_of (map string_bytes words.now) ≡ None) }

    // Missing comes exactly where told files have none of the name.
    ensures missing { (command : Command) → (told : List ℕ → Option (List ℕ))
        → command_of (map string_bytes words.now) ≡ Some command → F.told files.old ≡ Some told
        → IsQuiet (F.faults files.old) (F.faults files.new) (I.faults input.old) (I.faults input.new) (O.faults out.old) (O.faults out.new) (E.faults err.old) (E.faults err.new) result
        → (result ≡ Status.Missing) ↔ (told (file_of command) ≡ None) }

    // A file is asked for only by a command that has one. ReadFault and Missing come to such a command alone, and where the words have no
    // form the files stay untouched.
    ensures asks { AsksForFile (command_of (map string_bytes words.now)) result }
    ensures untouched { command_of (map string_bytes words.now) ≡ None → files.new ≡ files.old }

    // `build FILE`, for told files, of which one has the name.
    ensures build { (name bytes : List ℕ) → (told : List ℕ → Option (List ℕ))
        → command_of (map string_bytes words.now) ≡ Some (BuildFile name) → F.told files.old ≡ Some told → told name ≡ Some bytes
        → IsQuiet (F.faults files.old) (F.faults files.new) (I.faults input.old) (I.faults input.new) (O.faults out.old) (O.faults out.new) (E.faults err.old) (E.faults err.new) result
        → Builds name bytes (O.held out.old) (O.held out.new) (E.held err.old) (E.held err.new) result }

    // `run FILE` and `run FILE STEPS`, for told files, of which one has the name, and a told input.
    ensures run { (name bytes left : List ℕ) → (steps : ℕ) → (told : List ℕ → Option (List ℕ))
        → command_of (map string_bytes words.now) ≡ Some (RunFile name steps) → F.told files.old ≡ Some told → told name ≡ Some bytes
        → I.left input.old ≡ Some left
        → IsQuiet (F.faults files.old) (F.faults files.new) (I.faults input.old) (I.faults input.new) (O.faults out.old) (O.faults out.new) (E.faults err.old) (E.faults err.new) result
        → Runs bytes left steps (O.held out.old) (O.held out.new) (E.held err.old) (E.held err.new) result }

    // What is left of a told input is a rest of it. A run that asks for no line takes nothing, and any other fewer than 4,096 bytes
    // past the last line that it asked for.
    ensures input { TakesFront (I.left input.old) (I.left input.new) }
    ensures few_input { (name bytes : List ℕ) → (steps : ℕ) → (told : List ℕ → Option (List ℕ))
        → command_of (map string_bytes words.now) ≡ Some (RunFile name steps) → F.told files.old ≡ Some told → told name ≡ Some bytes
        → RunTakes bytes steps input.old input.new (I.left input.old) (I.left input.new) }

    // It is taken by `run` alone, and not before the run begins, so that ReadFault comes where the file or the input failed.
    ensures other_input { takes_input (command_of (map string_bytes words.now)) ≡ false → input.new ≡ input.old }
    ensures early_input { is_before_run result ≡ true → input.new ≡ input.old }
    ensures unread_input { result ≡ Status.ReadFault → (Rose (I.faults input.old) (I.faults input.new) → ⊥) → input.new ≡ input.old }
    ensures input_faults { CountsInput (I.faults input.old) (I.faults input.new) result }

    // The told files stay as they were.
    ensures files { F.told files.new ≡ F.told files.old }
{
    answer(alloc, words, files, input, out, err)
}

// The call, with why it ends so alone.
fn answer<F: Files, I: Source, O: Sink, E: Sink>(
    alloc: Global,
    words: &[String],
    files: &mut F,
    input: &mut I,
    out: &mut O,
    err: &mut E,
) -> Status
    ensures ends { Ends (call_of (map string_bytes words.now) (F.told files.old) (F.faults files.old) (F.faults files.new)
        (stream (I.left input.old) (I.left input.new) (I.faults input.old) (I.faults input.new))
        (stream (O.held out.old) (O.held out.new) (O.faults out.old) (O.faults out.new))
        (stream (E.held err.old) (E.held err.new) (E.faults err.old) (E.faults err.new))) result }
    ensures input { TakesFront (I.left input.old) (I.left input.new) }
    ensures few_input { (name bytes : List ℕ) → (steps : ℕ) → (told : List ℕ → Option (List ℕ))
        → command_of (map string_bytes words.now) ≡ Some (RunFile name steps) → F.told files.old ≡ Some told → told name ≡ Some bytes
        → RunTakes bytes steps input.old input.new (I.left input.old) (I.left input.new) }
    ensures other_input { takes_input (command_of (map string_bytes words.now)) ≡ false → input.new ≡ input.old }
    ensures early_input { is_before_run result ≡ true → input.new ≡ input.old }
    ensures unread_input { result ≡ Status.ReadFault → (Rose (I.faults input.old) (I.faults input.new) → ⊥) → input.new ≡ input.old }
    ensures counts { I.faults input.old ≤ I.faults input.new }
    ensures files { F.told files.new ≡ F.told files.old }
    ensures untouched { command_of (map string_bytes words.now) ≡ None → files.new ≡ files.old }
{
    let Some((verb, name)) = command(words) else {
        return say(err, USAGE, Status::Usage);
    };
    let mut bytes = Vec::new(alloc);
    match files.fetch(name, longest(verb), &mut bytes) {
        Ok(Fetched::Whole) => perform(alloc, verb, name, &bytes, input, out, err),
        Ok(Fetched::Longer) => say(err, TOO_LARGE, Status::TooLarge),
        Ok(Fetched::Absent) => say(err, MISSING, Status::Missing),
        Err(FetchTrouble::Failed) => say(err, READ_FAULT, Status::ReadFault),
        Err(FetchTrouble::Memory) => Status::Memory,
    }
}

const USAGE: &str = "nuit: usage: tree FILE, build FILE, run FILE [STEPS], sample N\n";

const TOO_LARGE: &str = "nuit: too large\n";

const MISSING: &str = "nuit: no such file\n";

// How many bytes a command takes at most.
fn longest(verb: Verb) -> u64
    ensures { result ≡ limit_of verb }
{
    match verb {
        Verb::Build => 262_144,
        Verb::Run { .. } => 1_073_741_824,
    }
}

// Does what the verb says with a file of this name and these bytes.
fn perform<I: Source, O: Sink, E: Sink>(
    alloc: Global,
    verb: Verb,
    name: &str,
    bytes: &[u8],
    input: &mut I,
    out: &mut O,
    err: &mut E,
) -> Status
    requires { length bytes.now ≤ limit_of verb }
    ensures writes { Performs verb name.now bytes.now
        (stream (I.left input.old) (I.left input.new) (I.faults input.old) (I.faults input.new))
        (stream (O.held out.old) (O.held out.new) (O.faults out.old) (O.faults out.new))
        (stream (E.held err.old) (E.held err.new) (E.faults err.old) (E.faults err.new)) result }
    ensures input { TakesFront (I.left input.old) (I.left input.new) }
    ensures few_input { VerbTakes verb bytes.now input.old input.new (I.left input.old) (I.left input.new) }
    ensures other_input { takes_input (Some (asked verb name.now)) ≡ false → input.new ≡ input.old }
    ensures early_input { is_before_run result ≡ true → input.new ≡ input.old }
    ensures counts { I.faults input.old ≤ I.faults input.new }
{
    match verb {
        Verb::Build => build(alloc, name, bytes, out, err),
        Verb::Run { steps } => run(alloc, bytes, steps, input, out, err),
    }
}
