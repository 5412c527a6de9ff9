//! Calls of `nuit` over objects in memory: what they answer and write.

use nu_base::{MemFiles, MemSink, MemSource, Memory};
use nuit_lib::{Status, nuit};
use std::alloc::{AllocError, Global};
use std::test::Fail;

/// The C text of `print(7)`, which each call finds under the name `seven.c`.
const SEVEN: &str = r#"/* nuit C 1 */
#include "nuit1.h"
NU_SCRIPT("t.py", 1, 0)
NU_CODE(0, "<module>", "", 0, 0, 1)
nu nu_code_0(nu_frame *fr)
{
  nu r0, r1;
  r0 = nu_global(fr, 1, "print"); if (nu_bad(fr)) goto L0;
  r1 = nu_call(fr, 1, r0, nu_int("7")); if (nu_bad(fr)) goto L0;
  return nu_end(fr);
L0:;
  return nu_fail(fr);
}
"#;

// The call, without its contract: nothing below has to be proved from it.
fn answered(
    alloc: Global,
    words: &[String],
    files: &mut MemFiles,
    input: &mut MemSource,
    out: &mut MemSink,
    err: &mut MemSink,
) -> Status {
    nuit(alloc, words, files, input, out, err)
}

// The numbers of the fetch, the put of the output and the put of the error output that fail.
fn failing(line: &str) -> [u64; 3] {
    match line.as_bytes() {
        [fetch, out, err, ..] => [(*fetch & 7) as u64, (*out & 7) as u64, (*err & 7) as u64],
        _ => [0, 0, 0],
    }
}

fn words_of(alloc: Global, line: &str) -> Result<Vec<String>, AllocError> {
    let mut words = Vec::new(alloc);
    if let Some((_, rest)) = line.split_once(' ') {
        for word in rest.split(' ') {
            words.push(String::from_str(alloc, word)?)?;
        }
    }
    Ok(words)
}

fn files_with(alloc: Global, file: &[u8], failing: u64) -> Result<MemFiles, Memory> {
    let mut files = MemFiles::new(alloc);
    files.add("t.py", file)?;
    files.add("seven.c", SEVEN.as_bytes())?;
    files.fail_at(failing)?;
    Ok(files)
}

// An input of which each take fails.
fn no_input(alloc: Global) -> Result<MemSource, Memory> {
    let mut input = MemSource::new(alloc, b"")?;
    input.fail_at(1)?;
    Ok(input)
}

fn sink(alloc: Global, failing: u64) -> Result<MemSink, Memory> {
    let mut sink = MemSink::new(alloc);
    sink.fail_at(failing)?;
    Ok(sink)
}

/// The status, and what both outputs got, of a call that finds these bytes under the name `t.py`.
///
/// The line begins with the numbers of the fetch, the put of the output and the put of the error output that fail, 0 for none, a digit
/// each. The words of the call follow, each behind a space. Each take of the input fails.
pub(crate) fn called(
    alloc: Global,
    line: &str,
    file: &[u8],
) -> Result<(Status, MemSink, MemSink), Fail> {
    let [fetch, out, err] = failing(line);
    let mut out = sink(alloc, out)?;
    let mut err = sink(alloc, err)?;
    let words = words_of(alloc, line)?;
    let mut files = files_with(alloc, file, fetch)?;
    let mut input = no_input(alloc)?;
    let status = answered(alloc, &words, &mut files, &mut input, &mut out, &mut err);
    Ok((status, out, err))
}

/// Such a call's status by its number, then the output, and behind a line of four dashes the error output.
pub(crate) fn outcome(alloc: Global, line: &str, file: &[u8]) -> Result<String, Fail> {
    let (status, out, err) = called(alloc, line, file)?;
    let status = status.code();
    let out = str::from_utf8(out.bytes()).unwrap_or("?");
    let err = str::from_utf8(err.bytes()).unwrap_or("?");
    Ok(format!(in alloc; "{status}\n{out}----\n{err}")?)
}

/// Whether the call of a block comes to what the block says: a line as `called` takes it; the file, without these texts around it; behind
/// a line of four dashes the outcome.
pub(crate) fn is_right(alloc: Global, block: &str, front: &str, back: &str) -> Result<bool, Fail> {
    let Some((line, rest)) = block.split_once('\n') else {
        return Ok(false);
    };
    let Some((file, wanted)) = rest.split_once("----\n") else {
        return Ok(false);
    };
    let file = format!(in alloc; "{front}{file}{back}")?;
    let found = outcome(alloc, line, file.as_bytes())?;
    Ok(found.as_str() == wanted)
}

/// The text with a line end for each sign ⏎.
pub(crate) fn with_line_ends(alloc: Global, row: &str) -> Result<String, AllocError> {
    let mut text = String::new(alloc);
    for c in row.chars() {
        text.push(if c == '⏎' { '\n' } else { c })?;
    }
    Ok(text)
}
