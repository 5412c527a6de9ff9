//! The program `nuit`: it hands the words, the files and the streams of the system to the compiler, and ends with its status.
#![tactic(auto)]

use nu_base::{HostFiles, HostSink, HostSource};
use nuit_lib::nuit;
use std::env;
use std::process::ExitCode;

fn main(rt: HostRuntime) -> ExitCode {
    let words = words(&rt);
    let mut files = HostFiles::new(&rt);
    let mut input = HostSource::new(rt.stdin());
    let mut out = HostSink::new(rt.stdout());
    let mut err = HostSink::new(rt.stderr());
    let status = nuit(
        rt.alloc(),
        &words,
        &mut files,
        &mut input,
        &mut out,
        &mut err,
    );
    ExitCode::from(status.code())
}

// The arguments without the name of the program; none where one is no text.
fn words(rt: &(impl env::Env + AllocGlobal)) -> Vec<String> {
    let mut words = Vec::new(rt.alloc());
    let Ok(args) = env::args(rt) else {
        return words;
    };
    for word in args.skip(1) {
        if words.push(word).is_err() {
            return Vec::new(rt.alloc());
        }
    }
    words
}
