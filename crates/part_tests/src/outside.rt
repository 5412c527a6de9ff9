//! The real files, input and output, of which contracts see only the faults; and the objects in memory that never fail. Those that may
//! fail stand in the tables of commands.

use nu_base::{
    FetchTrouble, Fetched, Files, HostFiles, HostSink, HostSource, MemSource, PutTrouble, Sink,
    Source, SureFiles, SureSink, SureSource,
};
use std::alloc::Global;
use std::fs::{self, File};
use std::test::Fail;

// What a fetch of at most 3 bytes comes to.
fn fetched<F: Files>(alloc: Global, files: &mut F, name: &str) -> &'static str {
    let mut into = Vec::new(alloc);
    match files.fetch(name, 3, &mut into) {
        Ok(Fetched::Whole) if into.len() == 3 => "three",
        Ok(Fetched::Whole) => "other",
        Ok(Fetched::Longer) => "longer",
        Ok(Fetched::Absent) => "absent",
        Err(FetchTrouble::Failed) => "failed",
        Err(FetchTrouble::Memory) => "memory",
    }
}

#[test]
fn files(rt: HostRuntime) -> Result<(), Fail> {
    let mut sure = SureFiles::new(rt.alloc());
    sure.add("a", b"abc")?;
    assert_eq!(rt; fetched(rt.alloc(), &mut sure, "a"), "three");
    fs::write(&rt, "a", "abc")?;
    fs::write(&rt, "b", "abcd")?;
    let mut files = HostFiles::new(&rt);
    for (name, answer) in [
        ("a", "three"),
        ("b", "longer"),
        ("c", "absent"),
        (".", "failed"),
    ] {
        assert_eq!(rt; fetched(rt.alloc(), &mut files, name), answer);
    }
    Ok(())
}

// How many bytes a take of at most 2 gives.
fn taken<S: Source>(source: &mut S) -> Option<usize> {
    let mut buffer = [0; 2];
    source.take(&mut buffer).ok()
}

#[test]
fn inputs(rt: HostRuntime) -> Result<(), Fail> {
    let mut failing = MemSource::new(rt.alloc(), b"abc")?;
    failing.fail_at(2)?;
    for answer in [Some(2), None, Some(1), Some(0)] {
        assert_eq!(rt; taken(&mut failing), answer);
    }
    let mut sure = SureSource::new(rt.alloc(), b"abc")?;
    assert_eq!(rt; taken(&mut sure), Some(2));
    fs::write(&rt, "c", "abc")?;
    let mut source = HostSource::new(File::open(&rt, "c")?);
    for answer in [2, 1, 0] {
        assert_eq!(rt; taken(&mut source), Some(answer));
    }
    let mut folder = HostSource::new(File::open(&rt, ".")?);
    assert_eq!(rt; taken(&mut folder), None);
    Ok(())
}

fn put<S: Sink>(sink: &mut S, piece: &[u8]) -> &'static str {
    match sink.put(piece) {
        Ok(()) => "added",
        Err(PutTrouble::Failed) => "failed",
        Err(PutTrouble::Memory) => "memory",
    }
}

// The room takes a part of the second piece, and then nothing.
#[test]
fn outputs(rt: HostRuntime) -> Result<(), Fail> {
    let mut sure = SureSink::new(rt.alloc());
    assert_eq!(rt; put(&mut sure, b"ab"), "added");
    let mut room = [0; 3];
    let mut sink = HostSink::new(room.as_mut_slice());
    for (piece, answer) in [("ab", "added"), ("cd", "failed"), ("", "added")] {
        assert_eq!(rt; put(&mut sink, piece.as_bytes()), answer);
    }
    let mut closed = HostSink::new(File::open(&rt, ".")?);
    assert_eq!(rt; put(&mut closed, b"a"), "failed");
    Ok(())
}
