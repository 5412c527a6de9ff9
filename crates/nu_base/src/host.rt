//! The real files, input and output. They count their faults, and tell nothing of what they hold.

ghost use Rattle.std.specs.Prelude.{◌≡◌, ◌+◌, take, vec_len, None, IfOk};

use crate::ending::{Failed, FetchTrouble, Fetched, PutTrouble};
use crate::traits::{Files, Sink, Source};
use std::fs::File;
use std::io::{Error, ErrorKind, Read, Write};
use std::marker::Model;
use std::rt;

/// The files of a runtime. Contracts see the count of faults.
#[derive(Drop)]
pub struct HostFiles<R> {
    inner: R,
    faults: u64,
}

impl<R> Model for HostFiles<R> {
    ghost use Rattle.std.specs.Prelude.{ℕ};

    ghost Value = { ℕ };

    ghost view = { λ s. s.faults };
}

impl<R> HostFiles<R> {
    pub fn new(inner: R) -> HostFiles<R>
        ensures { result ≡ 0 }
    {
        HostFiles { inner, faults: 0 }
    }
}

impl<R: rt::Files> Files for HostFiles<R> {
    ghost told = { λ _. None };

    ghost faults = { λ s. s };

    fn fetch(
        &mut self,
        name: &str,
        limit: u64,
        into: &mut Vec<u8>,
    ) -> Result<Fetched, FetchTrouble> {
        let before = into.len();
        // One byte past the limit shows that the file is longer.
        match read_front(&self.inner, name, limit.saturating_add(1), into) {
            Ok(count) if count as u64 <= limit => Ok(Fetched::Whole),
            Ok(_) => {
                into.truncate(before);
                Ok(Fetched::Longer)
            }
            Err(e) => {
                into.truncate(before);
                match e.kind() {
                    ErrorKind::NotFound => Ok(Fetched::Absent),
                    ErrorKind::OutOfMemory => Err(FetchTrouble::Memory),
                    _ => {
                        self.faults = self.faults.saturating_add(1);
                        Err(FetchTrouble::Failed)
                    }
                }
            }
        }
    }
}

// Appends the first bytes of a file, at most `most`, and answers how many.
fn read_front<R: rt::Files>(
    files: &R,
    name: &str,
    most: u64,
    into: &mut Vec<u8>,
) -> Result<usize, Error>
    ensures front { take (vec_len into.old) into.new.items ≡ into.old.items }
    ensures len { IfOk result (λ n. vec_len into.new ≡ vec_len into.old + n) }
{
    let file = File::open(files, name)?;
    file.take(most).read_to_end(into)
}

/// The input of a runtime, or any reader. Contracts see the count of faults.
#[derive(Drop)]
pub struct HostSource<R> {
    inner: R,
    faults: u64,
}

impl<R> Model for HostSource<R> {
    ghost use Rattle.std.specs.Prelude.{ℕ};

    ghost Value = { ℕ };

    ghost view = { λ s. s.faults };
}

impl<R> HostSource<R> {
    pub fn new(inner: R) -> HostSource<R>
        ensures { result ≡ 0 }
    {
        HostSource { inner, faults: 0 }
    }
}

impl<R: Read> Source for HostSource<R> {
    ghost left = { λ _. None };

    ghost faults = { λ s. s };

    fn take(&mut self, buf: &mut [u8]) -> Result<usize, Failed> {
        match self.inner.read(buf) {
            Ok(count) => Ok(count),
            Err(_) => {
                self.faults = self.faults.saturating_add(1);
                Err(Failed)
            }
        }
    }
}

/// The output of a runtime, or any writer. Contracts see the count of faults.
#[derive(Drop)]
pub struct HostSink<W> {
    inner: W,
    faults: u64,
}

impl<W> Model for HostSink<W> {
    ghost use Rattle.std.specs.Prelude.{ℕ};

    ghost Value = { ℕ };

    ghost view = { λ s. s.faults };
}

impl<W> HostSink<W> {
    pub fn new(inner: W) -> HostSink<W>
        ensures { result ≡ 0 }
    {
        HostSink { inner, faults: 0 }
    }
}

impl<W: Write> Sink for HostSink<W> {
    ghost held = { λ _. None };

    ghost faults = { λ s. s };

    /// A write that takes nothing of a piece that isn't empty is a fault.
    fn put(&mut self, piece: &[u8]) -> Result<(), PutTrouble> {
        match self.inner.write_all(piece) {
            Ok(()) => Ok(()),
            Err(_) => {
                self.faults = self.faults.saturating_add(1);
                Err(PutTrouble::Failed)
            }
        }
    }
}
