//! Files, an input and an output in memory, of which chosen calls fail.

ghost use Rattle.std.specs.Prelude.{◌≡◌, [], ◌++◌, Some, OnOk, OnErr, IfOk, min, length};
ghost use Rattle.nu_base.specs.Calls.{after_call, also_failing, next_fails, no_calls};
ghost use Rattle.nu_base.specs.Outside.{CountsFetch, CountsPut, CountsTake, Fetches, Puts, Takes, fetch_failed, put_failed, take_failed};
ghost use Rattle.nu_base.specs.Stored.{file_of, with_file};

use crate::ending::{Failed, FetchTrouble, Fetched, Memory, PutTrouble};
use crate::schedule::Schedule;
use crate::stored::{StoredFile, look_up, store};
use crate::traits::{Files, Sink, Source};
use std::alloc::Global;
use std::marker::Model;

/// Files in memory. Contracts see the files, the last stored first, and the calls of `fetch`.
#[derive(Drop)]
pub struct MemFiles {
    alloc: Global,
    files: Vec<StoredFile>,
    calls: Schedule,
}

impl Model for MemFiles {
    ghost use Rattle.nu_base.specs.Stored.{FilesWithCalls};

    ghost Value = { FilesWithCalls };

    ghost view = { λ s. record { files = s.files.items; calls = s.calls } };
}

impl MemFiles {
    /// No files, of which no fetch fails.
    pub fn new(alloc: Global) -> MemFiles
        ensures files { result.files ≡ [] }
        ensures calls { result.calls ≡ no_calls }
    {
        MemFiles {
            alloc,
            files: Vec::new(alloc),
            calls: Schedule::new(alloc),
        }
    }

    /// Puts a file, in place of one of that name.
    pub fn add(&mut self, name: &str, bytes: &[u8]) -> Result<(), Memory>
        ensures ok { OnOk result (self.new.files ≡ with_file self.old.files name.now bytes.now) }
        ensures err { OnErr result (self.new.files ≡ self.old.files) }
        ensures calls { self.new.calls ≡ self.old.calls }
    {
        store(self.alloc, &mut self.files, name, bytes)
    }

    /// Lets the fetch of that number fail, counted from 1.
    pub fn fail_at(&mut self, call: u64) -> Result<(), Memory>
        ensures ok { OnOk result (self.new.calls ≡ also_failing self.old.calls call) }
        ensures err { OnErr result (self.new.calls ≡ self.old.calls) }
        ensures files { self.new.files ≡ self.old.files }
    {
        self.calls.add(call)
    }
}

impl Files for MemFiles {
    ghost told = { λ s. Some (file_of s.files) };

    ghost faults = { λ s. s.calls.faults };

    /// It fails exactly where the number of the call is listed.
    fn fetch(&mut self, name: &str, limit: u64, into: &mut Vec<u8>) -> Result<Fetched, FetchTrouble>
        ensures files { self.new.files ≡ self.old.files }
        ensures count { CountsFetch self.old.calls.faults self.new.calls.faults result }
        ensures bytes { Fetches (Some (file_of self.old.files name.now)) limit into.old.items into.new.items result }
        ensures calls { self.new.calls ≡ after_call self.old.calls }
        ensures fails { fetch_failed result ≡ next_fails self.old.calls }
    {
        if self.calls.call_fails() {
            return Err(FetchTrouble::Failed);
        }
        look_up(&self.files, name, limit, into)
    }
}

/// An input in memory. Contracts see the bytes that are left, and the calls of `take`.
#[derive(Drop)]
pub struct MemSource {
    bytes: Vec<u8>,
    at: usize,
    calls: Schedule,
}

impl Model for MemSource {
    ghost use Rattle.std.specs.Prelude.{◌≤◌, drop, vec_len};
    ghost use Rattle.nu_base.specs.Stored.{BytesWithCalls};

    ghost Value = { BytesWithCalls };

    ghost view = { λ s. record { bytes = drop s.at s.bytes.items; calls = s.calls } };

    ghost invariant = { λ s. s.at ≤ vec_len s.bytes };
}

impl MemSource {
    /// An input of these bytes, of which no take fails.
    pub fn new(alloc: Global, bytes: &[u8]) -> Result<MemSource, Memory>
        ensures bytes { IfOk result (λ s. s.bytes ≡ bytes.now) }
        ensures calls { IfOk result (λ s. s.calls ≡ no_calls) }
    {
        Ok(MemSource {
            bytes: bytes.to_vec(alloc)?,
            at: 0,
            calls: Schedule::new(alloc),
        })
    }

    /// Lets the take of that number fail, counted from 1.
    pub fn fail_at(&mut self, call: u64) -> Result<(), Memory>
        ensures ok { OnOk result (self.new.calls ≡ also_failing self.old.calls call) }
        ensures err { OnErr result (self.new.calls ≡ self.old.calls) }
        ensures bytes { self.new.bytes ≡ self.old.bytes }
    {
        self.calls.add(call)
    }
}

impl Source for MemSource {
    ghost left = { λ s. Some s.bytes };

    ghost faults = { λ s. s.calls.faults };

    /// It fails exactly where the number of the call is listed, and else takes all that is left and fits.
    fn take(&mut self, buf: &mut [u8]) -> Result<usize, Failed>
        ensures count { CountsTake self.old.calls.faults self.new.calls.faults result }
        ensures bytes { Takes (Some self.old.bytes) (Some self.new.bytes) buf.new result }
        ensures most { IfOk result (λ n. n ≡ min (length self.old.bytes) (length buf.old)) }
        ensures calls { self.new.calls ≡ after_call self.old.calls }
        ensures fails { take_failed result ≡ next_fails self.old.calls }
    {
        if self.calls.call_fails() {
            return Err(Failed);
        }
        let left = &self.bytes[self.at..];
        let count = left.len().min(buf.len());
        buf[..count].copy_from_slice(&left[..count]);
        self.at += count;
        Ok(count)
    }
}

/// An output in memory. Contracts see the bytes that it holds, and the calls of `put`.
#[derive(Drop)]
pub struct MemSink {
    bytes: Vec<u8>,
    calls: Schedule,
}

impl Model for MemSink {
    ghost use Rattle.nu_base.specs.Stored.{BytesWithCalls};

    ghost Value = { BytesWithCalls };

    ghost view = { λ s. record { bytes = s.bytes.items; calls = s.calls } };
}

impl MemSink {
    /// An output that holds nothing, and of which no put fails.
    pub fn new(alloc: Global) -> MemSink
        ensures bytes { result.bytes ≡ [] }
        ensures calls { result.calls ≡ no_calls }
    {
        MemSink {
            bytes: Vec::new(alloc),
            calls: Schedule::new(alloc),
        }
    }

    /// Lets the put of that number fail, counted from 1.
    pub fn fail_at(&mut self, call: u64) -> Result<(), Memory>
        ensures ok { OnOk result (self.new.calls ≡ also_failing self.old.calls call) }
        ensures err { OnErr result (self.new.calls ≡ self.old.calls) }
        ensures bytes { self.new.bytes ≡ self.old.bytes }
    {
        self.calls.add(call)
    }

    /// The bytes that it holds.
    pub fn bytes(&self) -> &[u8]
        ensures { result.now ≡ self.now.bytes }
    {
        &self.bytes
    }
}

impl Sink for MemSink {
    ghost held = { λ s. Some s.bytes };

    ghost faults = { λ s. s.calls.faults };

    /// It fails exactly where the number of the call is listed, and then adds nothing.
    fn put(&mut self, piece: &[u8]) -> Result<(), PutTrouble>
        ensures count { CountsPut self.old.calls.faults self.new.calls.faults result }
        ensures bytes { Puts (Some self.old.bytes) (Some self.new.bytes) piece.now result }
        ensures unchanged { OnErr result (self.new.bytes ≡ self.old.bytes) }
        ensures calls { self.new.calls ≡ after_call self.old.calls }
        ensures fails { put_failed result ≡ next_fails self.old.calls }
    {
        if self.calls.call_fails() {
            return Err(PutTrouble::Failed);
        }
        match self.bytes.extend_from_slice(piece) {
            Ok(()) => Ok(()),
            Err(_) => Err(PutTrouble::Memory),
        }
    }
}
