//! Files that are kept in memory.

ghost use Rattle.std.specs.Prelude.{◌≡◌, ◌≢◌, Some, OnOk, OnErr, find};
ghost use Rattle.std.specs.Option.{option_copied};
ghost use Rattle.std.specs.Str.{bytes_eq};
ghost use Rattle.nu_base.specs.Outside.{Fetches};
ghost use Rattle.nu_base.specs.Stored.{file_of, with_file};

use crate::ending::{FetchTrouble, Fetched, Memory};
use std::alloc::Global;
use std::marker::Model;

/// A file that is kept in memory.
#[derive(Drop)]
pub(crate) struct StoredFile {
    name: String,
    bytes: Vec<u8>,
}

impl Model for StoredFile {
    ghost use Rattle.std.specs.Prelude.{string_bytes};
    ghost use Rattle.nu_base.specs.Stored.{Stored};

    ghost Value = { Stored };

    ghost view = { λ f. record { name = string_bytes f.name; bytes = f.bytes.items } };
}

/// Puts a file in front, where it stands in place of one of that name.
pub(crate) fn store(
    alloc: Global,
    files: &mut Vec<StoredFile>,
    name: &str,
    bytes: &[u8],
) -> Result<(), Memory>
    ensures ok { OnOk result (files.new.items ≡ with_file files.old.items name.now bytes.now) }
    ensures err { OnErr result (files.new.items ≡ files.old.items) }
{
    let name = String::from_str(alloc, name)?;
    let bytes = bytes.to_vec(alloc)?;
    files.insert(0, StoredFile { name, bytes })?;
    Ok(())
}

// The first file of a name.
fn first<'a>(files: &'a [StoredFile], name: &str) -> Option<&'a StoredFile>
    ensures { option_copied result ≡ find (λ file. bytes_eq file.name name.now) files.now }
{
    files.iter().find(|file| file.name.as_str() == name)
}

/// Appends the file of a name, of at most `limit` bytes.
pub(crate) fn look_up(
    files: &[StoredFile],
    name: &str,
    limit: u64,
    into: &mut Vec<u8>,
) -> Result<Fetched, FetchTrouble>
    ensures bytes { Fetches (Some (file_of files.now name.now)) limit into.old.items into.new.items result }
    ensures works { result ≢ Err FetchTrouble.Failed }
{
    let Some(file) = first(files, name) else {
        return Ok(Fetched::Absent);
    };
    if file.bytes.len() as u64 > limit {
        return Ok(Fetched::Longer);
    }
    match into.extend_from_slice(&file.bytes) {
        Ok(()) => Ok(Fetched::Whole),
        Err(_) => Err(FetchTrouble::Memory),
    }
}
