ghost use Rattle.std.specs.Prelude.{◌≡◌, ◌≤◌, ◌↔◌, [], ◌∷◌, Some, Contains, IsTrue, MatchOption, OnOk, OnErr};
ghost use Rattle.std.specs.Bool.{MatchBool};
ghost use Rattle.sp_kit.specs.Causes.{one_more};
ghost use Rattle.sp_kit.specs.Files.{Asks, FetchGives, FetchesAtMost, KeepsOthers, StoreLeaves, HasShelfCause, fetch, store};
ghost use Rattle.sp_kit.specs.Memory.{files_of, found_in, told_in};

use crate::call::{Call, with_fetch, with_store};
use crate::shelf::{Fetched, Shelf, ShelfFault};
use std::alloc::{AllocError, Global};
use std::collections::BTreeMap;
use std::marker::Model;

/// A shelf in memory that fails at chosen calls, and keeps which calls it was asked.
#[derive(Drop)]
pub struct MemoryShelf {
    alloc: Global,
    files: BTreeMap<String, Vec<u8>>,
    fails: Vec<u64>,
    call: u64,
    faults: u64,
    calls: Option<Vec<Call>>,
}

impl Model for MemoryShelf {
    ghost use Rattle.sp_kit.specs.Memory.{MemoryShelfState, calls_of, files_of};

    ghost Value = { MemoryShelfState };

    ghost view = { λ s. record { files = files_of s.files; fails = s.fails.items; call = s.call; faults = s.faults; calls = calls_of s.calls } };
}

impl MemoryShelf {
    /// Holds no file, and fails exactly the calls of fetch and store whose numbers are listed; both are counted together,
    /// from 0. Takes no memory.
    pub fn new(alloc: Global, fails: Vec<u64>) -> MemoryShelf
        ensures { result ≡ record { files = []; fails = fails.items; call = 0; faults = 0; calls = Some [] } }
    {
        MemoryShelf {
            alloc,
            files: BTreeMap::new(alloc),
            fails,
            call: 0,
            faults: 0,
            calls: Some(Vec::new(alloc)),
        }
    }

    /// Counts a call, and a fault where the call is listed; says whether it is.
    fn fails_now(&mut self) -> bool
        ensures listed { IsTrue result ↔ Contains self.old.fails self.old.call }
        ensures call { self.new.call ≡ one_more self.old.call }
        ensures cause { MatchBool result ((self.old.faults ≤ self.new.faults)
            × (self.new.faults ≡ one_more self.old.faults)) (self.new.faults ≡ self.old.faults) }
        ensures kept { (self.new.files ≡ self.old.files) × (self.new.fails ≡ self.old.fails) }
        ensures calls { self.new.calls ≡ self.old.calls }
    {
        let is_listed = self.fails.contains(&self.call);
        self.call = self.call.saturating_add(1);
        if is_listed {
            self.faults = self.faults.saturating_add(1);
        }
        is_listed
    }
}

/// The bytes under the name.
fn bytes_under<'a>(files: &'a BTreeMap<String, Vec<u8>>, name: &str) -> Option<&'a [u8]>
    ensures { MatchOption result (found_in (files_of files.now) name.now ≡ None)
        (λ bytes. found_in (files_of files.now) name.now ≡ Some bytes.now) }
{
    match files.get(name) {
        None => None,
        Some(bytes) => Some(bytes.as_slice()),
    }
}

/// Puts the bytes under the name.
fn put(
    alloc: Global,
    files: &mut BTreeMap<String, Vec<u8>>,
    name: &str,
    bytes: &[u8],
) -> Result<(), AllocError>
    ensures found { OnOk result (found_in (files_of files.new) name.now ≡ Some bytes.now) }
    ensures others { OnOk result (KeepsOthers (told_in (files_of files.old)) (told_in (files_of files.new)) name.now) }
    ensures err { OnErr result (files_of files.new ≡ files_of files.old) }
{
    let name = String::from_str(alloc, name)?;
    let bytes = bytes.to_vec(alloc)?;
    files.insert(name, bytes)?;
    Ok(())
}

impl Shelf for MemoryShelf {
    ghost use Rattle.std.specs.declared.option.Option.TheVariants.{Some};
    ghost use Rattle.sp_kit.specs.Memory.{told_in};

    ghost state = { λ s. record { files = Some (told_in s.files); faults = s.faults; calls = s.calls } };

    /// Gives the bytes under the name, and fails exactly the listed calls. A failure counts one fault. Where there is no memory to
    /// keep the call, no calls are told from here on.
    fn fetch(&mut self, name: &str, most: usize) -> Result<Fetched, ShelfFault>
        ensures bound { FetchesAtMost most result }
        ensures gives { FetchGives (found_in self.old.files name.now) most result }
        ensures kept { self.new.files ≡ self.old.files }
        ensures cause { HasShelfCause self.old.faults self.new.faults result }
        ensures one_fault { result ≡ Err ShelfFault.Failed → self.new.faults ≡ one_more self.old.faults }
        ensures fails { (result ≡ Err ShelfFault.Failed) ↔ Contains self.old.fails self.old.call }
        ensures call { self.new.call ≡ one_more self.old.call }
        ensures plan { self.new.fails ≡ self.old.fails }
        ensures asks { Asks self.old.calls self.new.calls (fetch name.now ∷ []) }
    {
        self.calls = with_fetch(self.alloc, self.calls.take(), name);
        if self.fails_now() {
            return Err(ShelfFault::Failed);
        }
        match bytes_under(&self.files, name) {
            None => Ok(Fetched::Absent),
            Some(bytes) if bytes.len() > most => Ok(Fetched::Longer),
            Some(bytes) => Ok(Fetched::Bytes(bytes.to_vec(self.alloc)?)),
        }
    }

    /// Puts the bytes under the name, and fails exactly the listed calls, which change no file and count one fault each.
    fn store(&mut self, name: &str, bytes: &[u8]) -> Result<(), ShelfFault>
        ensures leaves { StoreLeaves (Some (told_in self.old.files)) (Some (told_in self.new.files))
            name.now bytes.now result }
        ensures failed { result ≡ Err ShelfFault.Failed → self.new.files ≡ self.old.files }
        ensures cause { HasShelfCause self.old.faults self.new.faults result }
        ensures one_fault { result ≡ Err ShelfFault.Failed → self.new.faults ≡ one_more self.old.faults }
        ensures fails { (result ≡ Err ShelfFault.Failed) ↔ Contains self.old.fails self.old.call }
        ensures call { self.new.call ≡ one_more self.old.call }
        ensures plan { self.new.fails ≡ self.old.fails }
        ensures asks { Asks self.old.calls self.new.calls (store name.now ∷ []) }
    {
        self.calls = with_store(self.alloc, self.calls.take(), name);
        if self.fails_now() {
            return Err(ShelfFault::Failed);
        }
        Ok(put(self.alloc, &mut self.files, name, bytes)?)
    }
}
