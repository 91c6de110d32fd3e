//! Files as a shelf. It tells no content and no calls, and counts a fault at each error of a store, and at each of a fetch but those of a missing
//! file and of want of memory. A store takes the place of no file that another program wrote.
ghost use Rattle.std.specs.Prelude.{◌≡◌, ◌≤◌, ℕ, List, None, Some, Ok, IfSome, IfOk, IsTrue, OnErr, OnOk};
ghost use Rattle.std.specs.Io.KnownBytes.{Appends};
ghost use Rattle.std.specs.BTreeMap.{get_by_text};
ghost use Rattle.sp_kit.specs.Causes.{Rose};
ghost use Rattle.sp_kit.specs.Files.{FetchesAtMost, FetchGives, HasShelfCause};
ghost use Rattle.sp_system.specs.Known.{IsAsKnown, KeepsKnown, KnowsBytes, KnowsFetched, KnowsOthers};

use crate::known::{Content, Known, Names, know, know_fetched, make_room};
use sp_kit::{Fetched, Shelf, ShelfFault};
use std::alloc::Global;
use std::collections::BTreeMap;
use std::fs::{self, File, Metadata, OpenFile, OpenOptions, Permissions};
use std::io::{self, ErrorKind, Read, Write};
use std::path::{Path, PathBuf};
use std::rt::Files;

/// How many names are tried for a file that is written beside another.
const TRIES: u32 = 100;

/// How many links are followed from a name.
const LINKS: u32 = 40;

/// The files of the system, each under its path.
#[derive(Drop)]
pub struct FileShelf<'a, R: Files> {
    system: &'a R,
    alloc: Global,
    guards: bool,
    names: Names,
    faults: u64,
}

impl<'a, R: Files> FileShelf<'a, R> {
    /// The files of this system; none is known, and no fault is counted yet. Where it `guards` them, what is fetched is known from
    /// then on, for a digest of its bytes; what only fetches needs no guard. Takes no memory.
    pub fn new(alloc: Global, system: &'a R, guards: bool) -> Self
        ensures guards { result.guards ≡ guards }
        ensures names { (name : List ℕ) → get_by_text result.names name ≡ None }
        ensures faults { result.faults ≡ 0 }
    {
        FileShelf {
            system,
            alloc,
            guards,
            names: BTreeMap::new(alloc),
            faults: 0,
        }
    }
}

/// A failure, which is counted.
fn failed(faults: &mut u64) -> ShelfFault
    ensures fault { result ≡ ShelfFault.Failed }
    ensures later { faults.old ≤ faults.new }
    ensures rose { Rose faults.old faults.new }
{
    *faults = faults.saturating_add(1);
    ShelfFault::Failed
}

/// The bytes of a file, all of them, or that there are more than `most`. It reads at most one byte more.
fn read_file<R: Read + Drop>(file: R, alloc: Global, most: usize) -> io::Result<Fetched>
    ensures bound { IfOk result (λ fetched. FetchesAtMost most (Ok fetched)) }
    ensures gives { IfOk result (λ fetched.
        IfSome (R.remaining file) (λ bytes. FetchGives (Some bytes) most (Ok fetched))) }
{
    let mut bytes = Vec::new(alloc);
    file.take((most as u64).saturating_add(1))
        .read_to_end(&mut bytes)?;
    if bytes.len() > most {
        Ok(Fetched::Longer)
    } else {
        Ok(Fetched::Bytes(bytes))
    }
}

/// Writes all of the bytes to a file.
fn write_file<W: Write>(file: &mut W, bytes: &[u8]) -> io::Result<()>
    ensures { OnOk result (Appends (W.contents file.old) (W.contents file.new) bytes.now) }
{
    file.write_all(bytes)
}

/// What the system tells of the file under this name; none where there is no such file. What isn't a file fails.
fn find_file<R: Files>(system: &R, name: &str) -> io::Result<Option<Metadata>> {
    match fs::metadata(system, name) {
        Ok(metadata) if metadata.is_file() => Ok(Some(metadata)),
        Ok(_) => Err(io::Error::from(ErrorKind::InvalidInput)),
        Err(error) if error.kind() == ErrorKind::NotFound => Ok(None),
        Err(error) => Err(error),
    }
}

/// The permissions of the file under this name, which may be written; none where there is no such file.
fn kept_permissions<R: Files>(system: &R, name: &str) -> io::Result<Option<Permissions>> {
    let Some(metadata) = find_file(system, name)? else {
        return Ok(None);
    };
    OpenOptions::new().write(true).open(system, name)?;
    Ok(Some(metadata.permissions()))
}

/// Succeeds where a file is as it is known.
fn expect_known<R: Read + Drop>(known: &Known, file: R) -> io::Result<()>
    ensures { OnOk result (IfSome (R.remaining file) (IsAsKnown known.now)) }
{
    if known.is_of(file)? {
        Ok(())
    } else {
        Err(io::Error::from(ErrorKind::AlreadyExists))
    }
}

/// Succeeds where each file that is known and still there is as it is known.
fn expect_all_known<R: Files>(system: &R, names: &Names) -> io::Result<()> {
    for (name, known) in names {
        if let Some(known) = known
            && find_file(system, name.as_str())?.is_some()
        {
            expect_known(known, fs::open(system, name.as_str())?)?;
        }
    }
    Ok(())
}

/// A file that wasn't there, in the folder of this path, and its own path. Its name is short, so that there is one beside every name.
fn create_beside<R: Files>(
    system: &R,
    alloc: Global,
    path: Path<'_>,
) -> io::Result<(R::File, PathBuf)> {
    for number in 0..TRIES {
        let name = format!(in alloc; ".fountain-saving-{number}")?;
        let beside = path.with_file_name(alloc, name.as_str())?;
        match File::create_new(system, beside.as_path()) {
            Ok(file) => return Ok((file, beside)),
            Err(error) if error.kind() == ErrorKind::AlreadyExists => {}
            Err(error) => return Err(error),
        }
    }
    Err(io::Error::from(ErrorKind::AlreadyExists))
}

/// Writes all of the bytes to a new file and through to the disk; it has these permissions before, where the system gives
/// them, so that nobody reads what the old file kept from them.
fn fill_file<W: Write + OpenFile + Drop>(
    file: W,
    permissions: Option<Permissions>,
    bytes: &[u8],
) -> io::Result<()> {
    let mut file = file;
    if let Some(permissions) = permissions {
        let _ = file.set_permissions(permissions);
    }
    write_file(&mut file, bytes)?;
    file.flush()?;
    file.sync_all()
}

/// Fills a new file, and puts it in the place of the one of this path where all files are as they are known then.
fn place_file<R: Files>(
    system: &R,
    names: &Names,
    (file, beside): (R::File, Path<'_>),
    (path, permissions): (Path<'_>, Option<Permissions>),
    bytes: &[u8],
) -> io::Result<()> {
    fill_file(file, permissions, bytes)?;
    expect_all_known(system, names)?;
    fs::rename(system, beside, path)
}

/// Puts the bytes into a file that takes the place of the one of this path. Nothing is left beside where it fails.
fn replace_file<R: Files>(
    system: &R,
    alloc: Global,
    names: &Names,
    path: Path<'_>,
    bytes: &[u8],
) -> io::Result<()> {
    let permissions = kept_permissions(system, path.as_str())?;
    let (file, beside) = create_beside(system, alloc, path)?;
    let placed = place_file(
        system,
        names,
        (file, beside.as_path()),
        (path, permissions),
        bytes,
    );
    if placed.is_err() {
        let _ = fs::remove_file(system, beside.as_path());
    }
    placed
}

/// The path that links lead to from this name, or the name itself where they lead to no file.
fn follow_links<R: Files>(system: &R, alloc: Global, name: &str) -> io::Result<PathBuf> {
    let mut path = PathBuf::from_str(alloc, name)?;
    for _ in 0..LINKS {
        match system.read_link(alloc, path.as_path().as_str()) {
            Ok(target) => {
                let folder = path.as_path().parent().unwrap_or(Path::new(""));
                path = folder.join(alloc, target.as_path())?;
            }
            Err(error) if error.kind() == ErrorKind::InvalidInput => return Ok(path),
            Err(error) if error.kind() == ErrorKind::NotFound => {
                return Ok(PathBuf::from_str(alloc, name)?);
            }
            Err(error) => return Err(error),
        }
    }
    Err(io::Error::from(ErrorKind::FilesystemLoop))
}

/// Puts the bytes under this name, by the path that links lead to, and knows them from here on.
fn store_file<R: Files>(
    system: &R,
    alloc: Global,
    names: &mut Names,
    name: &str,
    bytes: &[u8],
) -> io::Result<()>
    ensures known { OnOk result (KnowsBytes (get_by_text names.new name.now) bytes.now) }
    ensures others { KnowsOthers names.old names.new name.now }
    ensures kept { OnErr result (KeepsKnown names.old names.new) }
{
    make_room(alloc, names, name)?;
    let path = follow_links(system, alloc, name)?;
    replace_file(system, alloc, names, path.as_path(), bytes)?;
    know(names, name, Known::Bytes(Content::of(bytes)));
    Ok(())
}

impl<'a, R: Files> Shelf for FileShelf<'a, R> {
    ghost use Rattle.std.specs.declared.option.Option.TheVariants.{None};

    ghost state = { λ s. record { files = None; faults = s.faults; calls = None } };

    /// Reads at most one byte more than `most`, and knows what it gives from here on, where it guards files. What is known of other
    /// files stays.
    fn fetch(&mut self, name: &str, most: usize) -> Result<Fetched, ShelfFault>
        ensures bound { FetchesAtMost most result }
        ensures cause { HasShelfCause self.old.faults self.new.faults result }
        ensures known { IsTrue self.old.guards → IfOk result (KnowsFetched (get_by_text self.new.names name.now)) }
        ensures others { KnowsOthers self.old.names self.new.names name.now }
        ensures kept { OnErr result (KeepsKnown self.old.names self.new.names) }
        ensures guards { self.new.guards ≡ self.old.guards }
    {
        let fetched = match fs::open(self.system, name) {
            Ok(file) => read_file(file, self.alloc, most),
            Err(error) if error.kind() == ErrorKind::NotFound => Ok(Fetched::Absent),
            Err(error) => Err(error),
        };
        match fetched {
            Ok(fetched) => {
                if self.guards {
                    know_fetched(self.alloc, &mut self.names, name, &fetched)?;
                }
                Ok(fetched)
            }
            Err(error) if error.kind() == ErrorKind::OutOfMemory => Err(ShelfFault::NoMemory),
            Err(_) => Err(failed(&mut self.faults)),
        }
    }

    /// Writes the bytes beside the file first, and then puts them in its place. Where it fails the file is as it was, or
    /// has the bytes. It fails where a file that was fetched or stored isn't as it is known any more, and is still there. What is known
    /// of other files stays, and where it fails all that is known.
    fn store(&mut self, name: &str, bytes: &[u8]) -> Result<(), ShelfFault>
        ensures cause { HasShelfCause self.old.faults self.new.faults result }
        ensures known { OnOk result (KnowsBytes (get_by_text self.new.names name.now) bytes.now) }
        ensures others { KnowsOthers self.old.names self.new.names name.now }
        ensures kept { OnErr result (KeepsKnown self.old.names self.new.names) }
        ensures guards { self.new.guards ≡ self.old.guards }
    {
        match store_file(self.system, self.alloc, &mut self.names, name, bytes) {
            Ok(()) => Ok(()),
            Err(_) => Err(failed(&mut self.faults)),
        }
    }
}
