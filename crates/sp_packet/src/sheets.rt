ghost use Rattle.std.specs.Prelude.{◌≡◌, ◌==◌, ◌∷◌, ◌++◌, [], IfOk, IfErr, OnOk, MatchOption, length};
ghost use Rattle.spec_packet.specs.SheetReadings.{sheets, sheets_in, follows};
ghost use Rattle.sp_packet.specs.Cuts.{IsUncut, IsCut};
ghost use Rattle.sp_packet.specs.Reading.{Adds, last_label};
ghost use Rattle.sp_packet.specs.Collating.{IsNotAdded, IsNotRead, fault_of};

use crate::fault::CollateFault;
use crate::header::{SheetLabel, cut_at, ends_in_stop, header_labels};
use sp_labels::compare;
use std::alloc::{AllocError, Global};
use std::cmp::Ordering;
use std::marker::Model;

/// A printed sheet with its labels.
#[derive(Drop)]
pub struct PrintedSheet<'a> {
    pub label: SheetLabel,
    pub bytes: &'a [u8],
}

impl<'a> Model for PrintedSheet<'a> {
    ghost use Rattle.spec_packet.specs.SheetLists.{PrintedOf};

    ghost Value = { PrintedOf };

    ghost view = { λ s. record { label = s.label; bytes = s.bytes.now } };
}

/// A list of printed sheets: title sheets, which have no label, and behind them the others (docs/RULES.md, "Collation").
#[derive(Drop)]
pub struct SheetList<'a> {
    pub titles: Vec<&'a [u8]>,
    pub sheets: Vec<PrintedSheet<'a>>,
}

impl<'a> Model for SheetList<'a> {
    ghost use Rattle.std.specs.Prelude.{map};
    ghost use Rattle.spec_packet.specs.SheetLists.{SheetListOf};

    ghost Value = { SheetListOf };

    ghost view = { λ l. record { titles = map (λ t. t.now) l.titles.items; labelled = l.sheets.items } };
}

/// Why a piece of the bytes doesn't go on with a list of sheets.
#[derive(Clone, Copy, PartialEq, Eq, Drop)]
pub enum SheetFault {
    /// It is no sheet, or its labels aren't behind those of the sheets before it.
    NoSheet,
    /// There is no memory.
    NoMemory,
}

impl From<AllocError> for SheetFault {
    ghost use Rattle.std.specs.Prelude.{◌≡◌};
    ghost use Rattle.sp_packet.specs.declared.sheets.SheetFault.TheVariants.{NoMemory};

    ghost from_gives = { λ _ r. r ≡ NoMemory };

    fn from(_error: AllocError) -> SheetFault {
        SheetFault::NoMemory
    }
}

impl<'a> SheetList<'a> {
    /// No sheets.
    fn new(alloc: Global) -> Self
        ensures { result ≡ record { titles = []; labelled = [] } }
    {
        SheetList {
            titles: Vec::new(alloc),
            sheets: Vec::new(alloc),
        }
    }

    /// Puts a title sheet behind the others.
    fn add_title(&mut self, bytes: &'a [u8]) -> Result<(), AllocError>
        ensures { OnOk result
            (self.new ≡ record { titles = self.old.titles ++ bytes.now ∷ []; labelled = self.old.labelled }) }
    {
        self.titles.push(bytes)?;
        Ok(())
    }

    /// Puts a sheet with labels behind the others.
    fn add_sheet(&mut self, label: SheetLabel, bytes: &'a [u8]) -> Result<(), AllocError>
        ensures { OnOk result (self.new ≡ record {
          titles = self.old.titles;
          labelled = self.old.labelled ++ record { label = label; bytes = bytes.now } ∷ [];
        }) }
    {
        self.sheets.push(PrintedSheet { label, bytes })?;
        Ok(())
    }

    /// Only title sheets are there.
    fn has_only_titles(&self) -> bool
        ensures { result ≡ (length self.now.labelled == 0) }
    {
        self.sheets.is_empty()
    }

    /// A sheet with these labels may stand behind the others.
    fn goes_on_with(&self, label: &SheetLabel) -> bool
        ensures { result ≡ follows (last_label self.now) label.now.first }
    {
        match self.sheets.last() {
            Some(sheet) => compare(&sheet.label.last, &label.first) == Ordering::Less,
            None => true,
        }
    }

    /// Puts the next sheet behind the others: a piece of the bytes, and the same with its form feed.
    fn add(&mut self, alloc: Global, piece: &[u8], whole: &'a [u8]) -> Result<(), SheetFault>
        requires { whole.now ≡ piece.now ++ 12 ∷ [] }
        ensures added { OnOk result (Adds self.old piece.now self.new) }
        ensures refused { IfErr result (IsNotAdded self.old piece.now) }
    {
        let Some((header, _)) = cut_at(piece, b'\n') else {
            return Err(SheetFault::NoSheet);
        };
        if !ends_in_stop(header) {
            if !self.has_only_titles() {
                return Err(SheetFault::NoSheet);
            }
            self.add_title(whole)?;
            return Ok(());
        }
        let Some(label) = header_labels(alloc, header)? else {
            return Err(SheetFault::NoSheet);
        };
        if !self.goes_on_with(&label) {
            return Err(SheetFault::NoSheet);
        }
        self.add_sheet(label, whole)?;
        Ok(())
    }
}

/// The first sheet of bytes without its form feed and with it, and what stands behind it; `None` where there is no form feed.
fn first_sheet(bytes: &[u8]) -> Option<(&[u8], &[u8], &[u8])>
    ensures { MatchOption result (IsUncut (λ b. b == 12) bytes.now) (λ parts.
        IsCut (λ b. b == 12) bytes.now parts.0.now parts.2.now × (parts.1.now ≡ parts.0.now ++ 12 ∷ [])) }
{
    match cut_at(bytes, 12) {
        Some((piece, behind)) => Some((piece, &bytes[..piece.len() + 1], behind)),
        None => None,
    }
}

/// The list of sheets that a file's bytes are (docs/RULES.md, "Collation").
pub fn read_sheets<'a>(
    alloc: Global,
    file: u8,
    bytes: &'a [u8],
) -> Result<SheetList<'a>, CollateFault>
    ensures list { IfOk result (λ list. sheets_in bytes.now ≡ sheets list) }
    ensures refused { IfErr result (IsNotRead file bytes.now) }
{
    let mut list = SheetList::new(alloc);
    let mut rest = bytes;
    let mut place = 0;
    while !rest.is_empty() {
        let Some((piece, whole, behind)) = first_sheet(rest) else {
            return Err(CollateFault::BadSheets { file, sheet: place });
        };
        if let Err(fault) = list.add(alloc, piece, whole) {
            return Err(fault_of(fault, file, place));
        }
        rest = behind;
        place += 1;
    }
    Ok(list)
}

/// The fault of a file at a sheet.
fn fault_of(fault: SheetFault, file: u8, sheet: u64) -> CollateFault
    ensures { result ≡ fault_of fault file sheet }
{
    match fault {
        SheetFault::NoSheet => CollateFault::BadSheets { file, sheet },
        SheetFault::NoMemory => CollateFault::NoMemory,
    }
}
