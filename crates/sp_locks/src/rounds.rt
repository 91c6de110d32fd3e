//! The rounds of sheets that stay as they are but for these.
ghost use Rattle.std.specs.Prelude.{◌≡◌, ◌<◌, length, map};
ghost use Rattle.spec_labels.specs.PageRecords.{AreStarts, ArePages, sheets_of_records};
ghost use Rattle.sp_locks.specs.Rounds.{AreButForRounds, in_round};

use crate::segments::{greatest_round, pages_end, run_end, segment_at};
use crate::{PageRecord, Sheet};

/// Gives all of these sheets a round.
fn set_rounds(sheets: &mut [Sheet], round: u8)
    ensures { sheets.new ≡ map (in_round round) sheets.old }
{
    for sheet in sheets.iter_mut() {
        sheet.round = round;
    }
}

/// Gives sheets the rounds that records give them (docs/RULES.md, "Page records"). They are those of records with these starts, on
/// these pages of a text of so many rows, but for their rounds; of records, starts and pages is asked what `sheets` asks. It takes
/// no memory.
pub fn renew_rounds(
    records: &[PageRecord],
    starts: &[usize],
    pages: &[usize],
    rows: usize,
    sheets: &mut [Sheet],
)
    requires some { 0 < length records.now }
    requires starts { AreStarts rows records.now starts.now }
    requires pages { ArePages rows starts.now pages.now }
    requires sheets { AreButForRounds sheets.old (sheets_of_records rows records.now starts.now pages.now) }
    ensures { sheets.new ≡ sheets_of_records rows records.now starts.now pages.now }
{
    let mut index = 0;
    let mut page = 0;
    let mut place = 0;
    while index < records.len() {
        let segment = segment_at(records, starts, rows, index);
        let owner = segment.owner;
        if segment.is_empty() {
            let behind = run_end(starts, rows, index);
            let round = greatest_round(owner, &records[index + 1..behind]);
            set_rounds(&mut sheets[place..place + 1], round);
            place += 1;
            index = behind;
        } else {
            let behind = pages_end(pages, page, segment.end);
            let end = place + (behind - page);
            set_rounds(&mut sheets[place..end], owner.changed);
            place = end;
            page = behind;
            index += 1;
        }
    }
}
