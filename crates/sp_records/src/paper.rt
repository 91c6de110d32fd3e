ghost use Rattle.std.specs.Prelude.{◌≡◌};
ghost use Rattle.spec_records.specs.RecordFile.{paper_name};

use spec_pages::Paper;

/// The name of a paper in a record file: `letter` or `a4` (docs/RULES.md, "Record file"). It takes no memory.
pub fn paper_name(paper: Paper) -> &'static str
    ensures { result.now ≡ paper_name paper }
{
    match paper {
        Paper::Letter => "letter",
        Paper::A4 => "a4",
    }
}
