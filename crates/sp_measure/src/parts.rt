//! Parts of a text that have their clusters by themselves.
ghost use Rattle.std.specs.Prelude.{◌≡◌, ◌<◌, ◌≤◌, ◌++◌, true, length, drop, slice_range};
ghost use Rattle.std.specs.Str.{IsCharBoundary};
ghost use Rattle.unicode_segmentation.specs.Grapheme.{graphemes};
ghost use Rattle.sp_measure.specs.Plain.{plain_length};

/// How many bytes the character has that begins with this byte, if it is printable ASCII or a letter from U+00C0 to U+02FF, and 0
/// for any other.
pub fn plain_length(byte: u8) -> usize
    ensures { result ≡ plain_length byte }
{
    match byte {
        0x20..=0x7E => 1,
        0xC3..=0xCB => 2,
        _ => 0,
    }
}

/// Where the part ends that begins at a place: between two such characters, of which no rule joins one with another, or at the
/// end of the text. The clusters from the place on are those of the part and those behind it.
pub fn part_end(text: &str, at: usize) -> usize
    requires small { length text.now ≤ 4096 }
    requires inside { at < length text.now }
    requires start { IsCharBoundary text.now at }
    ensures after { at < result }
    ensures boundary { IsCharBoundary text.now result }
    ensures parts { graphemes true (drop at text.now)
        ≡ graphemes true (slice_range text.now at result) ++ graphemes true (drop result text.now) }
{
    let bytes = text.as_bytes();
    let mut end = at;
    let mut last = 0;
    while end < bytes.len() {
        let size = plain_length(bytes[end]);
        if size > 0 && last > 0 {
            return end;
        }
        end += size.max(1);
        last = size;
    }
    bytes.len()
}
