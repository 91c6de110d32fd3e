//! Spaces, which are U+0020 and tabs (docs/RULES.md, "Letter tests").
ghost use Rattle.std.specs.Prelude.{◌≡◌, ◌≤◌, ◌+◌, length};
ghost use Rattle.std.specs.List.{list_all, prefix_len, suffix_len};
ghost use Rattle.spec_script.specs.Trim.{is_space, trim};

/// Whether a byte is a space: U+0020 or a tab.
pub fn is_space(byte: u8) -> bool
    ensures { result ≡ is_space byte }
{
    byte == b' ' || byte == b'\t'
}

/// Whether all bytes are spaces.
pub fn all_spaces(bytes: &[u8]) -> bool
    ensures { result ≡ list_all is_space bytes.now }
{
    bytes.iter().all(|byte| is_space(*byte))
}

/// A text without spaces at its ends.
pub fn trim(text: &str) -> &str
    ensures { result.now ≡ trim text.now }
{
    let bytes = text.as_bytes();
    let from = spaces_before(bytes);
    let to = from.max(end_before_spaces(bytes));
    &text[from..to]
}

/// How many spaces stand at the beginning.
pub fn spaces_before(bytes: &[u8]) -> usize
    ensures value { result ≡ prefix_len is_space bytes.now }
    ensures within { result ≤ length bytes.now }
{
    for (count, byte) in bytes.iter().enumerate() {
        if !is_space(*byte) {
            return count;
        }
    }
    bytes.len()
}

/// The place behind the last byte that is no space, or 0.
pub fn end_before_spaces(bytes: &[u8]) -> usize
    ensures { result + suffix_len is_space bytes.now ≡ length bytes.now }
{
    let mut end = bytes.len();
    while end > 0 {
        if !is_space(bytes[end - 1]) {
            return end;
        }
        end -= 1;
    }
    end
}
