//! Bytes that were read and not handed out.
ghost use Rattle.std.specs.Prelude.{◌≡◌, ◌+◌, ◌<◌, ◌≤◌, length, drop, position, vec_len, vec_capacity};
ghost use Rattle.spec_session.specs.CommandLines.{is_feed};
ghost use Rattle.sp_session.specs.Reading.{ReadsBehind};

use sp_kit::{Failed, Source};

/// The place of the first line feed.
pub fn feed_in(bytes: &[u8]) -> Option<usize>
    ensures { result ≡ position is_feed bytes.now }
{
    bytes.iter().position(|byte| *byte == b'\n')
}

/// Drops the first bytes. Takes no memory.
pub fn drop_front(bytes: &mut Vec<u8>, count: usize)
    requires { count ≤ vec_len bytes.old }
    ensures items { bytes.new.items ≡ drop count bytes.old.items }
    ensures capacity { vec_capacity bytes.new ≡ vec_capacity bytes.old }
{
    if count > 0 {
        let rest = bytes.len() - count;
        bytes.copy_within(count.., 0);
        bytes.truncate(rest);
    }
}

/// Reads once, at most so many bytes, and puts what came behind the bytes, which have room for it. False says that the
/// source is at its end. Takes no memory.
pub fn read_behind<I: Source>(
    input: &mut I,
    most: usize,
    piece: &mut Vec<u8>,
    bytes: &mut Vec<u8>,
) -> Result<bool, Failed>
    requires some { 0 < most }
    requires within { most ≤ vec_len piece.old }
    requires room { vec_len bytes.old + most ≤ vec_capacity bytes.old }
    ensures read { ReadsBehind (I.state input.old) (I.state input.new) most bytes.old.items bytes.new.items result }
    ensures piece { vec_len piece.new ≡ vec_len piece.old }
    ensures capacity { vec_capacity bytes.old ≤ vec_capacity bytes.new }
{
    read_piece(input, &mut piece[..most], bytes)
}

/// Reads once into the piece, and puts what came behind the bytes.
fn read_piece<I: Source>(
    input: &mut I,
    piece: &mut [u8],
    bytes: &mut Vec<u8>,
) -> Result<bool, Failed>
    requires some { 0 < length piece.old }
    requires room { vec_len bytes.old + length piece.old ≤ vec_capacity bytes.old }
    ensures read { ReadsBehind (I.state input.old) (I.state input.new)
        (length piece.old) bytes.old.items bytes.new.items result }
    ensures capacity { vec_capacity bytes.old ≤ vec_capacity bytes.new }
{
    let count = input.read(piece)?;
    match bytes.extend_from_slice(&piece[..count]) {
        Ok(()) => Ok(count > 0),
        Err(_) => unreachable!(),
    }
}
