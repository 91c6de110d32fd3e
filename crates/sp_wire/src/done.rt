//! The lines of replies that tell what a command did, written into a buffer that has room for them. Nothing here takes
//! memory.
ghost use Rattle.std.specs.Prelude.{◌≡◌, ◌+◌, ◌≤◌, ◌++◌, [], length, decimal, vec_len, vec_capacity};
ghost use Rattle.std.specs.Bool.{OnTrue};
ghost use Rattle.json.specs.Print.{quoted};
ghost use Rattle.spec_wire.specs.Replies.{refused};
ghost use Rattle.spec_wire.specs.Spelling.{IsWord};
ghost use Rattle.sp_wire.specs.Values.{refusal_of, reply_of};
ghost use Rattle.sp_wire.specs.Done.{IsFront, IsPlain, TellsPlainly, may_have_changed, line_room};

use crate::{Refusal, Reply};
use itoa::Buffer;

/// The bytes that the line of such a reply has room in.
pub(crate) const LINE_ROOM: usize = 256;

/// Puts bytes behind others.
pub(crate) fn put_bytes(line: &mut Vec<u8>, bytes: &[u8])
    requires room { vec_len line.old + length bytes.now ≤ vec_capacity line.old }
    ensures items { line.new.items ≡ line.old.items ++ bytes.now }
    ensures capacity { vec_capacity line.old ≤ vec_capacity line.new }
{
    match line.extend_from_slice(bytes) {
        Ok(()) => {}
        Err(_) => unreachable!(),
    }
}

/// Puts bytes and then a number behind others.
pub(crate) fn put_number(line: &mut Vec<u8>, before: &[u8], number: u64)
    requires room { vec_len line.old + length before.now + 20 ≤ vec_capacity line.old }
    ensures items { line.new.items ≡ line.old.items ++ (before.now ++ decimal number) }
    ensures short { length (decimal number) ≤ 20 }
    ensures word { IsWord number }
    ensures capacity { vec_capacity line.old ≤ vec_capacity line.new }
{
    let mut buffer = Buffer::new();
    let digits = buffer.format(number);
    put_bytes(line, before);
    put_bytes(line, digits.as_bytes());
}

/// Puts bytes and then a text in quotes behind others.
fn put_text(line: &mut Vec<u8>, before: &[u8], text: &str)
    requires plain { IsPlain text.now }
    requires room { vec_len line.old + length before.now + length text.now + 2 ≤ vec_capacity line.old }
    ensures items { line.new.items ≡ line.old.items ++ (before.now ++ quoted text.now) }
    ensures capacity { vec_capacity line.old ≤ vec_capacity line.new }
{
    put_bytes(line, before);
    put_bytes(line, b"\"");
    put_bytes(line, text.as_bytes());
    put_bytes(line, b"\"");
}

/// Whether a refusal tells that a store failed.
fn is_shelf(reason: &Refusal) -> bool
    ensures { result ≡ may_have_changed (refused (refusal_of reason.now)) }
{
    matches!(reason, Refusal::Shelf)
}

/// Begins the line of a reply that tells what a command did, up to the bracket that closes it. False says that the reply is none
/// of these, and nothing was put.
pub(crate) fn put_front(line: &mut Vec<u8>, reply: &Reply) -> bool
    requires empty { line.old.items ≡ [] }
    requires room { line_room ≤ vec_capacity line.old }
    requires plain { TellsPlainly (reply_of reply.now) }
    ensures told { result ≡ may_have_changed (reply_of reply.now) }
    ensures front { OnTrue result (IsFront line.new.items (reply_of reply.now)) }
    ensures capacity { vec_capacity line.old ≤ vec_capacity line.new }
{
    match reply {
        Reply::Edited { lines, sheets } => {
            put_number(line, b"{\"lines\":", *lines);
            put_number(line, b",\"ok\":true,\"sheets\":", *sheets);
        }
        Reply::Set { sheets } => put_number(line, b"{\"ok\":true,\"sheets\":", *sheets),
        Reply::Scenes(records) => put_number(line, b"{\"ok\":true,\"scenes\":", *records),
        Reply::Pages(records) => put_number(line, b"{\"ok\":true,\"pages\":", *records),
        Reply::Round { name, round } => {
            put_text(line, b"{\"name\":", name.as_str());
            put_number(line, b",\"ok\":true,\"round\":", u64::from(*round));
        }
        Reply::Saved(digest) => {
            put_text(line, b"{\"digest\":", digest.as_str());
            put_bytes(line, b",\"ok\":true");
        }
        Reply::Refused(reason) => {
            if !is_shelf(reason) {
                return false;
            }
            put_bytes(line, b"{\"no\":\"Shelf\"");
        }
        _ => return false,
    }
    true
}
