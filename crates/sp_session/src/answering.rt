ghost use Rattle.std.specs.Prelude.{◌≡◌, ◌+◌, ◌<◌, ◌≤◌, IfSome, OnOk};
ghost use Rattle.spec_session.specs.CommandLines.{command_count_limit, KeepsLimits};
ghost use Rattle.spec_session.specs.Runs.{at_shelf, counts_of};
ghost use Rattle.spec_session.specs.Sessions.{streams, SessionEnds, Tells, Settles, AnswersAll, FailedNothing};
ghost use Rattle.sp_session.specs.Answering.{AnswersLine, end_of};

use crate::lines::{CommandLines, LineStop, NextLine};
use crate::responder::Responder;
use sp_kit::{Shelf, Sink, Source, Steps, write_whole};
use spec_session::SessionEnd;
use std::alloc::Global;

/// Answers the command lines of the source in order, each as soon as it is whole and with the shelf at hand, and writes
/// each reply whole before it goes on. A session ends at the first of what `SessionEnd` tells (docs/RULES.md, "Sessions"). `ReadFault` and
/// `WriteFault` come only where that count of faults rose in this call, `CommandLong` and `InputFull` exactly where a
/// line or their number passes its limit, and at most one byte past a limit is read. What answers has to last for as many
/// lines as a session may have.
pub fn session<R: Responder, I: Source, O: Sink, F: Shelf, S: Steps>(
    alloc: Global,
    responder: &mut R,
    input: &mut I,
    output: &mut O,
    shelf: &mut F,
    steps: &mut S,
) -> SessionEnd
    requires lasts { command_count_limit ≤ R.lasts responder.old }
    ensures ends { SessionEnds R.answers R.stops (streams (I.state input.old) (O.state output.old))
        (streams (I.state input.new) (O.state output.new))
        (at_shelf responder.old (F.state shelf.old) (counts_of (S.reads steps.old) (S.fills steps.old)))
        (at_shelf responder.new (F.state shelf.new) (counts_of (S.reads steps.new) (S.fills steps.new))) result }

    // What the end tells of the whole input, where the source tells it.
    ensures tells { IfSome (I.state input.old).unread (λ all. Tells all result) }

    // Where nothing outside fails, it is the end that the input asks for: Done exactly where the limits are kept.
    ensures settles { FailedNothing (streams (I.state input.old) (O.state output.old))
        (streams (I.state input.new) (O.state output.new))
        → IfSome (I.state input.old).unread (λ all. Settles all result) }
    ensures complete { FailedNothing (streams (I.state input.old) (O.state output.old))
        (streams (I.state input.new) (O.state output.new))
        → IfSome (I.state input.old).unread (λ all. KeepsLimits all → AnswersAll result) }
{
    answer_lines(alloc, responder, input, output, shelf, steps)
}

/// Answers line after line until the session ends.
fn answer_lines<R: Responder, I: Source, O: Sink, F: Shelf, S: Steps>(
    alloc: Global,
    responder: &mut R,
    input: &mut I,
    output: &mut O,
    shelf: &mut F,
    steps: &mut S,
) -> SessionEnd
    requires lasts { command_count_limit ≤ R.lasts responder.old }
    ensures { SessionEnds R.answers R.stops (streams (I.state input.old) (O.state output.old))
        (streams (I.state input.new) (O.state output.new))
        (at_shelf responder.old (F.state shelf.old) (counts_of (S.reads steps.old) (S.fills steps.old)))
        (at_shelf responder.new (F.state shelf.new) (counts_of (S.reads steps.new) (S.fills steps.new))) result }
{
    let mut lines = match CommandLines::new(alloc) {
        Ok(lines) => lines,
        Err(_) => return SessionEnd::NoMemory,
    };
    loop {
        match lines.next(input) {
            Ok(NextLine::Whole) => {
                if let Err(end) = answer_line(responder, lines.line(), output, shelf, steps) {
                    return end;
                }
            }
            Ok(NextLine::Last) => {
                if let Err(end) = answer_line(responder, lines.line(), output, shelf, steps) {
                    return end;
                }
                return SessionEnd::Done;
            }
            Ok(NextLine::End) => return SessionEnd::Done,
            Err(stop) => return end_of(stop),
        }
    }
}

/// Answers one line and writes the reply whole.
fn answer_line<R: Responder, O: Sink, F: Shelf, S: Steps>(
    responder: &mut R,
    line: &[u8],
    output: &mut O,
    shelf: &mut F,
    steps: &mut S,
) -> Result<(), SessionEnd>
    requires can { 0 < R.lasts responder.old }
    ensures answers { AnswersLine R.answers R.stops (O.state output.old) (O.state output.new)
        (at_shelf responder.old (F.state shelf.old) (counts_of (S.reads steps.old) (S.fills steps.old)))
        (at_shelf responder.new (F.state shelf.new) (counts_of (S.reads steps.new) (S.fills steps.new)))
        line.now result }
    ensures lasts_on { OnOk result (R.lasts responder.old ≤ R.lasts responder.new + 1) }
{
    let reply = match responder.answer(line, shelf, steps) {
        Ok(reply) => reply,
        Err(_) => return Err(SessionEnd::NoMemory),
    };
    match write_whole(output, reply.as_slice()) {
        Ok(()) => Ok(()),
        Err(_) => Err(SessionEnd::WriteFault),
    }
}

/// How a session ends that has no next line.
fn end_of(stop: LineStop) -> SessionEnd
    ensures { result ≡ end_of stop }
{
    match stop {
        LineStop::Read => SessionEnd::ReadFault,
        LineStop::Long(number) => SessionEnd::CommandLong(number),
        LineStop::TooMany => SessionEnd::InputFull,
    }
}
