ghost use Rattle.std.specs.Prelude.{◌≡◌, ◌+◌, ◌<◌, ◌≤◌, ◌↔◌, [], length, IsTrue, IfOk};
ghost use Rattle.std.specs.Bool.{OnTrue, OnFalse};
ghost use Rattle.spec_session.specs.CommandLines.{command_limit, command_count_limit, HasNoFeed};
ghost use Rattle.sp_session.specs.CutState.{HasBudget, HandsOut, HasNoLine};
ghost use Rattle.sp_session.specs.Reading.{ReadsOnce};
ghost use Rattle.sp_session.specs.Cutting.{CutsLast, AsksNext};

use crate::buffer::{drop_front, feed_in, read_behind};
use sp_kit::{Failed, Source};
use std::alloc::{AllocError, Global};
use std::marker::Model;

/// The most bytes of a command line, without its line feed.
const LINE_LIMIT: usize = 1_048_576;

/// The most command lines of a session.
const COUNT_LIMIT: usize = 1_000_000;

/// The most bytes that are asked for in one call.
const PIECE: usize = 65_536;

/// What came when the next command line was asked for.
#[derive(Clone, Copy, PartialEq, Eq, Drop)]
pub enum NextLine {
    /// A line that a line feed ends.
    Whole,
    /// What follows the last line feed, at the end of the source.
    Last,
    /// The source is at its end, and nothing is left.
    End,
}

/// Why there is no next command line.
#[derive(Clone, Copy, PartialEq, Eq, Drop)]
pub enum LineStop {
    /// The source failed.
    Read,
    /// The line with this number, from 0, is the first that is too long.
    Long(u64),
    /// A byte came behind the last line that a session may have.
    TooMany,
}

/// Command lines cut from a source at line feeds, one by one (docs/RULES.md, "Sessions").
#[derive(Drop)]
pub struct CommandLines {
    bytes: Vec<u8>,
    piece: Vec<u8>,
    line_from: usize,
    line_to: usize,
    from: usize,
    scanned: usize,
    count: usize,
}

impl Model for CommandLines {
    ghost use Rattle.std.specs.Prelude.{◌≤◌, drop, slice_range};
    ghost use Rattle.sp_session.specs.CutState.{CutState};
    ghost use Rattle.sp_session.specs.Buffered.{IsBuffered};

    ghost Value = { CutState };

    ghost view = { λ s. record { line = slice_range s.bytes.items s.line_from s.line_to; pending = drop s.from s.bytes.items; count = s.count } };

    ghost invariant = { λ s. IsBuffered s.bytes s.piece s.line_from s.line_to s.from s.scanned s.count };
}

impl CommandLines {
    /// No line is cut yet. Takes room for one line, one byte more and a piece; later calls take no memory.
    pub fn new(alloc: Global) -> Result<CommandLines, AllocError>
        ensures { IfOk result (λ lines. lines ≡ record { line = []; pending = []; count = 0 }) }
    {
        let bytes = Vec::with_capacity(alloc, LINE_LIMIT + 1)?;
        let piece = vec![in alloc; 0u8; PIECE]?;
        Ok(CommandLines {
            bytes,
            piece,
            line_from: 0,
            line_to: 0,
            from: 0,
            scanned: 0,
            count: 0,
        })
    }

    /// The line that was cut last, without its line feed.
    pub fn line(&self) -> &[u8]
        ensures { result.now ≡ self.now.line }
    {
        &self.bytes[self.line_from..self.line_to]
    }

    /// Cuts the next line that is whole, if there is one.
    fn cut(&mut self) -> bool
        requires { 0 < length self.old.pending → self.old.count < command_count_limit }
        ensures cut { OnTrue result (HandsOut self.old self.new) }
        ensures none { OnFalse result (HasNoLine self.old self.new) }
        ensures budget { HasBudget self.new }
    {
        match feed_in(&self.bytes[self.scanned..]) {
            Some(place) => {
                self.line_from = self.from;
                self.line_to = self.scanned + place;
                self.from = self.line_to + 1;
                self.scanned = self.from;
                self.count += 1;
                true
            }
            None => {
                self.scanned = self.bytes.len();
                false
            }
        }
    }

    /// Reads once behind what is pending, at most one byte past a limit. False says that the source is at its end.
    fn read<I: Source>(&mut self, input: &mut I) -> Result<bool, Failed>
        requires plain { HasNoFeed self.old.pending }
        requires short { length self.old.pending ≤ command_limit }
        requires room { 0 < length self.old.pending → self.old.count < command_count_limit }
        ensures read { ReadsOnce (I.state input.old) (I.state input.new) self.old self.new result }
        ensures budget { HasBudget self.new }
    {
        drop_front(&mut self.bytes, self.from);
        self.line_from = 0;
        self.line_to = 0;
        self.from = 0;
        self.scanned = self.bytes.len();
        let most = PIECE
            .min(LINE_LIMIT + 1 - self.bytes.len())
            .min(COUNT_LIMIT - self.count + 1);
        read_behind(input, most, &mut self.piece, &mut self.bytes)
    }

    /// Hands out what follows the last line feed, where it has a byte.
    fn cut_last(&mut self) -> NextLine
        requires plain { HasNoFeed self.old.pending }
        requires room { 0 < length self.old.pending → self.old.count < command_count_limit }
        ensures last { CutsLast self.old self.new result }
        ensures budget { HasBudget self.new }
    {
        if self.from == self.bytes.len() {
            return NextLine::End;
        }
        self.line_from = self.from;
        self.line_to = self.bytes.len();
        self.from = self.line_to;
        self.scanned = self.line_to;
        self.count += 1;
        NextLine::Last
    }

    /// Whether a byte is pending behind the last line that a session may have.
    fn is_over(&self) -> bool
        ensures over { IsTrue result ↔ ((self.now.count ≡ command_count_limit) × (0 < length self.now.pending)) }
        ensures budget { HasBudget self.now }
    {
        self.count == COUNT_LIMIT && self.from < self.bytes.len()
    }

    /// Whether what is pending is longer than a line may be.
    fn is_long(&self) -> bool
        ensures { IsTrue result ↔ (command_limit < length self.now.pending) }
    {
        self.bytes.len() - self.from > LINE_LIMIT
    }

    /// How many lines were handed out.
    pub fn count(&self) -> u64
        ensures { result ≡ self.now.count }
    {
        self.count as u64
    }

    /// Cuts the next command line, which `line` then lends. A line that is there already is handed out without a read;
    /// else the source is read until a line is whole, at most one byte past a limit. `Last` and `End` come only at the end
    /// of the source. `Read` comes only where the count of faults rose; what was read stays, and the next call goes on.
    /// `Long` and `TooMany` come exactly where one byte past a limit was read. Takes no memory (docs/RULES.md,
    /// "Sessions").
    pub fn next<I: Source>(&mut self, input: &mut I) -> Result<NextLine, LineStop>
        ensures next { AsksNext (I.state input.old) (I.state input.new) self.old self.new result }
        ensures at_once { ¬ HasNoFeed self.old.pending → input.new ≡ input.old }
    {
        if self.is_over() {
            return Err(LineStop::TooMany);
        }
        if self.cut() {
            return Ok(NextLine::Whole);
        }
        self.wait(input)
    }

    /// Reads until a line is whole.
    fn wait<I: Source>(&mut self, input: &mut I) -> Result<NextLine, LineStop>
        requires plain { HasNoFeed self.old.pending }
        requires room { 0 < length self.old.pending → self.old.count < command_count_limit }
        requires budget { HasBudget self.old }
        ensures { AsksNext (I.state input.old) (I.state input.new) self.old self.new result }
    {
        loop {
            if self.is_long() {
                return Err(LineStop::Long(self.count()));
            }
            match self.read(input) {
                Ok(true) => {}
                Ok(false) => return Ok(self.cut_last()),
                Err(_) => return Err(LineStop::Read),
            }
            if self.is_over() {
                return Err(LineStop::TooMany);
            }
            if self.cut() {
                return Ok(NextLine::Whole);
            }
        }
    }
}
