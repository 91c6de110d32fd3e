ghost use Rattle.std.specs.Prelude.{◌<◌, length, IfOk};
ghost use Rattle.std.specs.Io.{ReadsAtMost, WritesAtMost};
ghost use Rattle.std.specs.Io.KnownBytes.{ReadConsumes, WriteAppends};
ghost use Rattle.sp_kit.specs.Causes.{HasCause};
ghost use Rattle.sp_kit.specs.Outside.{SourceState, SinkState, Writes};

/// A read or a write failed. The object's count of faults tells it too.
#[derive(Clone, Copy, PartialEq, Eq, Drop)]
pub struct Failed;

/// Where bytes come from. What can be told of it is the bytes that weren't read yet, where they are known, and a count of
/// faults, which never falls (docs/RULES.md, "The program").
pub trait Source {
    ghost state: { Self → SourceState };

    /// Puts bytes at the front of `buf` and says how many. Where `buf` isn't empty, 0 means the end. `Failed` comes only
    /// where the count of faults rose in this call, and leaves the unread bytes as they were.
    fn read(&mut self, buf: &mut [u8]) -> Result<usize, Failed>
        ensures bound { ReadsAtMost result buf.new }
        ensures bytes { ReadConsumes (state self.old).unread (state self.new).unread result buf.new }
        ensures cause { HasCause (state self.old).faults (state self.new).faults result };
}

/// Where bytes go. What can be told of it is the bytes that it took, where they are known, and a count of faults, which
/// never falls (docs/RULES.md, "The program").
pub trait Sink {
    ghost state: { Self → SinkState };

    /// Takes a prefix of the piece and says how many bytes, at least one of a piece that isn't empty. `Failed` comes only
    /// where the count of faults rose in this call, and then nothing was taken.
    fn write(&mut self, piece: &[u8]) -> Result<usize, Failed>
        ensures bound { WritesAtMost result piece.now }
        ensures bytes { WriteAppends (state self.old).taken (state self.new).taken result piece.now }
        ensures progress { 0 < length piece.now → IfOk result (λ n. 0 < n) }
        ensures cause { HasCause (state self.old).faults (state self.new).faults result };
}

/// Writes the whole piece. `Failed` comes only where the sink's count of faults rose in this call, and then the sink
/// took a part of the piece from its front, and not all of it. Takes no memory.
pub fn write_whole<O: Sink>(sink: &mut O, piece: &[u8]) -> Result<(), Failed>
    ensures { Writes (O.state sink.old) (O.state sink.new) piece.now result }
{
    let mut rest = piece;
    while !rest.is_empty() {
        let count = sink.write(rest)?;
        rest = &rest[count..];
    }
    Ok(())
}
