ghost use Rattle.std.specs.Prelude.{ℕ, ◌+◌, ◌<◌, ◌≤◌, List, IfOk, OnOk, OnErr};
ghost use Rattle.spec_session.specs.Runs.{AtShelf, at_shelf, counts_of};

use sp_kit::{Shelf, Steps};
use std::alloc::AllocError;

/// What answers the lines of a session, with a shelf at hand (docs/RULES.md, "Sessions"). What can be told of it is which
/// replies it may give to a line and how each leaves it, the shelf and the counts of its steps, how want of memory may leave
/// them, and how many lines it can still answer at least.
pub trait Responder {
    /// Before, a line without its line feed, after, and the bytes of the reply.
    ghost answers: { AtShelf Self → List ℕ → AtShelf Self → List ℕ → Type 0 };

    /// Before, a line to which there was no memory to reply, and after.
    ghost stops: { AtShelf Self → List ℕ → AtShelf Self → Type 0 };

    /// How many more lines it can answer. Each answer takes one of them at most.
    ghost lasts: { Self → ℕ };

    /// Answers a line, which is lent without its line feed. The reply is all that is written of it, its own line feed
    /// with it. An error says that there is no memory.
    fn answer<F: Shelf, S: Steps>(
        &mut self,
        line: &[u8],
        shelf: &mut F,
        steps: &mut S,
    ) -> Result<Vec<u8>, AllocError>
        requires can { 0 < lasts self.old }
        ensures reply { IfOk result (λ reply. answers
            (at_shelf self.old (F.state shelf.old) (counts_of (S.reads steps.old) (S.fills steps.old))) line.now
            (at_shelf self.new (F.state shelf.new) (counts_of (S.reads steps.new) (S.fills steps.new))) reply.items) }
        ensures no_memory { OnErr result (stops
            (at_shelf self.old (F.state shelf.old) (counts_of (S.reads steps.old) (S.fills steps.old))) line.now
            (at_shelf self.new (F.state shelf.new) (counts_of (S.reads steps.new) (S.fills steps.new)))) }
        ensures lasts_on { OnOk result (lasts self.old ≤ lasts self.new + 1) };
}
