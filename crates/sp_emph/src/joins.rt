//! Runs, joined as far as they go on with one another.
ghost use Rattle.std.specs.Prelude.{◌≡◌, List, [], ◌∷◌, OnOk, IfOk};
ghost use Rattle.spec_script.specs.Emphasis.{goes_on, joined};
ghost use Rattle.spec_script.specs.declared.Run.{Run};

use spec_script::Run;
use std::alloc::{AllocError, Global};

/// Whether the next run goes on with a run: it touches it, and has its style.
fn goes_on(run: Run, next: Run) -> bool
    ensures { result ≡ goes_on run next }
{
    run.to == next.from && run.style == next.style
}

/// Runs that are added from left to right. The last one may still go on.
#[derive(Drop)]
pub struct Joiner {
    done: Vec<Run>,
    last: Option<Run>,
}

impl Joiner {
    ghost use Rattle.sp_emph.specs.Joining.{joined_with};

    /// A joiner that was given no run.
    pub fn new(alloc: Global) -> Self
        ensures { (more : List Run) → joined_with result more ≡ joined more }
    {
        Joiner {
            done: Vec::new(alloc),
            last: None,
        }
    }

    /// Adds a run, joined with the last one where it goes on with it. On an error there was no memory, and what it holds is open.
    pub fn add(&mut self, run: Run) -> Result<(), AllocError>
        ensures { OnOk result ((more : List Run) → joined_with self.new more ≡ joined_with self.old (run ∷ more)) }
    {
        let Some(last) = self.last else {
            self.last = Some(run);
            return Ok(());
        };
        if goes_on(last, run) {
            self.last = Some(Run { to: run.to, ..last });
            return Ok(());
        }
        self.done.push(last)?;
        self.last = Some(run);
        Ok(())
    }

    /// The joined runs. On an error there was no memory.
    pub fn finish(self) -> Result<Vec<Run>, AllocError>
        ensures { IfOk result (λ v. v.items ≡ joined_with self []) }
    {
        let Joiner { mut done, last } = self;
        if let Some(run) = last {
            done.push(run)?;
        }
        Ok(done)
    }
}
