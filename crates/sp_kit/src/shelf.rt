ghost use Rattle.std.specs.Prelude.{◌≡◌, [], ◌∷◌, IfSome};
ghost use Rattle.sp_kit.specs.Files.{ShelfState, Asks, FetchGives, FetchesAtMost, StoreLeaves, HasShelfCause, fetch, store};

use std::alloc::AllocError;

/// What a fetch found under a name.
#[derive(PartialEq, Eq, Drop)]
pub enum Fetched {
    /// There is no such name.
    Absent,
    /// The bytes under the name, as many as were asked for at most.
    Bytes(Vec<u8>),
    /// There are more bytes under the name than were asked for.
    Longer,
}

/// Why a call of a shelf did nothing or only a part.
#[derive(Clone, Copy, PartialEq, Eq, Drop)]
pub enum ShelfFault {
    /// The call failed. The shelf's count of faults tells it too.
    Failed,
    /// There is no memory, which is no fault of the shelf.
    NoMemory,
}

impl From<AllocError> for ShelfFault {
    ghost use Rattle.std.specs.Prelude.{◌≡◌};
    ghost use Rattle.sp_kit.specs.declared.shelf.ShelfFault.TheVariants as shelf_faults;

    ghost from_gives = { λ _ fault. fault ≡ shelf_faults.NoMemory };

    fn from(_error: AllocError) -> ShelfFault {
        ShelfFault::NoMemory
    }
}

/// Files by name. What can be told of it is what stands under each name, where that is known, whether it is atomic there, a
/// count of faults, which never falls, and the calls that it was asked, where it tells them (docs/RULES.md, "The program").
pub trait Shelf {
    ghost state: { Self → ShelfState };

    /// Gives the bytes under a name, at most `most` of them. `Absent` comes exactly where there is no such name, `Longer`
    /// exactly where there are more bytes, and `Failed` only where the count of faults rose in this call. What stands under
    /// the names stays, whatever is answered.
    fn fetch(&mut self, name: &str, most: usize) -> Result<Fetched, ShelfFault>
        ensures bound { FetchesAtMost most result }
        ensures gives { IfSome (state self.old).files (λ files. FetchGives (files.held name.now) most result) }
        ensures kept { (state self.new).files ≡ (state self.old).files }
        ensures cause { HasShelfCause (state self.old).faults (state self.new).faults result }
        ensures asks { Asks (state self.old).calls (state self.new).calls (fetch name.now ∷ []) };

    /// Puts the bytes under a name, in place of what stood there. `Failed` comes only where the count of faults rose in
    /// this call; then a shelf that tells that it is atomic has under that name what stood there or these bytes, and of every
    /// other it is open. After `NoMemory` nothing has changed. All other names stay as they were.
    fn store(&mut self, name: &str, bytes: &[u8]) -> Result<(), ShelfFault>
        ensures leaves { StoreLeaves (state self.old).files (state self.new).files name.now bytes.now result }
        ensures cause { HasShelfCause (state self.old).faults (state self.new).faults result }
        ensures asks { Asks (state self.old).calls (state self.new).calls (store name.now ∷ []) };
}
