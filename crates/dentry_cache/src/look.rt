//! The row as its keeper sees it.
ghost use Rattle.std.specs.Prelude.{◌≡◌};
ghost use Rattle.std.specs.Borrow.{sem};
ghost use Rattle.dentry_cache.specs.LentLooks.{LendsLook};
ghost use Rattle.dentry_cache.specs.Models.{SeesHistory};

use crate::keeper::{Keeper, KeeperLook};

impl Keeper {
    /// Returns a look at the current row, which sees the tree after the history, and none with other entries. Once it ends, the
    /// keeper is what the look left: unchanged, if the row was only looked at.
    pub fn look(&mut self) -> &mut KeeperLook
        ensures* writes_back { sem 𝓛 (LendsLook self.entry result) }
        ensures cells { result.now.cells ≡ self.old }
        ensures sees { SeesHistory self.old }
    {
        self.look.cells.encodes_history();
        &mut self.look
    }
}
