ghost use Rattle.std.specs.Prelude.{◌≡◌, OnOk, OnErr};
ghost use Rattle.result_cache.specs.Journal.{merge};

use crate::Journal;
use msb_values::{Copied, NoMemory};
use std::alloc::Global;

impl Journal {
    /// Puts the entries of another journal that are not there, by run and number, behind these, in
    /// their order. This joins the journals of calls made at once. Want of memory leaves the
    /// journal as it was. (MSBuild task, BuildInParallel.)
    pub fn merge(&mut self, alloc: Global, other: &Journal) -> Result<(), NoMemory>
        ensures ok { OnOk result (self.new ≡ merge self.old other.now) }
        ensures err { OnErr result (self.new ≡ self.old) }
    {
        let mut merged = self.copy()?;
        add_all(&mut merged, other)?;
        *self = merged.settle(alloc)?;
        Ok(())
    }
}

// Where there is no memory, some of the entries may be there.
fn add_all(journal: &mut Journal, other: &Journal) -> Result<(), NoMemory>
    ensures { OnOk result (journal.new ≡ merge journal.old other.now) }
{
    let count = other.count();
    for at in 0..count {
        journal.add(other.newest(count - 1 - at).copy()?)?;
    }
    Ok(())
}
