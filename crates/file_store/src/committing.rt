ghost use Rattle.std.specs.Prelude.{◌≤◌, ◌<◌, length, IfErr, OnOk, OnErr};
ghost use Rattle.file_store.specs.Commits.{
  AreDone,
  AreDoneTo,
  HasContents,
  IsCommitCaused,
  IsDone,
  MayBeDone,
  place_of,
};
ghost use Rattle.file_store.specs.Seen.{OfTrees, CountsFault};

use crate::{Store, StoreError};
use msb_values::{Act, List};
use std::alloc::Global;

/// Why a list of acts was not done whole, with the place in the list at which it stopped. All
/// before it were done.
#[derive(Clone, Copy, Debug, PartialEq, Eq)]
pub enum CommitFault {
    /// The store failed to do the act there.
    Writing(u64),
    Memory(u64),
}

/// Does acts in order, and stops at the first that the store doesn't do. (MSBuild targets; Delete
/// task.)
pub fn commit<S: Store>(alloc: Global, store: &mut S, list: &List<Act>) -> Result<(), CommitFault>
    ensures whole { OnOk result
        (OfTrees (AreDone list.now) (S.seen store.old) (S.seen store.new)) }
    ensures contents { OnOk result
        (OfTrees (HasContents list.now) (S.seen store.old) (S.seen store.new)) }
    ensures part { IfErr result
        (λ e. OfTrees (AreDoneTo (place_of e) list.now) (S.seen store.old) (S.seen store.new)) }
    ensures place { IfErr result (λ e. place_of e < length list.now) }
    ensures later { (S.seen store.old).fault_count ≤ (S.seen store.new).fault_count }
    ensures cause { IfErr result (IsCommitCaused (S.seen store.old) (S.seen store.new)) }
{
    for (place, act) in list.as_slice().iter().enumerate() {
        match do_act(alloc, store, act) {
            Ok(()) => {}
            Err(StoreError::Failed) => return Err(CommitFault::Writing(place as u64)),
            Err(StoreError::Memory) => return Err(CommitFault::Memory(place as u64)),
        }
    }
    Ok(())
}

fn do_act<S: Store>(alloc: Global, store: &mut S, act: &Act) -> Result<(), StoreError>
    ensures done { OnOk result (OfTrees (IsDone act.now) (S.seen store.old) (S.seen store.new)) }
    ensures stopped { OnErr result
        (OfTrees (MayBeDone act.now) (S.seen store.old) (S.seen store.new)) }
    ensures cause { CountsFault (S.seen store.old) (S.seen store.new) result }
{
    match act {
        Act::Write(put) => store.write(alloc, put.path.as_str(), put.bytes.get().as_bytes()),
        Act::Remove(path) => store.remove(alloc, path.as_str()),
    }
}
