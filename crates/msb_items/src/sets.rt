ghost use Rattle.std.specs.Prelude.{◌≡◌, IfOk};
ghost use Rattle.std.specs.HashSet.{contains};
ghost use Rattle.std.specs.List.{list_any};

use msb_values::NoMemory;
use std::alloc::Global;
use std::collections::HashSet;
use std::hash::Hash;

/// The set of these keys.
pub(crate) fn set_of<K: Eq + Hash + Drop>(
    alloc: Global,
    keys: Vec<K>,
) -> Result<HashSet<K>, NoMemory>
    ensures { IfOk result (λ set. (key : K) → contains K.eq set key
        ≡ list_any (λ one. K.eq one key) keys.items) }
{
    let mut set = HashSet::new(alloc);
    for key in keys {
        set.insert(key)?;
    }
    Ok(set)
}
