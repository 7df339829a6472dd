ghost use Rattle.std.specs.Prelude.{◌≡◌, map, IfOk, OnOk};
ghost use Rattle.build_world.specs.Elements.{seen_placed};
ghost use Rattle.msb_instance.specs.Targets.{target_name_of, put_if, targets_of};
ghost use Rattle.msb_instance.specs.Evaluated.{used, seen_target};
ghost use Rattle.msb_instance.specs.Made.{target_in, target_seen, made_of};

use crate::names::target_name;
use crate::returns::files_with_returns;
use build_world::{Placed, UsedTarget};
use indexmap::{IndexMap, IndexSet};
use msb_values::{List, Name, NoMemory, Text};
use std::alloc::Global;

/// The targets of a laid-out project: the last element of each name, at the place of the first one.
/// The elements move. (MSBuild targets.)
pub(crate) fn used_targets(
    alloc: Global,
    elements: Vec<Placed>,
) -> Result<List<UsedTarget>, NoMemory>
    ensures targets { IfOk result (λ targets. map target_seen targets
        ≡ targets_of (map seen_placed elements.items)) }
    ensures used { IfOk result (λ targets. map seen_target targets
        ≡ map (used (map seen_placed elements.items))
        (targets_of (map seen_placed elements.items))) }
{
    let returning = files_with_returns(alloc, &elements)?;
    let last = last_elements(alloc, elements)?;
    with_returns(alloc, last, &returning)
}

/// The last Target element of each name, at the place of the first one.
fn last_elements(alloc: Global, elements: Vec<Placed>) -> Result<IndexMap<Name, Placed>, NoMemory>
    ensures { IfOk result (λ last. map target_in last.entries
        ≡ targets_of (map seen_placed elements.items)) }
{
    let mut last = IndexMap::new(alloc);
    for placed in elements {
        put(alloc, &mut last, placed)?;
    }
    Ok(last)
}

/// Puts a Target element in the place of the one of its name, or behind all others. Any other
/// element is dropped.
fn put(alloc: Global, last: &mut IndexMap<Name, Placed>, placed: Placed) -> Result<(), NoMemory>
    ensures { OnOk result (map target_in last.new.entries
        ≡ put_if (map target_in last.old.entries) (target_name_of (seen_placed placed))
        (seen_placed placed)) }
{
    if let Some(name) = target_name(alloc, &placed)? {
        last.insert(name, placed)?;
    }
    Ok(())
}

/// The targets of these elements, each with whether its file is among those that have Returns.
fn with_returns(
    alloc: Global,
    last: IndexMap<Name, Placed>,
    returning: &IndexSet<Text>,
) -> Result<List<UsedTarget>, NoMemory>
    ensures { IfOk result (λ targets. targets ≡ map (made_of returning.now.keys) last.entries) }
{
    let mut targets = List::new(alloc);
    for (name, at) in last {
        let file_has_returns = returning.contains(&at.file);
        targets.push(UsedTarget {
            name,
            at,
            file_has_returns,
        })?;
    }
    Ok(targets)
}
