ghost use Rattle.std.specs.Prelude.{◌≡◌, map, option_map, option_copied, IfOk, OnOk};
ghost use Rattle.std.specs.List.{find};
ghost use Rattle.std.specs.Str.{bytes_eq};
ghost use Rattle.build_world.specs.Instances.{seen_target};
ghost use Rattle.build_world.specs.Places.{HasPlaces, IsInserted};

use crate::UsedTarget;
use msb_values::{List, Name, NoMemory};
use std::alloc::Global;
use std::collections::HashMap;
use std::marker::Model;

/// The targets of a project that are used, in order. Each is found by its name in near-constant
/// time.
///
/// Contracts see the list.
pub struct UsedTargets {
    targets: List<UsedTarget>,
    /// Where the first target of each name stands.
    places: HashMap<String, usize>,
}

// A drop that is written out is proved here alone.
impl Drop for UsedTargets {
    fn drop(self) {
        let UsedTargets {
            targets: _,
            places: _,
        } = self;
    }
}

impl Model for UsedTargets {
    ghost use Rattle.std.specs.Coded.{codes};
    ghost use Rattle.std.specs.Prelude.{List};
    ghost use Rattle.build_world.specs.Places.{HasPlaces};
    ghost use Rattle.build_world.specs.declared.instance.UsedTarget.{UsedTarget};
    ghost use Rattle.msb_elements.specs.contracts.element.Element as element;

    ghost Value = { List UsedTarget };

    ghost coded = { Prim.hlevel (codes, element.the_row.coded) };

    ghost view = { λ t. t.targets };

    ghost invariant = { λ t. HasPlaces t.targets t.places };
}

impl UsedTargets {
    /// These targets, with an index of their names; the one error is want of memory.
    pub fn of(alloc: Global, targets: List<UsedTarget>) -> Result<UsedTargets, NoMemory>
        ensures { IfOk result (λ t. t ≡ targets) }
    {
        let places = places(alloc, targets.as_slice())?;
        Ok(UsedTargets { targets, places })
    }

    /// The targets in order.
    pub fn as_slice(&self) -> &[UsedTarget]
        ensures { result.now ≡ self.now }
    {
        self.targets.as_slice()
    }

    /// The first target of this name. This takes no memory.
    pub fn find(&self, name: &Name) -> Option<&UsedTarget>
        ensures { option_map seen_target (option_copied result)
            ≡ find (λ t. bytes_eq t.name name.now) (map seen_target self.now) }
    {
        match self.places.get(name.key()) {
            Some(place) => self.targets.get(*place),
            None => None,
        }
    }
}

/// Where the first target of each name stands.
fn places(alloc: Global, targets: &[UsedTarget]) -> Result<HashMap<String, usize>, NoMemory>
    ensures { IfOk result (λ places. HasPlaces targets.now places) }
{
    let mut places = HashMap::new(alloc);
    for (place, target) in targets.iter().enumerate() {
        insert_unless_there(alloc, &mut places, target.name.key(), place)?;
    }
    Ok(places)
}

fn insert_unless_there(
    alloc: Global,
    places: &mut HashMap<String, usize>,
    name: &str,
    place: usize,
) -> Result<(), NoMemory>
    ensures { OnOk result (IsInserted places.old name.now place places.new) }
{
    if places.contains_key(name) {
        return Ok(());
    }
    places.insert(String::from_str(alloc, name)?, place)?;
    Ok(())
}
