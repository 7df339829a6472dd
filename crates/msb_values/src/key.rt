ghost use Rattle.std.specs.Prelude.{◌≡◌, ◌++◌, IfOk, OnOk, string_bytes};
ghost use Rattle.std.specs.List.{flat_map};
ghost use Rattle.msb_values.specs.InstanceKeys.{pair_text, next_pair, globals_text};

use crate::{Copied, Name, NoMemory, Pairs, Text};
use std::alloc::Global;
use std::collections::btree_map;

/// Which instance of a project: the path of its file, and the global properties that it is built
/// with. (MSBuild task; MSBuild properties, global properties.)
#[derive(Drop, PartialEq, Eq, PartialOrd, Ord, Hash)]
pub struct InstanceKey {
    pub path: Text,
    pub globals: Pairs,
}

impl InstanceKey {
    ghost use Rattle.msb_values.specs.InstanceKeys.{key_text};

    /// The key of a path and global properties. Its copies share the path.
    pub fn new(alloc: Global, path: Text, globals: Pairs) -> Result<InstanceKey, NoMemory>
        ensures { IfOk result (λ key. key ≡ record { path = path; globals = globals }) }
    {
        Ok(InstanceKey {
            path: path.share(alloc)?,
            globals,
        })
    }

    /// The path, and behind it the global properties in brackets if there are any, as a report
    /// names the instance.
    pub fn to_text(&self, alloc: Global) -> Result<Text, NoMemory>
        ensures { IfOk result (λ t. t ≡ key_text self.now) }
    {
        let mut shown = String::from_str(alloc, self.path.as_str())?;
        push_globals(&mut shown, &self.globals)?;
        Ok(Text::from(shown))
    }
}

impl Copied for InstanceKey {
    fn copy(&self) -> Result<InstanceKey, NoMemory> {
        Ok(InstanceKey {
            path: self.path.copy()?,
            globals: self.globals.copy()?,
        })
    }
}

fn push_globals(shown: &mut String, globals: &Pairs) -> Result<(), NoMemory>
    ensures { OnOk result (string_bytes shown.new
        ≡ string_bytes shown.old ++ globals_text globals.now) }
{
    let mut pairs = globals.iter();
    let Some((name, value)) = pairs.next() else {
        return Ok(());
    };
    shown.push_str(" [")?;
    push_pair(shown, name, value)?;
    push_next_pairs(shown, pairs)?;
    Ok(shown.push(']')?)
}

fn push_next_pairs(
    shown: &mut String,
    pairs: btree_map::Iter<'_, Name, Text>,
) -> Result<(), NoMemory>
    ensures { OnOk result (string_bytes shown.new
        ≡ string_bytes shown.old ++ flat_map next_pair pairs.entry) }
{
    for (name, value) in pairs {
        shown.push(';')?;
        push_pair(shown, name, value)?;
    }
    Ok(())
}

fn push_pair(shown: &mut String, name: &Name, value: &Text) -> Result<(), NoMemory>
    ensures { OnOk result (string_bytes shown.new
        ≡ string_bytes shown.old ++ pair_text (name.now, value.now)) }
{
    shown.push_str(name.key())?;
    shown.push('=')?;
    Ok(shown.push_str(value.as_str())?)
}
