ghost use Rattle.std.specs.Prelude.{◌≡◌, [], ◌∷◌, ◌++◌, IfOk, OnOk, if◌then◌else◌};
ghost use Rattle.std.specs.BTreeSet.{insert_key};
ghost use Rattle.std.specs.Cmp.Lexicographic.{slice_cmp};
ghost use Rattle.std.specs.List.{list_any};
ghost use Rattle.std.specs.Ordering.{nat_cmp};
ghost use Rattle.std.specs.Str.{bytes_eq};
ghost use Rattle.msb_values.specs.Acts.{act_path};
ghost use Rattle.msb_files.specs.FinalTree.{commit_list, last_acts};
ghost use Rattle.msb_files.specs.Views.{acts_of};

use crate::Journal;
use msb_values::{Act, Copied, List, NoMemory, Text};
use std::alloc::Global;
use std::collections::BTreeSet;

impl Journal {
    /// What a build does to files once it is over: of each path the last act on it, in the order of
    /// the journal.
    pub fn commit_list(&self, alloc: Global) -> Result<List<Act>, NoMemory>
        ensures { IfOk result (λ list. list ≡ commit_list self.now) }
    {
        let mut acts = last_acts(alloc, self)?;
        acts.reverse();
        Ok(List::from(acts))
    }
}

// The newest first.
fn last_acts(alloc: Global, journal: &Journal) -> Result<Vec<Act>, NoMemory>
    ensures { IfOk result (λ acts. acts.items ≡ last_acts (acts_of journal.now)) }
{
    let mut acts = Vec::new(alloc);
    let mut paths = BTreeSet::new(alloc);
    for at in 0..journal.count() {
        if let Some(act) = journal.newest(at).act() {
            push_unless_acted(alloc, &mut acts, &mut paths, act.get())?;
        }
    }
    Ok(acts)
}

fn push_unless_acted(
    alloc: Global,
    acts: &mut Vec<Act>,
    paths: &mut BTreeSet<Text>,
    act: &Act,
) -> Result<(), NoMemory>
    ensures acts { OnOk result (acts.new.items ≡
        (if list_any (bytes_eq (act_path act.now)) paths.old.keys then acts.old.items else
        acts.old.items ++ act.now ∷ [])) }
    ensures paths { OnOk result (paths.new.keys
        ≡ insert_key (slice_cmp nat_cmp) paths.old.keys (act_path act.now)) }
{
    if paths.insert(Text::of(alloc, act.path())?)? {
        acts.push(act.copy()?)?;
    }
    Ok(())
}
