ghost use Rattle.std.specs.Prelude.{◌≡◌, IfOk, OnOk};
ghost use Rattle.msb_laws.specs.Results.{all_ok};
ghost use Rattle.task_trait.specs.Answers.{Gives};
ghost use Rattle.task_kit.specs.Removed.{
  HasPaths,
  delete,
  output_removed,
  path_at,
  removed,
  with_removed,
};

use crate::paths::path_in;
use crate::progress::output;
use msb_files::FileView;
use msb_values::{Act, Copied, Item, List, NoMemory, Text};
use std::alloc::Global;
use std::collections::HashSet;
use task_trait::{Failure, Param, TaskOutput, check_known, needed_items};

/// Removes the files that are there. (Delete task.)
pub(crate) fn delete(
    alloc: Global,
    dir: &str,
    view: &FileView<'_>,
    params: &[Param],
) -> Result<TaskOutput, Failure>
    ensures { Gives result (delete dir.now view.now params.now) }
{
    check_known(alloc, "delete", params)?;
    let items = needed_items(alloc, params, "files")?;
    let paths = all_paths(alloc, dir, items)?;
    Ok(removal_output(alloc, view, items, paths.into_vec())?)
}

fn all_paths(alloc: Global, dir: &str, items: &[Item]) -> Result<List<Text>, Failure>
    ensures { Gives result (all_ok (path_at dir.now) items.now) }
{
    let mut all = List::new(alloc);
    for item in items {
        let path = path_at(alloc, dir, item)?;
        all.push(path)?;
    }
    Ok(all)
}

fn path_at(alloc: Global, dir: &str, item: &Item) -> Result<Text, Failure>
    ensures { Gives result (path_at dir.now item.now) }
{
    path_in(alloc, dir, "files", item.ident.as_str())
}

/// The removals of the paths, with all items as they were handed, be there a file or not.
fn removal_output(
    alloc: Global,
    view: &FileView<'_>,
    items: &[Item],
    paths: Vec<Text>,
) -> Result<TaskOutput, NoMemory>
    ensures { IfOk result (λ output. output ≡ output_removed view.now items.now paths.items) }
{
    let acts = remove_all(alloc, view, paths)?;
    let mut outputs = List::new(alloc);
    outputs.push(output(alloc, "deletedfiles", List::of(alloc, items)?)?)?;
    Ok(TaskOutput {
        ok: true,
        outputs,
        acts,
        notes: List::new(alloc),
    })
}

fn remove_all(alloc: Global, view: &FileView<'_>, paths: Vec<Text>) -> Result<List<Act>, NoMemory>
    ensures { IfOk result (λ acts. acts ≡ removed view.now paths.items) }
{
    let mut known = HashSet::new(alloc);
    let mut acts = List::new(alloc);
    for path in paths {
        remove(view, &mut known, &mut acts, path)?;
    }
    Ok(acts)
}

/// Removes a file, if the view has it and it is not removed yet.
fn remove(
    view: &FileView<'_>,
    known: &mut HashSet<Text>,
    acts: &mut List<Act>,
    path: Text,
) -> Result<(), NoMemory>
    requires { HasPaths acts.now known.now }
    ensures acts { OnOk result (acts.new ≡ with_removed view.now acts.old path) }
    ensures known { OnOk result (HasPaths acts.new known.new) }
{
    if view.content(path.as_str()).is_none() {
        return Ok(());
    }
    if known.insert(path.copy()?)? {
        acts.push(Act::Remove(path))?;
    }
    Ok(())
}
