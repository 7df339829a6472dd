ghost use Rattle.std.specs.Prelude.{
  ◌≡◌,
  ◌<◌,
  ◌≤◌,
  ◌^◌,
  [],
  ◌∷◌,
  IfOk,
  OnOk,
  map,
  string_bytes,
  codes,
};
ghost use Rattle.msb_values.specs.Pairs.{all_put};
ghost use Rattle.trial_set.specs.Draws.{calls_of};
ghost use Rattle.trial_set.specs.Projects.{project_text, root_text};
ghost use Rattle.trial_set.specs.Sets.{
  file_at_stamp,
  projects_from,
  numbers_from,
  set_of,
  files_of,
};

use crate::draws::Draws;
use crate::projects::{file_of, project, root};
use file_store::{File, Tree};
use msb_values::{List, NoMemory, Text, Text8};
use std::alloc::Global;
use std::collections::{BTreeMap, BTreeSet};

/// The set of this size that a seed gives: projects `p1.proj` and so on, each of which calls some
/// of those before it and writes a file, and `all.proj`, which calls all. (This engine's own
/// generator.)
pub fn make(alloc: Global, seed: u64, size: u32) -> Result<Tree, NoMemory>
    ensures { IfOk result (λ tree. tree.files ≡ files_of seed size) }
{
    let set = set_of(alloc, seed, size as u64)?;
    tree_of(alloc, set)
}

/// The files of the set with their texts, in byte order of their paths.
fn set_of(alloc: Global, seed: u64, size: u64) -> Result<BTreeMap<Text, Text8>, NoMemory>
    requires { size < 2 ^ 32 }
    ensures { IfOk result (λ set. set.entries ≡ all_put [] (set_of seed size)) }
{
    let mut set = with_root(alloc, size)?;
    put_projects(alloc, &mut set, seed, size)?;
    Ok(set)
}

fn with_root(alloc: Global, size: u64) -> Result<BTreeMap<Text, Text8>, NoMemory>
    requires { size < 2 ^ 32 }
    ensures { IfOk result (λ set. set.entries
        ≡ (codes "all.proj", root_text (numbers_from size 1)) ∷ []) }
{
    let all = numbers(alloc, size)?;
    let path = Text::of(alloc, "all.proj")?;
    let text = text8(root(alloc, &all)?);
    let mut set = BTreeMap::new(alloc);
    set.insert(path, text)?;
    Ok(set)
}

fn numbers(alloc: Global, size: u64) -> Result<Vec<u64>, NoMemory>
    requires { size < 2 ^ 32 }
    ensures { IfOk result (λ numbers. numbers.items ≡ numbers_from size 1) }
{
    let mut numbers = Vec::new(alloc);
    for number in 1..size + 1 {
        numbers.push(number)?;
    }
    Ok(numbers)
}

fn put_projects(
    alloc: Global,
    set: &mut BTreeMap<Text, Text8>,
    seed: u64,
    size: u64,
) -> Result<(), NoMemory>
    requires { size < 2 ^ 32 }
    ensures { OnOk result (set.new.entries ≡ all_put set.old.entries (projects_from size 1 seed)) }
{
    let mut draws = Draws { state: seed };
    for number in 1..size + 1 {
        let text = draw_text(alloc, &mut draws, number)?;
        let path = Text::from(file_of(alloc, number)?);
        set.insert(path, text)?;
    }
    Ok(())
}

/// The text of a project, which calls those that are drawn.
fn draw_text(alloc: Global, draws: &mut Draws, number: u64) -> Result<Text8, NoMemory>
    requires { 1 ≤ number }
    ensures text { IfOk result
        (λ text. text ≡ project_text number (calls_of number draws.old.state).numbers) }
    ensures state { OnOk result (draws.new.state ≡ (calls_of number draws.old.state).state) }
{
    let calls = draws.calls(alloc, number)?;
    let calls = in_order(alloc, &calls)?;
    Ok(text8(project(alloc, number, &calls)?))
}

fn in_order(alloc: Global, numbers: &BTreeSet<u64>) -> Result<Vec<u64>, NoMemory>
    ensures { IfOk result (λ rising. rising.items ≡ numbers.now.keys) }
{
    let mut rising = Vec::new(alloc);
    for number in numbers {
        rising.push(*number)?;
    }
    Ok(rising)
}

fn text8(text: String) -> Text8
    ensures { result ≡ string_bytes text }
{
    Text8::from(text.into_bytes())
}

/// The tree of these files, which have one stamp.
fn tree_of(alloc: Global, set: BTreeMap<Text, Text8>) -> Result<Tree, NoMemory>
    ensures { IfOk result (λ tree. tree.files ≡ map file_at_stamp set.entries) }
{
    let mut files = List::new(alloc);
    for (path, bytes) in set {
        files.push(File {
            path,
            bytes,
            stamp: 1,
        })?;
    }
    match Tree::of(files) {
        Some(tree) => Ok(tree),
        None => unreachable!(),
    }
}
