//! Trials of the engine: a generated set is built on one node, and once more on several.

ghost use Rattle.std.specs.Prelude.{◌≡◌, ◌<◌, ◌≤◌, ◌++◌, IfOk, OnOk, false, string_bytes};
ghost use Rattle.std.specs.Bool.{Decides};
ghost use Rattle.std.specs.Cmp.Lexicographic.{pointwise};
ghost use Rattle.std.specs.Fmt.{decimal};
ghost use Rattle.std.specs.List.{list_all, zip};
ghost use Rattle.result_cache.specs.SameRecords.{same_act, same_put};
ghost use Rattle.build_report.specs.Line.{line};
ghost use Rattle.task_trait.specs.Tools.{act_size};
ghost use Rattle.build_engine.specs.UsedFor.{IsOutcomeOnOne};
ghost use Rattle.build_outcome.specs.Outcomes.{IsOutcome};
ghost use Rattle.request_machine.specs.Worlds.{world_of};
ghost use Rattle.msb_outcomes.specs.Trials.{
  AreEqual,
  IsSetOf,
  IsComparison,
  IsTrial,
  bytes_in,
  first_line,
  last_line,
  trial_text,
};

use crate::alone::build_world_alone;
use crate::on_nodes::build_world_on;
use crate::world_with_instances::WorldWithInstances;
use build_outcome::Outcome;
use build_world::World;
use msb_instance::Instances;
use msb_values::{Act, List, Mode, Named, NoMemory, Put, Text, Text8};
use msb_words::Options;
use std::alloc::Global;
use std::fmt::Write;
use std::sync::Wait;
use std::thread::Threads;
use task_trait::{Counted, CountedTools, NoTools};
use trial_set::make;

/// The five lines of a trial whose builds both take one node. (This engine's own action.)
pub fn trial_alone(alloc: Global, options: &Options) -> Result<Text8, NoMemory>
    ensures { IfOk result (IsTrial options.now) }
{
    let world = set_of(alloc, options)?;
    let mut tools = Counted::new(alloc, &NoTools)?;
    let one = build_anew(alloc, &world, &mut tools)?;
    let other = build_anew(alloc, &world, &mut tools)?;
    compare(alloc, options, &one, &other)
}

/// The five lines of a trial whose second build takes as many nodes as the words tell.
pub fn trial_on<R: Threads + Wait + Sync>(
    rt: &R,
    alloc: Global,
    options: &Options,
) -> Result<Text8, NoMemory>
    requires { (0 < options.now.nodes) × (options.now.nodes ≤ 64) }
    ensures { IfOk result (IsTrial options.now) }
{
    let world = set_of(alloc, options)?;
    let mut tools = Counted::new(alloc, &NoTools)?;
    let one = build_anew(alloc, &world, &mut tools)?;
    let given = WorldWithInstances::of_world(alloc, world);
    let other = build_world_on(rt, alloc, false, options.nodes, given, &NoTools)?;
    compare(alloc, options, &one, &other)
}

// What both builds are given.
fn set_of(alloc: Global, options: &Options) -> Result<World, NoMemory>
    ensures { IfOk result (IsSetOf options.now) }
{
    Ok(World {
        tree: make(alloc, options.seed, options.size)?,
        root: Text::of(alloc, "all.proj")?,
        globals: Named::new(alloc),
        targets: List::new(alloc),
        mode: Mode::Incremental,
    })
}

// Builds a world on one node, where no instance is evaluated yet.
fn build_anew<'a, T: CountedTools + 'a>(
    alloc: Global,
    world: &'a World,
    tools: &'a mut T,
) -> Result<Outcome, NoMemory>
    ensures outcome { IfOk result (λ o.
        ∥ IsOutcome (world_of T.answer world.entry.now) false o ∥₁) }
    ensures comes { IfOk result (λ o.
        ∥ IsOutcomeOnOne (world_of T.answer world.entry.now) false o ∥₁) }
{
    build_world_alone(alloc, false, world, Instances::new(alloc), tools)
}

// The five lines by both outcomes.
fn compare(
    alloc: Global,
    options: &Options,
    one: &Outcome,
    other: &Outcome,
) -> Result<Text8, NoMemory>
    ensures { IfOk result (IsComparison options.now one.now other.now) }
{
    let equal = are_equal(one, other);
    text_of(alloc, options, one, equal)
}

fn text_of(alloc: Global, options: &Options, one: &Outcome, equal: bool) -> Result<Text8, NoMemory>
    ensures { IfOk result (λ text. text ≡ trial_text options.now one.now equal) }
{
    let bytes = bytes_in(one.commit.as_slice())?;
    let mut text = String::new(alloc);
    push_first_line(&mut text, options)?;
    push_count(&mut text, "runs ", one.runs)?;
    push_count(&mut text, "files ", one.commit.len())?;
    push_count(&mut text, "bytes ", bytes)?;
    text.push_str(last_line(equal))?;
    Ok(Text8::from(text.into_bytes()))
}

fn push_first_line(text: &mut String, options: &Options) -> Result<(), NoMemory>
    ensures { OnOk result (string_bytes text.new
        ≡ string_bytes text.old ++ first_line options.now) }
{
    let (seed, size, nodes) = (options.seed, options.size, options.nodes);
    Ok(write!(text, "trial {seed} size {size} nodes {nodes}\n")?)
}

fn push_count(text: &mut String, words: &str, count: usize) -> Result<(), NoMemory>
    ensures { OnOk result (string_bytes text.new
        ≡ string_bytes text.old ++ line (words.now ++ decimal count)) }
{
    Ok(write!(text, "{words}{count}\n")?)
}

fn last_line(equal: bool) -> &'static str
    ensures { result.now ≡ last_line equal }
{
    if equal { "equal\n" } else { "different\n" }
}

fn bytes_in(acts: &[Act]) -> Result<usize, NoMemory>
    ensures { IfOk result (λ bytes. bytes ≡ bytes_in acts.now) }
{
    let mut bytes: usize = 0;
    for act in acts {
        bytes = bytes.checked_add(size_of(act)).ok_or(NoMemory)?;
    }
    Ok(bytes)
}

fn size_of(act: &Act) -> usize
    ensures { result ≡ act_size act.now }
{
    match act {
        Act::Write(put) => put.bytes.get().len(),
        Act::Remove(_) => 0,
    }
}

// Whether two builds print the same, and do the same to files.
fn are_equal(one: &Outcome, other: &Outcome) -> bool
    ensures { Decides result (AreEqual one.now other.now) }
{
    one.text.as_bytes() == other.text.as_bytes()
        && are_same(one.commit.as_slice(), other.commit.as_slice())
}

fn are_same(one: &[Act], other: &[Act]) -> bool
    ensures { result ≡ pointwise same_act one.now other.now }
{
    one.len() == other.len() && pairs_are_same(one, other)
}

fn pairs_are_same(one: &[Act], other: &[Act]) -> bool
    ensures { result ≡ list_all (λ p. same_act p.0 p.1) (zip one.now other.now) }
{
    one.iter().zip(other).all(|(a, b)| is_same(a, b))
}

fn is_same(a: &Act, b: &Act) -> bool
    ensures { result ≡ same_act a.now b.now }
{
    match (a, b) {
        (Act::Write(a), Act::Write(b)) => is_same_put(a, b),
        (Act::Remove(a), Act::Remove(b)) => a == b,
        _ => false,
    }
}

fn is_same_put(a: &Put, b: &Put) -> bool
    ensures { result ≡ same_put a.now b.now }
{
    a.path == b.path && a.bytes.get().as_bytes() == b.bytes.get().as_bytes()
}
