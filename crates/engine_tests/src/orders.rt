//! Builds of random sets: events come in many orders, or from several nodes, and what comes of them
//! is what the program makes of the set on one node.
use crate::any_order::{Watched, in_any_order};
use crate::random::set;
use crate::runs::{Outside, is_number, is_so, is_text, outside_of, status, status_alone};
use build_world::World;
use file_store::Tree;
use gate_tools::Gate;
use msb_values::{Act, List, Mode, NoMemory, Pairs, Text};
use std::alloc::Global;
use std::process::Abort;
use std::str;
use std::sync::Wait;
use std::test::Fail;
use std::thread::Threads;
use task_trait::Counted;

/// How many sets of each kind, and how many orders of events of each.
const SETS: u64 = 40;

const ORDERS: u64 = 10;

/// How many sets are built on several nodes.
const SETS_ON_NODES: u64 = 20;

/// What a build on one node comes to.
fn build_by_one(alloc: Global, set: Tree, tools: &Gate) -> Result<(u8, Outside), Fail> {
    let mut on = outside_of(alloc, set, u64::MAX, None)?;
    let mut counted = Counted::new(alloc, tools)?;
    let status = status_alone(alloc, "build p0", &mut on, &mut counted)?;
    Ok((status, on))
}

// An account is kept of each build.
#[test]
fn every_order_comes_to_the_same(rt: HostRuntime) -> Result<(), Fail> {
    let mut repeats = 0u64;
    for seed in 0..SETS {
        let built = build_in_every_order(&rt, rt.alloc(), seed, false)?;
        is_number(
            &rt,
            u64::from(built.status),
            0,
            "no project calls one ahead of it",
        );
        repeats = repeats.saturating_add(built.repeats);
    }
    is_so(&rt, repeats > 5, "there are requests that are over at once");
    Ok(())
}

#[test]
fn a_circle_ends_every_order(rt: HostRuntime) -> Result<(), Fail> {
    let mut circles = 0u64;
    for seed in 0..SETS {
        let built = build_in_every_order(&rt, rt.alloc(), seed, true)?;
        circles = circles.saturating_add(u64::from(built.status == 4));
    }
    is_so(&rt, circles > 5, "there are circles");
    Ok(())
}

/// What comes of the builds of a set: their status, and how many of their requests were over at
/// once.
#[derive(Clone, Copy)]
struct Built {
    status: u8,
    repeats: u64,
}

fn build_in_every_order<R: Abort>(
    rt: &R,
    alloc: Global,
    seed: u64,
    may_call_all: bool,
) -> Result<Built, Fail> {
    let (status, on) = build_by_one(alloc, set(alloc, seed, may_call_all)?, &Gate::new())?;
    let world = world(alloc, set(alloc, seed, may_call_all)?)?;
    let repeats = all_end_so(rt, alloc, &world, status, &on)?;
    Ok(Built { status, repeats })
}

/// What is built of a set: its first project.
pub fn world(alloc: Global, tree: Tree) -> Result<World, NoMemory> {
    Ok(World {
        tree,
        root: Text::of(alloc, "p0")?,
        globals: Pairs::new(alloc),
        targets: List::new(alloc),
        mode: Mode::Incremental,
    })
}

/// All orders end so. How many requests were over at once is told.
fn all_end_so<R: Abort>(
    rt: &R,
    alloc: Global,
    world: &World,
    status: u8,
    on: &Outside,
) -> Result<u64, NoMemory> {
    let tools = Gate::new();
    let mut repeats = 0u64;
    for order in 0..ORDERS {
        let mut counted = Counted::new(alloc, &tools)?;
        let watched = in_any_order(alloc, world, &mut counted, order)?;
        ends_so(rt, &watched, world, status, on);
        repeats = repeats.saturating_add(watched.repeats);
    }
    Ok(repeats)
}

fn ends_so<R: Abort>(rt: &R, watched: &Watched, world: &World, status: u8, on: &Outside) {
    is_text(rt, watched.broken.as_str().as_bytes(), "", "the account");
    let Some(outcome) = &watched.outcome else {
        return is_so(rt, false, "an end is told");
    };
    is_number(rt, u64::from(outcome.status), u64::from(status), "status");
    if status == 4 {
        is_so(rt, is_circle(outcome.text.as_bytes()), "a circle");
    } else {
        is_so(rt, outcome.text.as_bytes() == on.sink.bytes(), "text");
        is_so(
            rt,
            are_done(outcome.commit.as_slice(), on.store.tree()),
            "files",
        );
        let count = world.tree.files.len().saturating_add(outcome.commit.len());
        is_number(
            rt,
            on.store.tree().files.len() as u64,
            count as u64,
            "no other files",
        );
    }
}

/// Whether some runs are shown, of which the last one is the first.
fn is_circle(text: &[u8]) -> bool {
    let Ok(text) = str::from_utf8(text) else {
        return false;
    };
    let mut lines = text.lines();
    let (head, first) = (lines.next(), lines.next());
    head == Some("circular request") && first.is_some() && first == lines.last()
}

fn are_done(acts: &[Act], tree: &Tree) -> bool {
    for act in acts {
        let is_done = match (act.bytes(), tree.find(act.path())) {
            (Some(bytes), Some(file)) => file.bytes.as_bytes() == bytes,
            (None, None) => true,
            _ => false,
        };
        if !is_done {
            return false;
        }
    }
    true
}

#[test]
fn each_run_is_made_once(rt: HostRuntime) -> Result<(), Fail> {
    for seed in 0..SETS_ON_NODES {
        let tools = Gate::new();
        build_by_one(rt.alloc(), set(rt.alloc(), seed, false)?, &tools)?;
        are_tallied(&rt, rt.alloc(), seed, tools.tally())?;
    }
    Ok(())
}

/// So many runs are made on two nodes, and on more.
fn are_tallied<R: Threads + Wait + Sync + Abort>(
    rt: &R,
    alloc: Global,
    seed: u64,
    runs: u64,
) -> Result<(), Fail> {
    for line in &[
        "build p0 --nodes 2",
        "build p0 --nodes 16",
        "build p0 --nodes 64",
    ] {
        let tools = Gate::new();
        let mut on = outside_of(alloc, set(alloc, seed, false)?, u64::MAX, None)?;
        let status = status(rt, alloc, line, &mut on, &tools)?;
        is_number(rt, u64::from(status), 0, line);
        is_number(rt, tools.tally(), runs, line);
    }
    Ok(())
}
