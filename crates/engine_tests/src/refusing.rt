//! Builds in which a walk is refused memory once: of two nodes the other one goes on, and on one
//! node the build ends.
ghost use Rattle.std.specs.Prelude.{◌≡◌, ◌<◌, ◌≤◌, [], All, IfOk, IsSome, vec_len};
ghost use Rattle.build_scheduler.specs.Position.{begins};

use crate::orders::world;
use crate::random::set;
use crate::runs::{is_number, is_so};
use build_nodes::build_with;
use build_outcome::Outcome;
use build_scheduler::{Answer, Ask, Core, End, Event, Walker};
use build_world::World;
use gate_tools::Gate;
use msb_instance::Instances;
use msb_outcomes::contexts_of;
use msb_values::NoMemory;
use request_machine::{Walk, root_key};
use result_cache::{RequestKey, Table};
use std::alloc::Global;
use std::sync::Wait;
use std::test::Fail;
use std::thread::Threads;
use task_trait::{Counted, CountedTools, Tools};

/// A walk that has no memory to advance, once, where it refuses.
#[derive(Drop)]
struct Refusing<W> {
    walk: W,
    refuses: bool,
}

impl<W: Walker> Walker for Refusing<W> {
    type Place = W::Place;

    type Origin = W::Origin;

    ghost Site = { W.Site };

    ghost Input = { W.Input };

    ghost Output = { W.Output };

    ghost world_of = { W.world_of };

    ghost seen = { λ refusing. W.seen refusing.walk };

    ghost earlier = { λ refusing. W.earlier refusing.walk };

    ghost used = { W.used };

    ghost lent = { W.lent };

    ghost Fits = { W.Fits };

    ghost plain_for = { λ refusing. W.plain_for refusing.walk };

    ghost fits_once = { W.fits_once };

    fn origin(&self) -> W::Origin {
        self.walk.origin()
    }

    fn child(&self, key: &RequestKey) -> Result<Refusing<W>, NoMemory> {
        Ok(Refusing {
            walk: self.walk.child(key)?,
            refuses: false,
        })
    }

    fn take_journal(&mut self, call: Refusing<W>, table: &Table) {
        let Refusing { walk, refuses: _ } = call;
        self.walk.take_journal(walk, table);
    }

    fn knows_nothing(&self) -> bool {
        self.walk.knows_nothing()
    }

    fn runs_used(&self) -> usize {
        self.walk.runs_used()
    }

    fn copy_end(&self) -> Result<Refusing<W>, NoMemory> {
        Ok(Refusing {
            walk: self.walk.copy_end()?,
            refuses: false,
        })
    }

    fn end_as(&self, end: &Refusing<W>, table: &Table) -> Result<Refusing<W>, NoMemory> {
        Ok(Refusing {
            walk: self.walk.end_as(&end.walk, table)?,
            refuses: false,
        })
    }

    fn is_plain(&self, key: &RequestKey) -> bool {
        self.walk.is_plain(key)
    }

    fn learn(&mut self, table: &Table, answer: &Answer) -> Result<(), NoMemory> {
        self.walk.learn(table, answer)
    }

    fn advance(&mut self, place: &mut W::Place, answer: &Answer) -> Result<Ask, NoMemory> {
        if self.refuses {
            self.refuses = false;
            return Err(NoMemory);
        }
        self.walk.advance(place, answer)
    }

    fn back(&mut self) {
        self.walk.back()
    }
}

/// What comes of a build: there is no outcome where it ended for want of memory.
#[derive(Drop)]
struct Told {
    outcome: Option<Outcome>,
    retires: u64,
}

/// How a build is made: on so many nodes, and with a root's walk that refuses or not.
#[derive(Clone, Copy)]
struct Manner {
    nodes: u32,
    refuses: bool,
}

#[test]
fn another_node_goes_on(rt: HostRuntime) -> Result<(), Fail> {
    let usual = on_nodes(&rt, rt.alloc(), 2, false)?;
    let refused = on_nodes(&rt, rt.alloc(), 2, true)?;
    is_number(&rt, usual.retires, 0, "no node retires");
    is_number(&rt, refused.retires, 1, "one node retires");
    is_so(&rt, usual.outcome.is_some(), "the build comes to its end");
    is_so(&rt, are_same(&usual, &refused), "the outcome is the same");
    Ok(())
}

#[test]
fn the_last_node_ends_the_build(rt: HostRuntime) -> Result<(), Fail> {
    let refused = on_nodes(&rt, rt.alloc(), 1, true)?;
    is_number(&rt, refused.retires, 0, "the last node does not retire");
    is_so(&rt, refused.outcome.is_none(), "the end is want of memory");
    Ok(())
}

/// Whether both builds print the same.
fn are_same(one: &Told, other: &Told) -> bool {
    match (&one.outcome, &other.outcome) {
        (Some(one), Some(other)) => {
            one.status == other.status && one.text.as_bytes() == other.text.as_bytes()
        }
        _ => false,
    }
}

/// A build of a set on so many nodes, in which the root's walk refuses or not.
fn on_nodes<R: Threads + Wait + Sync>(
    rt: &R,
    alloc: Global,
    nodes: u32,
    refuses: bool,
) -> Result<Told, Fail>
    requires { (0 < nodes) × (nodes ≤ 64) }
{
    let world = world(alloc, set(alloc, 3, false)?)?;
    let tools = Gate::new();
    let manner = Manner { nodes, refuses };
    Ok(build_on(rt, alloc, manner, &world, &tools)?)
}

fn build_on<R: Threads + Wait + Sync, T: Tools + Sync>(
    rt: &R,
    alloc: Global,
    manner: Manner,
    world: &World,
    tools: &T,
) -> Result<Told, NoMemory>
    requires { (0 < manner.nodes) × (manner.nodes ≤ 64) }
{
    let mut counted = count_tools(alloc, manner.nodes, tools)?;
    build_at(rt, alloc, world, &mut counted, manner.refuses)
}

fn count_tools<'a, T: Tools>(
    alloc: Global,
    nodes: u32,
    tools: &'a T,
) -> Result<Vec<Counted<'a, T>>, NoMemory>
    ensures { IfOk result (λ counted. vec_len counted ≡ nodes) }
{
    let mut counted = Vec::new(alloc);
    for _ in 0..nodes {
        counted.push(Counted::new(alloc, tools)?)?;
    }
    Ok(counted)
}

fn build_at<'a, R: Threads + Wait + Sync, T: CountedTools + Send + Drop + 'a>(
    rt: &R,
    alloc: Global,
    world: &'a World,
    tools: &'a mut Vec<T>,
    refuses: bool,
) -> Result<Told, NoMemory>
    requires { (0 < vec_len tools.old) × (vec_len tools.old ≤ 64) }
{
    let key = root_key(world)?;
    let walk = Walk::start(alloc, world)?;
    let contexts = contexts_of(alloc, world, Instances::new(alloc), tools)?;
    build_walk(rt, alloc, key, Refusing { walk, refuses }, contexts)
}

fn build_walk<R: Threads + Wait + Sync, W: Walker + Send>(
    rt: &R,
    alloc: Global,
    key: RequestKey,
    walk: W,
    places: Vec<W::Place>,
) -> Result<Told, NoMemory>
where
    W::Place: Send + Drop,
    W::Origin: Send,
    requires key { key ≡ (W.seen walk).world.root }
    requires begins { (W.seen walk).position ≡ begins (W.seen walk).world key [] }
    requires asked { (W.seen walk).asked ≡ 0 }
    requires learnt { (W.seen walk).learnt ≡ [] }
    requires places { (0 < vec_len places) × (vec_len places ≤ 64) }
    requires fits { All (λ place. W.Fits place (W.seen walk).world) places.items }
{
    let core = Core::new(alloc, key, walk)?;
    let built = build_with(rt, alloc, core, places)?;
    Ok(Told {
        outcome: outcome_of(alloc, &built)?,
        retires: retires(built.history()),
    })
}

fn outcome_of<W: Walker>(alloc: Global, core: &Core<W>) -> Result<Option<Outcome>, NoMemory>
    requires { IsSome core.now.end }
{
    if matches!(core.end(), Some(End::NoMemory)) {
        return Ok(None);
    }
    Ok(Some(Outcome::of(alloc, core, false)?))
}

/// How many nodes have retired.
fn retires(events: &[Event]) -> u64 {
    let mut count = 0u64;
    for event in events {
        count = count.saturating_add(u64::from(matches!(event, Event::Retire(_, _))));
    }
    count
}
