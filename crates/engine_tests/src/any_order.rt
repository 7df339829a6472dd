//! A build on several nodes, step by step: each request that is with a node has asked, and any of
//! them is answered next. One that is ready may be over at once, by what another one of its key has
//! given.
ghost use Rattle.std.specs.Prelude.{◌≡◌, ◌+◌, ◌^◌, ◌<◌, [], All, length, None, Some, IfSome};
ghost use Rattle.build_scheduler.specs.Kept.{IsRepeated};
ghost use Rattle.build_scheduler.specs.Own.{IsOut, IsOwn};
ghost use Rattle.build_scheduler.specs.Position.{ask_of, begins};
ghost use Rattle.build_scheduler.specs.Ready.{IsReady};
ghost use Rattle.build_scheduler.specs.Drivers.{Continues};
ghost use Rattle.engine_tests.specs.Trials.{IsAsking};

use crate::account::Account;
use crate::random::Random;
use build_outcome::Outcome;
use build_scheduler::{Answer, Ask, Core, End, Reply, Walker, are_of_others, go_on};
use build_world::World;
use msb_instance::Instances;
use msb_values::{NoMemory, Text};
use request_machine::{NodeContext, Walk, root_key};
use result_cache::RequestKey;
use std::alloc::Global;
use task_trait::CountedTools;

/// A request with a node, whose walk asks this.
#[derive(Drop)]
struct Asking<W> {
    id: u64,
    walk: W,
    ask: Ask,
    /// How many events there were when the walk was advanced.
    number: usize,
}

/// A request with a node, whose walk goes on with this answer.
#[derive(Drop)]
struct Next<W> {
    id: u64,
    walk: W,
    answer: Answer,
}

/// A build, and its requests that are with nodes.
#[derive(Drop)]
pub struct AnyOrder<W: Walker> {
    pub core: Core<W>,
    out: Vec<Asking<W>>,
    ghost asking: { All (λ a. IsAsking (W.world_of core.world) core.history.events a.id a.number
        (W.seen a.walk) a.ask) out.items },
}

impl<W: Walker> AnyOrder<W> {
    pub fn new(alloc: Global, core: Core<W>) -> AnyOrder<W>
        ensures { result.core ≡ core }
    {
        AnyOrder {
            core,
            out: Vec::new(alloc),
        }
    }

    /// One event, or all those by which a request is over at once, if the build has not ended: the
    /// choice says whose.
    pub fn turn(&mut self, place: &mut W::Place, choice: u64) -> Result<(), NoMemory>
        requires place { W.Fits place.old (W.world_of self.old.core.world) }
        ensures place { W.Fits place.new (W.world_of self.new.core.world) }
    {
        if self.core.end().is_some() {
            return Ok(());
        }
        match next_of(&mut self.core, &mut self.out, choice) {
            Some(next) => advance(&self.core, &mut self.out, place, next),
            None => Ok(()),
        }
    }

    /// Whether no request is with a node, and the least one that is ready is this one.
    pub fn is_next(&self, id: u64) -> bool {
        self.out.is_empty() && self.core.ready() == Some(id)
    }

    /// The core; requests that are with nodes are dropped.
    pub fn into_core(self) -> Core<W> {
        let AnyOrder { core, out: _ } = self;
        core
    }
}

/// What comes of a build whose events are looked at.
#[derive(Drop)]
pub struct Watched {
    /// There is none where the build did not come to its end.
    pub outcome: Option<Outcome>,
    /// The first rule that was broken; empty where none was.
    pub broken: Text,
    /// How many requests were over at once.
    pub repeats: u64,
}

/// What comes of a build whose events come in the order of this seed.
pub fn in_any_order<'a, T: CountedTools + 'a>(
    alloc: Global,
    world: &'a World,
    tools: &'a mut T,
    seed: u64,
) -> Result<Watched, NoMemory> {
    let key = root_key(world)?;
    let walk = Walk::start(alloc, world)?;
    let mut site = NodeContext {
        world,
        tools: &mut *tools,
        instances: Instances::new(alloc),
    };
    watch_build(alloc, key, walk, &mut site, Random::new(seed))
}

fn watch_build<W: Walker>(
    alloc: Global,
    key: RequestKey,
    walk: W,
    place: &mut W::Place,
    random: Random,
) -> Result<Watched, NoMemory>
    requires key { key ≡ (W.seen walk).world.root }
    requires begins { (W.seen walk).position ≡ begins (W.seen walk).world key [] }
    requires asked { (W.seen walk).asked ≡ 0 }
    requires learnt { (W.seen walk).learnt ≡ [] }
    requires place { W.Fits place.old (W.seen walk).world }
{
    let core = Core::new(alloc, key, walk)?;
    let mut build = AnyOrder::new(alloc, core);
    let account = play_to_end(alloc, &mut build, place, random)?;
    Ok(Watched {
        outcome: outcome_of(alloc, &build.core)?,
        broken: Text::of(alloc, account.broken)?,
        repeats: account.repeats,
    })
}

fn outcome_of<W: Walker>(alloc: Global, core: &Core<W>) -> Result<Option<Outcome>, NoMemory> {
    if core.end().is_none() {
        return Ok(None);
    }
    Ok(Some(Outcome::of(alloc, core, false)?))
}

/// The account of a build that is played to its end.
fn play_to_end<W: Walker>(
    alloc: Global,
    build: &mut AnyOrder<W>,
    place: &mut W::Place,
    random: Random,
) -> Result<Account, NoMemory>
    requires { W.Fits place.old (W.world_of build.old.core.world) }
{
    let mut account = Account::new(alloc)?;
    play(build, &mut account, place, random)?;
    Ok(account)
}

/// The build goes on to its end.
fn play<W: Walker>(
    build: &mut AnyOrder<W>,
    account: &mut Account,
    place: &mut W::Place,
    random: Random,
) -> Result<(), NoMemory>
    requires { W.Fits place.old (W.world_of build.old.core.world) }
{
    let mut random = random;
    for _ in 0..MOST_TURNS {
        build.turn(place, random.next())?;
        account.look(&build.core)?;
        if build.core.end().is_some() {
            return Ok(());
        }
    }
    account.rule(false, "the build comes to its end");
    Ok(())
}

/// A build that has not ended after so many turns goes on no more.
const MOST_TURNS: usize = 100_000;

/// Answers one of the requests that ask, or assigns the least one that is ready.
fn next_of<W: Walker>(core: &mut Core<W>, out: &mut Vec<Asking<W>>, choice: u64) -> Option<Next<W>>
    requires running { core.old.end ≡ None }
    requires out { All (λ a. IsAsking (W.world_of core.old.world) core.old.history.events a.id
        a.number (W.seen a.walk) a.ask) out.old.items }
    ensures world { W.world_of core.new.world ≡ W.world_of core.old.world }
    ensures out { All (λ a. IsAsking (W.world_of core.new.world) core.new.history.events a.id
        a.number (W.seen a.walk) a.ask) out.new.items }
    ensures next { IfSome result (λ next. ∥ IsOut (W.world_of core.new.world)
        core.new.history.events core.new.table.finished next.id (W.seen next.walk) next.answer ∥₁) }
{
    let at = (choice % (out.len() as u64 + 1)) as usize;
    if at < out.len() {
        let asking = out.remove(at);
        bring_back(core, asking)
    } else {
        assign_least(core, (choice % 7) as u32)
    }
}

/// Assigns the least request that is ready, if any is, unless it is over at once.
fn assign_least<W: Walker>(core: &mut Core<W>, node: u32) -> Option<Next<W>>
    requires running { core.old.end ≡ None }
    ensures world { W.world_of core.new.world ≡ W.world_of core.old.world }
    ensures continues { ∥ Continues core.old.history.events core.new.history.events ∥₁ }
    ensures next { IfSome result (λ next. ∥ IsOut (W.world_of core.old.world)
        core.new.history.events core.new.table.finished next.id (W.seen next.walk) next.answer ∥₁) }
{
    match core.ready() {
        None => None,
        Some(id) => hand_out(core, id, node),
    }
}

/// Assigns a ready request, unless it is over at once.
fn hand_out<W: Walker>(core: &mut Core<W>, id: u64, node: u32) -> Option<Next<W>>
    requires running { core.old.end ≡ None }
    requires ready { ∥ IsReady (W.world_of core.old.world) core.old.history.events id ∥₁ }
    ensures world { W.world_of core.new.world ≡ W.world_of core.old.world }
    ensures continues { ∥ Continues core.old.history.events core.new.history.events ∥₁ }
    ensures next { IfSome result (λ next. ∥ IsOut (W.world_of core.old.world)
        core.new.history.events core.new.table.finished next.id (W.seen next.walk) next.answer ∥₁) }
{
    if is_repeated(core, id, node) {
        None
    } else {
        let (walk, answer) = core.assign(id, node);
        Some(Next { id, walk, answer })
    }
}

/// Whether a ready request is over at once, by what another one of its key has given.
fn is_repeated<W: Walker>(core: &mut Core<W>, id: u64, node: u32) -> bool
    requires running { core.old.end ≡ None }
    requires ready { ∥ IsReady (W.world_of core.old.world) core.old.history.events id ∥₁ }
    ensures world { W.world_of core.new.world ≡ W.world_of core.old.world }
    ensures end { core.new.end ≡ core.old.end }
    ensures repeated { IsRepeated (W.world_of core.old.world) core.old.table.finished
        core.old.history.events core.new.history.events id node result }
{
    match core.repeat(id, node) {
        Ok(repeated) => repeated,
        Err(NoMemory) => false,
    }
}

/// Answers a request, unless it has moved since it asked.
fn bring_back<W: Walker>(core: &mut Core<W>, asking: Asking<W>) -> Option<Next<W>>
    requires running { core.old.end ≡ None }
    requires asking { IsAsking (W.world_of core.old.world) core.old.history.events asking.id
        asking.number (W.seen asking.walk) asking.ask }
    ensures world { W.world_of core.new.world ≡ W.world_of core.old.world }
    ensures continues { Continues core.old.history.events core.new.history.events }
    ensures next { IfSome result (λ next. ∥ IsOut (W.world_of core.old.world)
        core.new.history.events core.new.table.finished next.id (W.seen next.walk) next.answer ∥₁) }
{
    let Asking {
        id,
        walk,
        ask,
        number,
    } = asking;
    if are_of_others(core.history(), id, number) {
        answer_ask(core, id, walk, ask)
    } else {
        None
    }
}

/// Answers what a request with a node asks. Want of memory ends the build.
fn answer_ask<W: Walker>(core: &mut Core<W>, id: u64, walk: W, ask: Ask) -> Option<Next<W>>
    requires running { core.old.end ≡ None }
    requires own { ∥ IsOwn (W.world_of core.old.world) core.old.history.events
        core.old.table.finished id (W.seen walk) ∥₁ }
    requires asks { ask_of (W.seen walk).position ≡ ask }
    ensures world { W.world_of core.new.world ≡ W.world_of core.old.world }
    ensures continues { Continues core.old.history.events core.new.history.events }
    ensures next { IfSome result (λ next. ∥ IsOut (W.world_of core.old.world)
        core.new.history.events core.new.table.finished next.id (W.seen next.walk) next.answer ∥₁) }
{
    match core.answer_ask(id, walk, ask) {
        Reply::GoesOn(walk, answer) => Some(Next { id, walk, answer }),
        Reply::UsesOwn(walk) => Some(Next {
            id,
            walk,
            answer: Answer::Use,
        }),
        Reply::Waits => None,
        Reply::Over(_) => None,
        Reply::Stopped => None,
        Reply::NoMemory(_) => {
            core.stop(End::NoMemory);
            None
        }
    }
}

/// The walk of a request with a node goes on to what it asks next.
fn advance<W: Walker>(
    core: &Core<W>,
    out: &mut Vec<Asking<W>>,
    place: &mut W::Place,
    next: Next<W>,
) -> Result<(), NoMemory>
    requires out { All (λ a. IsAsking (W.world_of core.now.world) core.now.history.events a.id
        a.number (W.seen a.walk) a.ask) out.old.items }
    requires next { ∥ IsOut (W.world_of core.now.world) core.now.history.events
        core.now.table.finished next.id (W.seen next.walk) next.answer ∥₁ }
    requires place { W.Fits place.old (W.world_of core.now.world) }
    ensures place { W.Fits place.new (W.world_of core.now.world) }
    ensures out { All (λ a. IsAsking (W.world_of core.now.world) core.now.history.events a.id
        a.number (W.seen a.walk) a.ask) out.new.items }
{
    let Next {
        id,
        mut walk,
        answer,
    } = next;
    let number = event_count(core);
    let ask = go_on(core.table(), place, &mut walk, &answer)?;
    out.push(Asking {
        id,
        walk,
        ask,
        number,
    })?;
    Ok(())
}

fn event_count<W: Walker>(core: &Core<W>) -> usize
    ensures count { result ≡ length core.now.history.events }
    ensures few { length core.now.history.events < 2 ^ 63 }
{
    core.history().len()
}
