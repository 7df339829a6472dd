ghost use Rattle.std.specs.Prelude.{◌≡◌, ◌+◌, ◌^◌, ◌<◌, ◌++◌, List, [], None, Some, IsSome, length};
ghost use mathlib.Core.List.{IsPrefix};
ghost use Rattle.build_meaning.specs.declared.event.Event.{Event};
ghost use Rattle.build_meaning.specs.History.{retires};
ghost use Rattle.build_plain.specs.declared.alone.Turn.TheVariants.{Over};
ghost use Rattle.build_plain.specs.Used.{UnlessMemory, Uses, due, due_in};
ghost use Rattle.build_plain.specs.Driven.{
  AssignsLeast,
  Drives,
  HasGrown,
  IsFree,
  IsTurn,
  NoneAssigned,
  OnlyAssigned,
};
ghost use Rattle.build_scheduler.specs.Drivers.{Continues, IsLegal};
ghost use Rattle.build_scheduler.specs.Ends.{IsStop};
ghost use Rattle.build_scheduler.specs.Kept.{IsRepeated};
ghost use Rattle.build_scheduler.specs.Own.{IsOut, IsOwn};
ghost use Rattle.build_scheduler.specs.Position.{ask_of};
ghost use Rattle.build_scheduler.specs.Ready.{IsLeastReady};

use build_scheduler::{Answer, Ask, Core, End, Reply, Walker, go_on};
use msb_values::NoMemory;

/// What becomes of the request with the node.
#[derive(Drop)]
pub(crate) enum Turn<W> {
    /// Its walk goes on with this answer.
    GoesOn(W, Answer),
    /// It waits, calls or is over, or the build has ended.
    Over,
}

/// Builds on one node until the core's end is told: the least ready request is assigned each time,
/// and its walk is advanced until it waits, calls or is over. Want of memory, a cycle of runs and a
/// limit that is passed end the build; the node doesn't retire. Unless it wanted memory, or a node
/// had retired before, the tools that were used at the place are those that the history has, in its
/// order. After want of memory, too, they begin with those of before. (MSBuild task; Building
/// projects in parallel.)
pub fn build_alone<W: Walker>(core: &mut Core<W>, place: &mut W::Place)
    requires free { NoneAssigned (W.world_of core.old.world) core.old.history.events }
    requires place { W.Fits place.old (W.world_of core.old.world) }
    ensures world { W.world_of core.new.world ≡ W.world_of core.old.world }
    ensures continues { ∥ Continues core.old.history.events core.new.history.events ∥₁ }
    ensures legal { ∥ IsLegal (W.world_of core.new.world) core.new.history.events ∥₁ }
    ensures least { (more : List Event) → core.new.history.events ≡ core.old.history.events ++ more
        → AssignsLeast (W.world_of core.old.world) core.old.history.events more }
    ensures end { IsSome core.new.end }
    ensures free { IsFree (W.world_of core.new.world) core.new.history.events core.new.end }
    ensures uses { retires core.old.history.events ≡ 0 → UnlessMemory core.new.end
        ∥ Uses (W.world_of core.old.world) core.old.history.events core.new.history.events
        (W.used place.old) (W.used place.new) ∥₁ }
    ensures front { IsPrefix (W.used place.old) (W.used place.new) }
    ensures place { W.Fits place.new (W.world_of core.old.world) }
    ensures lent { W.lent place.new ≡ W.lent place.old }
{
    while core.end().is_none() {
        take_turn(core, place);
    }
}

/// Ends the least ready request at once, where that can be, or assigns it and works at it.
fn take_turn<W: Walker>(core: &mut Core<W>, place: &mut W::Place)
    requires running { core.old.end ≡ None }
    requires free { NoneAssigned (W.world_of core.old.world) core.old.history.events }
    requires place { W.Fits place.old (W.world_of core.old.world) }
    ensures world { W.world_of core.new.world ≡ W.world_of core.old.world }
    ensures drives { Drives (W.world_of core.old.world) core.old.history.events
        core.new.history.events }
    ensures free { IsFree (W.world_of core.old.world) core.new.history.events core.new.end }
    ensures grows { length core.old.history.events < length core.new.history.events }
    ensures few { length core.old.history.events < 2 ^ 63 }
    ensures uses { retires core.old.history.events ≡ 0 → UnlessMemory core.new.end
        ∥ Uses (W.world_of core.old.world) core.old.history.events core.new.history.events
        (W.used place.old) (W.used place.new) ∥₁ }
    ensures front { IsPrefix (W.used place.old) (W.used place.new) }
    ensures place { W.Fits place.new (W.world_of core.old.world) }
    ensures lent { W.lent place.new ≡ W.lent place.old }
{
    few_events(core);
    match core.ready() {
        Some(id) => {
            if !is_repeated(core, id) {
                hand_out(core, place, id);
            }
        }
        None => unreachable!(),
    }
}

/// Whether the least ready request is over at once, by what another one of its key has given.
/// (MSBuild task: a target is run once.)
fn is_repeated<W: Walker>(core: &mut Core<W>, id: u64) -> bool
    requires running { core.old.end ≡ None }
    requires least { IsLeastReady (W.world_of core.old.world) core.old.history.events (Some id) }
    ensures world { W.world_of core.new.world ≡ W.world_of core.old.world }
    ensures end { core.new.end ≡ core.old.end }
    ensures repeated { IsRepeated (W.world_of core.old.world) core.old.table.finished
        core.old.history.events core.new.history.events id 0 result }
{
    match core.repeat(id, 0) {
        Ok(repeated) => repeated,
        Err(NoMemory) => false,
    }
}

/// Assigns the least ready request, and works at it.
fn hand_out<W: Walker>(core: &mut Core<W>, place: &mut W::Place, id: u64)
    requires running { core.old.end ≡ None }
    requires free { NoneAssigned (W.world_of core.old.world) core.old.history.events }
    requires least { IsLeastReady (W.world_of core.old.world) core.old.history.events (Some id) }
    requires place { W.Fits place.old (W.world_of core.old.world) }
    ensures world { W.world_of core.new.world ≡ W.world_of core.old.world }
    ensures drives { Drives (W.world_of core.old.world)
        core.old.history.events core.new.history.events }
    ensures free { IsFree (W.world_of core.old.world) core.new.history.events core.new.end }
    ensures grows { length core.old.history.events < length core.new.history.events }
    ensures uses { retires core.old.history.events ≡ 0 → UnlessMemory core.new.end
        ∥ Uses (W.world_of core.old.world) core.old.history.events core.new.history.events
        (W.used place.old) (W.used place.new) ∥₁ }
    ensures front { IsPrefix (W.used place.old) (W.used place.new) }
    ensures place { W.Fits place.new (W.world_of core.old.world) }
    ensures lent { W.lent place.new ≡ W.lent place.old }
{
    let (walk, answer) = core.assign(id, 0);
    work(core, place, id, walk, answer);
}

/// Works at the request with the node until it leaves the node, or the build ends.
fn work<W: Walker>(core: &mut Core<W>, place: &mut W::Place, id: u64, walk: W, answer: Answer)
    requires running { core.old.end ≡ None }
    requires out { ∥ IsOut (W.world_of core.old.world) core.old.history.events
        core.old.table.finished id (W.seen walk) answer ∥₁ }
    requires only { OnlyAssigned (W.world_of core.old.world) core.old.history.events id }
    requires place { W.Fits place.old (W.world_of core.old.world) }
    ensures world { W.world_of core.new.world ≡ W.world_of core.old.world }
    ensures drives { Drives (W.world_of core.old.world) core.old.history.events
        core.new.history.events }
    ensures free { IsFree (W.world_of core.old.world) core.new.history.events core.new.end }
    ensures uses { UnlessMemory core.new.end ∥ Uses (W.world_of core.old.world)
        core.old.history.events core.new.history.events (W.used place.old
        ++ due (W.world_of core.old.world) core.old.table.finished (W.seen walk) answer)
        (W.used place.new) ∥₁ }
    ensures front { IsPrefix (W.used place.old) (W.used place.new) }
    ensures place { W.Fits place.new (W.world_of core.old.world) }
    ensures lent { W.lent place.new ≡ W.lent place.old }
{
    let mut turn = Turn::GoesOn(walk, answer);
    while let Turn::GoesOn(walk, answer) = turn {
        turn = step(core, place, id, walk, answer);
    }
}

/// The walk of the request with the node goes on to its next ask, which is answered where that can
/// be done at once.
fn step<W: Walker>(
    core: &mut Core<W>,
    place: &mut W::Place,
    id: u64,
    walk: W,
    answer: Answer,
) -> Turn<W>
    requires running { core.old.end ≡ None }
    requires out { ∥ IsOut (W.world_of core.old.world) core.old.history.events
        core.old.table.finished id (W.seen walk) answer ∥₁ }
    requires only { OnlyAssigned (W.world_of core.old.world) core.old.history.events id }
    requires place { W.Fits place.old (W.world_of core.old.world) }
    ensures world { W.world_of core.new.world ≡ W.world_of core.old.world }
    ensures drives { Drives (W.world_of core.old.world) core.old.history.events
        core.new.history.events }
    ensures turn { IsTurn W.seen (W.world_of core.old.world) core.new.history.events
        core.new.table.finished core.new.end id result }
    ensures grows { HasGrown core.old.history.events core.new.history.events result }
    ensures few { length core.old.history.events < 2 ^ 63 }
    ensures uses { UnlessMemory core.new.end ∥ Uses (W.world_of core.old.world)
        core.old.history.events core.new.history.events (W.used place.old
        ++ due (W.world_of core.old.world) core.old.table.finished (W.seen walk) answer)
        (W.used place.new ++ due_in W.seen (W.world_of core.old.world) core.new.table.finished
        result) ∥₁ }
    ensures front { IsPrefix (W.used place.old) (W.used place.new) }
    ensures place { W.Fits place.new (W.world_of core.old.world) }
    ensures lent { W.lent place.new ≡ W.lent place.old }
{
    few_events(core);
    let mut walk = walk;
    match go_on(core.table(), place, &mut walk, &answer) {
        Ok(ask) => answer_ask(core, id, walk, ask),
        Err(NoMemory) => stop(core, End::NoMemory),
    }
}

/// The history is a list, which has fewer than 2^63 entries: so each walk may ask once more, and
/// the build comes to its end.
fn few_events<W: Walker>(core: &Core<W>)
    ensures { length core.now.history.events < 2 ^ 63 }
{
    let _events = core.history();
}

/// Answers what the request with the node asks. Want of memory ends the build.
fn answer_ask<W: Walker>(core: &mut Core<W>, id: u64, walk: W, ask: Ask) -> Turn<W>
    requires running { core.old.end ≡ None }
    requires own { ∥ IsOwn (W.world_of core.old.world) core.old.history.events
        core.old.table.finished id (W.seen walk) ∥₁ }
    requires asks { ask_of (W.seen walk).position ≡ ask }
    requires only { OnlyAssigned (W.world_of core.old.world) core.old.history.events id }
    ensures world { W.world_of core.new.world ≡ W.world_of core.old.world }
    ensures drives { Drives (W.world_of core.old.world) core.old.history.events
        core.new.history.events }
    ensures turn { IsTurn W.seen (W.world_of core.old.world) core.new.history.events
        core.new.table.finished core.new.end id result }
    ensures grows { HasGrown core.old.history.events core.new.history.events result }
    ensures uses { ∥ Uses (W.world_of core.old.world) core.old.history.events
        core.new.history.events [] (due_in W.seen (W.world_of core.old.world)
        core.new.table.finished result) ∥₁ }
{
    match core.answer_ask(id, walk, ask) {
        Reply::GoesOn(walk, answer) => Turn::GoesOn(walk, answer),
        Reply::UsesOwn(walk) => Turn::GoesOn(walk, Answer::Use),
        Reply::Waits => Turn::Over,
        Reply::Over(_) => Turn::Over,
        Reply::Stopped => Turn::Over,
        Reply::NoMemory(_) => stop(core, End::NoMemory),
    }
}

/// Ends a build that can't go on.
fn stop<W: Walker>(core: &mut Core<W>, end: End) -> Turn<W>
    requires running { core.old.end ≡ None }
    requires shown { IsStop (W.world_of core.old.world) core.old.history.events end }
    ensures world { W.world_of core.new.world ≡ W.world_of core.old.world }
    ensures history { core.new.history.events ≡ core.old.history.events }
    ensures end { core.new.end ≡ Some end }
    ensures turn { result ≡ Over }
    ensures free { IsFree (W.world_of core.old.world) core.new.history.events core.new.end }
{
    core.stop(end);
    Turn::Over
}
