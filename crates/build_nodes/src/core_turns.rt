//! What a node does with the core while it has it.
ghost use Rattle.std.specs.Prelude.{◌≡◌, ◌<◌, ◌^◌, false, drop, length, None, Some};
ghost use Rattle.std.specs.List.{list_any};
ghost use mathlib.Core.List.{IsPrefix};
ghost use Rattle.build_scheduler.specs.Drivers.{AreAlike};
ghost use Rattle.build_scheduler.specs.Kept.{IsRepeated};
ghost use Rattle.build_scheduler.specs.Own.{IsOut, IsOwn};
ghost use Rattle.build_scheduler.specs.Position.{answered, ask_of};
ghost use Rattle.build_scheduler.specs.Ready.{IsAssignedTo, IsSomeReady};
ghost use Rattle.build_nodes.specs.Leaving.{IsSpent, has_left, is_retire_of};
ghost use Rattle.build_nodes.specs.Marked.{marked};
ghost use Rattle.build_nodes.specs.Turns.{CanGoBack, IsAnswered, IsAsking, IsBrought, IsNext};

use crate::shared::few_events;
use crate::turn::{Answered, Asking, Brought, Discarded, Held, Next};
use build_scheduler::{Answer, Core, Event, Reply, Walker, are_of_others, learn_records};
use msb_values::NoMemory;

/// One turn of a node: what it brings goes on, and where its request can't, the next request that
/// is ready is assigned to the node. There is nothing to do next once the end is told, or the node
/// has retired.
pub(crate) fn turn<W: Walker>(
    core: &mut Core<W>,
    node: u32,
    brought: Brought<W>,
    discarded: &mut Discarded<W>,
) -> Option<Next<W>>
    requires spent { IsSpent core.old.history.nodes core.old.history.events core.old.end }
    requires brought { IsBrought W.seen W.earlier node (W.world_of core.old.world)
        (marked core.old.history.events core.old.end) brought }
    ensures world { W.world_of core.new.world ≡ W.world_of core.old.world }
    ensures continues { IsPrefix (marked core.old.history.events core.old.end)
        (marked core.new.history.events core.new.end) }
    ensures nodes { core.new.history.nodes ≡ core.old.history.nodes }
    ensures spent { IsSpent core.new.history.nodes core.new.history.events core.new.end }
    ensures next { IsNext W.seen W.earlier node (W.world_of core.new.world)
        (marked core.new.history.events core.new.end) result }
{
    if core.end().is_some() {
        return None;
    }
    if has_retired(core.history(), node, brought.number()) {
        return None;
    }
    match brought {
        Brought::Nothing(_) => assign_next(core, node),
        Brought::Walk(asking) => bring_back(core, node, asking, discarded),
        Brought::Refused(answered) => give_back(core, node, answered, discarded),
    }
}

/// Whether an event from this number on is a Retire of the node.
fn has_retired(events: &[Event], node: u32, number: usize) -> bool
    ensures { result ≡ list_any (is_retire_of node) (drop number events.now) }
{
    events_from(events, number)
        .iter()
        .any(|event| is_retire_of(event, node))
}

/// The events from this number on. A `skip` would step over all that come before.
fn events_from(events: &[Event], number: usize) -> &[Event]
    ensures { result.now ≡ drop number events.now }
{
    if number >= events.len() {
        return &[];
    }
    &events[number..]
}

/// Whether an event is a Retire of the node.
fn is_retire_of(event: &Event, node: u32) -> bool
    ensures { result ≡ is_retire_of node event.now }
{
    match event {
        Event::Assign(_, _) => false,
        Event::Claim(_, _, _) => false,
        Event::Request(_, _) => false,
        Event::Result(_, _) => false,
        Event::Done(_) => false,
        Event::Retire(_, by) => *by == node,
    }
}

/// Goes on with a walk that the node has advanced, unless its request has moved meanwhile: then the
/// walk is discarded.
fn bring_back<W: Walker>(
    core: &mut Core<W>,
    node: u32,
    asking: Asking<W>,
    discarded: &mut Discarded<W>,
) -> Option<Next<W>>
    requires running { core.old.end ≡ None }
    requires active { has_left node (marked core.old.history.events core.old.end) ≡ false }
    requires asking { ∥ IsAsking W.seen W.earlier node (W.world_of core.old.world)
        (marked core.old.history.events core.old.end) asking ∥₁ }
    ensures world { W.world_of core.new.world ≡ W.world_of core.old.world }
    ensures continues { IsPrefix (marked core.old.history.events core.old.end)
        (marked core.new.history.events core.new.end) }
    ensures nodes { core.new.history.nodes ≡ core.old.history.nodes }
    ensures spent { IsSpent core.new.history.nodes core.new.history.events core.new.end }
    ensures next { IsNext W.seen W.earlier node (W.world_of core.new.world)
        (marked core.new.history.events core.new.end) result }
{
    if are_of_others(core.history(), asking.id, asking.number) {
        go_on(core, node, asking, discarded)
    } else {
        let Asking {
            id: _,
            walk,
            answer,
            ask: _,
            number: _,
        } = asking;
        discarded.put(walk, answer);
        assign_next(core, node)
    }
}

/// One event of the request that the node has: what its walk asks.
fn go_on<W: Walker>(
    core: &mut Core<W>,
    node: u32,
    asking: Asking<W>,
    discarded: &mut Discarded<W>,
) -> Option<Next<W>>
    requires running { core.old.end ≡ None }
    requires active { has_left node (marked core.old.history.events core.old.end) ≡ false }
    requires own { ∥ IsOwn (W.world_of core.old.world) core.old.history.events
        core.old.table.finished asking.id (W.seen asking.walk) ∥₁ }
    requires here { ∥ IsAssignedTo (W.world_of core.old.world) core.old.history.events asking.id
        node ∥₁ }
    requires back { ∥ CanGoBack W.seen W.earlier (W.world_of core.old.world) core.old.history.events
        core.old.table.finished asking.id asking.walk asking.answer ∥₁ }
    requires asks { ask_of (W.seen asking.walk).position ≡ asking.ask }
    ensures world { W.world_of core.new.world ≡ W.world_of core.old.world }
    ensures continues { IsPrefix (marked core.old.history.events core.old.end)
        (marked core.new.history.events core.new.end) }
    ensures nodes { core.new.history.nodes ≡ core.old.history.nodes }
    ensures spent { IsSpent core.new.history.nodes core.new.history.events core.new.end }
    ensures next { IsNext W.seen W.earlier node (W.world_of core.new.world)
        (marked core.new.history.events core.new.end) result }
{
    let Asking {
        id,
        walk,
        answer,
        ask,
        number: _,
    } = asking;
    match core.answer_ask(id, walk, ask) {
        Reply::GoesOn(walk, next) => {
            discarded.answer = Some(answer);
            let answer = next;
            give_answer(core, node, Held { id, walk, answer })
        }
        Reply::UsesOwn(walk) => {
            discarded.answer = Some(answer);
            let answer = Answer::Use;
            hand_over(core, node, Held { id, walk, answer })
        }
        Reply::Waits => {
            discarded.answer = Some(answer);
            assign_next(core, node)
        }
        Reply::Over(left) => {
            discarded.answer = Some(answer);
            discarded.walk = left;
            if core.end().is_some() {
                return None;
            }
            assign_next(core, node)
        }
        Reply::Stopped => None,
        Reply::NoMemory(walk) => take_back(core, node, Held { id, walk, answer }),
    }
}

/// Assigns the next request that is ready to the node.
fn assign_next<W: Walker>(core: &mut Core<W>, node: u32) -> Option<Next<W>>
    requires running { core.old.end ≡ None }
    requires active { has_left node (marked core.old.history.events core.old.end) ≡ false }
    ensures world { W.world_of core.new.world ≡ W.world_of core.old.world }
    ensures continues { IsPrefix (marked core.old.history.events core.old.end)
        (marked core.new.history.events core.new.end) }
    ensures nodes { core.new.history.nodes ≡ core.old.history.nodes }
    ensures spent { IsSpent core.new.history.nodes core.new.history.events core.new.end }
    ensures next { IsNext W.seen W.earlier node (W.world_of core.new.world)
        (marked core.new.history.events core.new.end) result }
{
    match next_ready(core, node) {
        None => Some(Next::Park(core.history().len())),
        Some(id) => {
            let (walk, answer) = core.assign(id, node);
            give_answer(core, node, Held { id, walk, answer })
        }
    }
}

/// The next ready request whose walk goes on. Those before it are over at once, by what others of
/// their keys have given. (MSBuild task: a target is run once.)
fn next_ready<W: Walker>(core: &mut Core<W>, node: u32) -> Option<u64>
    requires running { core.old.end ≡ None }
    requires active { has_left node (marked core.old.history.events core.old.end) ≡ false }
    ensures world { W.world_of core.new.world ≡ W.world_of core.old.world }
    ensures running { core.new.end ≡ None }
    ensures active { has_left node (marked core.new.history.events core.new.end) ≡ false }
    ensures continues { IsPrefix (marked core.old.history.events core.old.end)
        (marked core.new.history.events core.new.end) }
    ensures nodes { core.new.history.nodes ≡ core.old.history.nodes }
    ensures ready { IsSomeReady (W.world_of core.new.world) core.new.history.events result }
{
    let mut next = core.next_ready();
    while let Some(id) = next {
        if !is_repeated(core, id, node) {
            return Some(id);
        }
        next = core.next_ready();
    }
    None
}

/// Whether a ready request is over at once, by what another one of its key has given. Then
/// events have come, of which there are few: so this can't be so again and again.
fn is_repeated<W: Walker>(core: &mut Core<W>, id: u64, node: u32) -> bool
    requires running { core.old.end ≡ None }
    requires ready { IsSomeReady (W.world_of core.old.world) core.old.history.events (Some id) }
    ensures world { W.world_of core.new.world ≡ W.world_of core.old.world }
    ensures end { core.new.end ≡ core.old.end }
    ensures nodes { core.new.history.nodes ≡ core.old.history.nodes }
    ensures few { length core.old.history.events < 2 ^ 63 }
    ensures repeated { IsRepeated (W.world_of core.old.world) core.old.table.finished
        core.old.history.events core.new.history.events id node result }
{
    few_events(core);
    match core.repeat(id, node) {
        Ok(repeated) => repeated,
        Err(NoMemory) => false,
    }
}

/// Lets the walk learn the records that its next answer needs, and hands it to the node.
fn give_answer<W: Walker>(core: &mut Core<W>, node: u32, held: Held<W>) -> Option<Next<W>>
    requires running { core.old.end ≡ None }
    requires active { has_left node (marked core.old.history.events core.old.end) ≡ false }
    requires out { ∥ IsOut (W.world_of core.old.world) core.old.history.events
        core.old.table.finished held.id (W.seen held.walk) held.answer ∥₁ }
    requires here { ∥ IsAssignedTo (W.world_of core.old.world) core.old.history.events held.id
        node ∥₁ }
    ensures world { W.world_of core.new.world ≡ W.world_of core.old.world }
    ensures continues { IsPrefix (marked core.old.history.events core.old.end)
        (marked core.new.history.events core.new.end) }
    ensures nodes { core.new.history.nodes ≡ core.old.history.nodes }
    ensures spent { IsSpent core.new.history.nodes core.new.history.events core.new.end }
    ensures next { IsNext W.seen W.earlier node (W.world_of core.new.world)
        (marked core.new.history.events core.new.end) result }
{
    let Held {
        id,
        mut walk,
        answer,
    } = held;
    match learn_records(&mut walk, core.table(), &answer) {
        Ok(()) => hand_over(core, node, Held { id, walk, answer }),
        Err(NoMemory) => retire(core, node, Held { id, walk, answer }),
    }
}

/// Hands a walk to the node, which knows enough for its answer. The node advances it when it has
/// given the core back.
fn hand_over<W: Walker>(core: &mut Core<W>, node: u32, held: Held<W>) -> Option<Next<W>>
    requires running { core.old.end ≡ None }
    requires active { has_left node (marked core.old.history.events core.old.end) ≡ false }
    requires out { ∥ IsOut (W.world_of core.old.world) core.old.history.events
        core.old.table.finished held.id (W.seen held.walk) held.answer ∥₁ }
    requires here { ∥ IsAssignedTo (W.world_of core.old.world) core.old.history.events held.id
        node ∥₁ }
    requires enough { AreAlike (W.seen held.walk).world (W.seen held.walk).learnt
        core.old.table.finished (W.seen held.walk).position held.answer }
    ensures world { W.world_of core.new.world ≡ W.world_of core.old.world }
    ensures continues { IsPrefix (marked core.old.history.events core.old.end)
        (marked core.new.history.events core.new.end) }
    ensures nodes { core.new.history.nodes ≡ core.old.history.nodes }
    ensures spent { IsSpent core.new.history.nodes core.new.history.events core.new.end }
    ensures next { IsNext W.seen W.earlier node (W.world_of core.new.world)
        (marked core.new.history.events core.new.end) result }
{
    let Held { id, walk, answer } = held;
    Some(Next::Advance(Answered {
        id,
        walk,
        answer,
        number: core.history().len(),
    }))
}

/// Gives a request back whose walk the node had no memory to advance, unless it has moved
/// meanwhile: then the walk is discarded.
fn give_back<W: Walker>(
    core: &mut Core<W>,
    node: u32,
    answered: Answered<W>,
    discarded: &mut Discarded<W>,
) -> Option<Next<W>>
    requires running { core.old.end ≡ None }
    requires active { has_left node (marked core.old.history.events core.old.end) ≡ false }
    requires answered { ∥ IsAnswered W.seen W.earlier node (W.world_of core.old.world)
        (marked core.old.history.events core.old.end) answered ∥₁ }
    ensures world { W.world_of core.new.world ≡ W.world_of core.old.world }
    ensures continues { IsPrefix (marked core.old.history.events core.old.end)
        (marked core.new.history.events core.new.end) }
    ensures nodes { core.new.history.nodes ≡ core.old.history.nodes }
    ensures spent { IsSpent core.new.history.nodes core.new.history.events core.new.end }
    ensures next { IsNext W.seen W.earlier node (W.world_of core.new.world)
        (marked core.new.history.events core.new.end) result }
{
    let Answered {
        id,
        walk,
        answer,
        number,
    } = answered;
    if are_of_others(core.history(), id, number) {
        retire(core, node, Held { id, walk, answer })
    } else {
        discarded.put(walk, answer);
        assign_next(core, node)
    }
}

/// Takes the last answer of a walk back, and gives its request back.
fn take_back<W: Walker>(core: &mut Core<W>, node: u32, held: Held<W>) -> Option<Next<W>>
    requires running { core.old.end ≡ None }
    requires here { ∥ IsAssignedTo (W.world_of core.old.world) core.old.history.events held.id
        node ∥₁ }
    requires back { ∥ CanGoBack W.seen W.earlier (W.world_of core.old.world) core.old.history.events
        core.old.table.finished held.id held.walk held.answer ∥₁ }
    ensures world { W.world_of core.new.world ≡ W.world_of core.old.world }
    ensures continues { IsPrefix (marked core.old.history.events core.old.end)
        (marked core.new.history.events core.new.end) }
    ensures nodes { core.new.history.nodes ≡ core.old.history.nodes }
    ensures spent { IsSpent core.new.history.nodes core.new.history.events core.new.end }
    ensures next { IsNext W.seen W.earlier node (W.world_of core.new.world)
        (marked core.new.history.events core.new.end) result }
{
    let Held {
        id,
        mut walk,
        answer,
    } = held;
    walk.back();
    retire(core, node, Held { id, walk, answer })
}

/// Gives a request back for which the node has no memory: the node has retired. Where no other node
/// is left, the end is told.
fn retire<W: Walker>(core: &mut Core<W>, node: u32, held: Held<W>) -> Option<Next<W>>
    requires running { core.old.end ≡ None }
    requires out { ∥ IsOut (W.world_of core.old.world) core.old.history.events
        core.old.table.finished held.id (W.seen held.walk) held.answer ∥₁ }
    requires here { ∥ IsAssignedTo (W.world_of core.old.world) core.old.history.events held.id
        node ∥₁ }
    ensures world { W.world_of core.new.world ≡ W.world_of core.old.world }
    ensures continues { IsPrefix (marked core.old.history.events core.old.end)
        (marked core.new.history.events core.new.end) }
    ensures nodes { core.new.history.nodes ≡ core.old.history.nodes }
    ensures spent { IsSpent core.new.history.nodes core.new.history.events core.new.end }
    ensures next { IsNext W.seen W.earlier node (W.world_of core.new.world)
        (marked core.new.history.events core.new.end) result }
{
    let Held { id, walk, answer } = held;
    core.retire(id, walk, answer);
    None
}
