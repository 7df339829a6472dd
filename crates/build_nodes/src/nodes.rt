ghost use Rattle.std.specs.Prelude.{
  ◌≡◌,
  ◌+◌,
  ◌-◌,
  ◌<◌,
  ◌≤◌,
  ◌++◌,
  ◌∷◌,
  [],
  All,
  map,
  true,
  false,
  is_some,
  vec_len,
  vec_capacity,
  IfOk,
  IfSome,
  IsSome,
  IsSomeAnd,
  None,
};
ghost use mathlib.Core.List.{IsPrefix};
ghost use Rattle.build_scheduler.specs.Ends.{IsEnd};
ghost use Rattle.build_meaning.specs.History.{AreOfNodes};
ghost use Rattle.build_nodes.specs.Leaving.{IsSpent, has_left};
ghost use Rattle.build_scheduler.specs.Drivers.{Continues, IsLegal};
ghost use Rattle.build_nodes.specs.Marked.{marked};
ghost use Rattle.turn_board.specs.Seats.{opening_seat};
ghost use Rattle.build_nodes.specs.Seats.{HasLeft, IsSeated, numbers_below};
ghost use Rattle.build_nodes.specs.Turns.{IsAnswered, IsBrought, IsNext};

use crate::shared::Shared;
use crate::turn::{Answered, Asking, Brought, Discarded, Next, Turn};
use build_scheduler::{Core, Walker};
use msb_values::NoMemory;
use std::alloc::Global;
use std::sync::Wait;
use std::thread::Threads;
use std::{mem, thread};
use turn_board::{Board, Seat, Taken};

/// One node of several.
#[derive(Drop)]
struct Node<W: Walker>
where
    W::Place: Drop,
{
    number: u32,
    seat: Seat<Shared<W>>,
    place: W::Place,
    ghost fits: { ∥ IsSomeAnd seat.world (λ first. W.Fits place (W.world_of first.world)) ∥₁ },
}

/// Takes the core, does what the node is to do while it has it, gives it back, and says what the
/// node does next. A node that sleeps is woken where another request is ready, and where this node
/// leaves, so that all leave.
fn take_turn<W: Walker + Send>(
    board: &Board<Shared<W>>,
    seat: &mut Seat<Shared<W>>,
    number: u32,
    brought: Brought<W>,
) -> Turn<W>
where
    W::Place: Send,
    W::Origin: Send,
    requires board { seat.old.board ≡ board.now }
    requires home { seat.old.has_state ≡ false }
    requires brought { IsSomeAnd seat.old.world (λ first. IsBrought W.seen W.earlier number
        (W.world_of first.world) seat.old.seen brought) }
    ensures home { seat.new.has_state ≡ false }
    ensures kept { (seat.new.board ≡ seat.old.board) × (seat.new.share ≡ seat.old.share)
        × (seat.new.world ≡ seat.old.world) }
    ensures next { IsSomeAnd seat.new.world (λ first. IsNext W.seen W.earlier number
        (W.world_of first.world) seat.new.seen result.next) }
{
    let mut shared = match board.take(seat) {
        Taken::State(shared) => shared,
        Taken::Held => {
            return Turn {
                next: Some(Next::Missed(brought)),
                more: false,
            };
        }
    };
    // This is dropped at the end of the call, while others may have the core.
    let mut discarded = Discarded::new();
    let next = shared.turn(number, brought, &mut discarded);
    let more = shared.has_ready();
    board.give(seat, shared);
    if more || next.is_none() {
        board.wake_one();
    }
    Turn { next, more }
}

/// Advances a walk, while others may have the core.
fn advance<W: Walker + Send>(node: &mut Node<W>, answered: Answered<W>) -> Brought<W>
where
    W::Place: Send + Drop,
    W::Origin: Send,
    requires answered { IsSomeAnd node.old.seat.world (λ first. ∥ IsAnswered W.seen W.earlier
        node.old.number (W.world_of first.world) node.old.seat.seen answered ∥₁) }
    ensures seat { (node.new.seat ≡ node.old.seat) × (node.new.number ≡ node.old.number) }
    ensures brought { IsSomeAnd node.old.seat.world (λ first. IsBrought W.seen W.earlier
        node.old.number (W.world_of first.world) node.old.seat.seen result) }
{
    let Answered {
        id,
        mut walk,
        answer,
        number,
    } = answered;
    match walk.advance(&mut node.place, &answer) {
        Ok(ask) => Brought::Walk(Asking {
            id,
            walk,
            answer,
            ask,
            number,
        }),
        Err(NoMemory) => Brought::Refused(Answered {
            id,
            walk,
            answer,
            number,
        }),
    }
}

/// What a node does between two of its turns.
fn go_on<R: Wait, W: Walker + Send>(
    rt: &R,
    board: &Board<Shared<W>>,
    node: &mut Node<W>,
    next: Next<W>,
) -> Brought<W>
where
    W::Place: Send + Drop,
    W::Origin: Send,
    requires next { IsSomeAnd node.old.seat.world (λ first. IsNext W.seen W.earlier node.old.number
        (W.world_of first.world) node.old.seat.seen (Some next)) }
    ensures seat { (node.new.seat ≡ node.old.seat) × (node.new.number ≡ node.old.number) }
    ensures brought { IsSomeAnd node.old.seat.world (λ first. IsBrought W.seen W.earlier
        node.old.number (W.world_of first.world) node.old.seat.seen result) }
{
    match next {
        Next::Missed(brought) => {
            board.park_held(rt);
            brought
        }
        Next::Advance(answered) => advance(node, answered),
        Next::Park(number) => {
            board.park_idle(rt, number as u64);
            Brought::Nothing(number)
        }
    }
}

/// Takes turns until the end is told or the node retires, and brings this to the first.
fn work<R: Wait, W: Walker + Send>(
    rt: &R,
    board: &Board<Shared<W>>,
    node: &mut Node<W>,
    mut brought: Brought<W>,
)
where
    W::Place: Send + Drop,
    W::Origin: Send,
    requires seated { IsSeated board.now node.old.seat }
    requires brought { IsSomeAnd node.old.seat.world (λ first. IsBrought W.seen W.earlier
        node.old.number (W.world_of first.world) node.old.seat.seen brought) }
    ensures seated { IsSeated board.now node.new.seat }
    ensures number { node.new.number ≡ node.old.number }
    ensures left { HasLeft node.new.number node.new.seat }
{
    for _ in rt.forever() {
        match take_turn(board, &mut node.seat, node.number, brought).next {
            Some(next) => brought = go_on(rt, board, node, next),
            None => break,
        }
    }
}

/// Takes turns until the end is told, the node retires or there is a walk to advance. A node that
/// is alone advances walks itself while no other request is ready.
fn take_turns<R: Wait, W: Walker + Send>(
    rt: &R,
    board: &Board<Shared<W>>,
    node: &mut Node<W>,
    alone: bool,
) -> Option<Answered<W>>
where
    W::Place: Send + Drop,
    W::Origin: Send,
    requires seated { IsSeated board.now node.old.seat }
    ensures seated { IsSeated board.now node.new.seat }
    ensures number { node.new.number ≡ node.old.number }
    ensures answered { IfSome result (λ a. IsSomeAnd node.new.seat.world (λ first. ∥ IsAnswered
        W.seen W.earlier node.new.number (W.world_of first.world) node.new.seat.seen a ∥₁)) }
    ensures left { result ≡ None → HasLeft node.new.number node.new.seat }
{
    let mut brought = Brought::Nothing(0);
    for _ in rt.forever() {
        let Turn { next, more } = take_turn(board, &mut node.seat, node.number, brought);
        match next {
            Some(Next::Advance(answered)) if more || !alone => return Some(answered),
            Some(next) => brought = go_on(rt, board, node, next),
            None => return None,
        }
    }
    unreachable!()
}

/// A board for the nodes of a core that runs, with the core at home. Where there is no memory, the
/// core is let go.
fn open_board<W: Walker + Send>(
    alloc: Global,
    core: Core<W>,
) -> Result<(Board<Shared<W>>, Seat<Shared<W>>), NoMemory>
where
    W::Place: Send,
    W::Origin: Send,
    requires running { core.end ≡ None }
    ensures { IfOk result (λ b. b.1 ≡ opening_seat b.0 core (marked core.history.events core.end)) }
{
    match Board::open(alloc, Shared::new(core)) {
        Ok(opened) => Ok(opened),
        Err(refused) => {
            drop(refused);
            Err(NoMemory)
        }
    }
}

/// A node for each place.
fn split_all<W: Walker + Send>(
    board: &Board<Shared<W>>,
    seat: &mut Seat<Shared<W>>,
    mut places: Vec<W::Place>,
    all: &mut Vec<Node<W>>,
)
where
    W::Place: Send + Drop,
    W::Origin: Send,
    requires board { seat.old.board ≡ board.now }
    requires seat { (seat.old.has_state ≡ false) × (vec_len places < seat.old.share)
        × (seat.old.share ≤ 128) × (is_some seat.old.world ≡ true) }
    requires room { (all.old.items ≡ []) × (vec_len places ≤ vec_capacity all.old) }
    requires fits { IsSomeAnd seat.old.world (λ first.
        All (λ place. W.Fits place (W.world_of first.world)) places.items) }
    ensures nodes { (vec_len all.new ≡ vec_len places)
        × All (λ n. IsSeated board.now n.seat) all.new.items }
    ensures numbers { map (λ n. n.number) all.new.items ≡ numbers_below (vec_len places) }
    ensures seat { seat.new ≡ record seat.old { share = seat.old.share - vec_len places } }
{
    while let Some(place) = places.pop() {
        let node = Node {
            number: places.len() as u32,
            seat: board.split(seat),
            place,
        };
        all.push_reserved(node);
    }
}

/// Runs nodes to the end: one in this thread, and the others in threads of their own, as there is
/// work for them. `alone` says that no other node is started.
#[cycle(runs)]
fn run_all<R: Threads + Wait + Sync, W: Walker + Send>(
    rt: &R,
    board: &Board<Shared<W>>,
    alone: bool,
    mut nodes: Vec<Node<W>>,
) -> Vec<Node<W>>
where
    W::Place: Send + Drop,
    W::Origin: Send,
    requires seated { All (λ n. IsSeated board.now n.seat) nodes.items }
    ensures seated { All (λ n. IsSeated board.now n.seat) result.items }
    ensures left { All (λ n. HasLeft n.number n.seat) result.items }
    ensures numbers { map (λ n. n.number) result.items ≡ map (λ n. n.number) nodes.items }
    ensures room { (vec_len result ≡ vec_len nodes) × (vec_capacity result ≡ vec_capacity nodes) }
{
    let Some(mut node) = nodes.pop() else {
        return nodes;
    };
    if nodes.is_empty() {
        work(rt, board, &mut node, Brought::Nothing(0));
        nodes.push_reserved(node);
        return nodes;
    }
    match take_turns(rt, board, &mut node, alone) {
        Some(answered) => run_both(rt, board, node, answered, nodes),
        None => {
            // Where the end is told, the others see it as well, each at its first turn.
            let mut left = run_all(rt, board, alone, nodes);
            left.push_reserved(node);
            left
        }
    }
}

/// Runs a node in this thread and the others in another, which begins before the node advances its
/// walk: so while there are nodes to start, one that is not at work is there for the next request
/// that is ready.
#[cycle(runs)]
fn run_both<R: Threads + Wait + Sync, W: Walker + Send>(
    rt: &R,
    board: &Board<Shared<W>>,
    node: Node<W>,
    answered: Answered<W>,
    others: Vec<Node<W>>,
) -> Vec<Node<W>>
where
    W::Place: Send + Drop,
    W::Origin: Send,
    requires seated { IsSeated board.now node.seat
        × All (λ n. IsSeated board.now n.seat) others.items }
    requires answered { IsSomeAnd node.seat.world (λ first. ∥ IsAnswered W.seen W.earlier
        node.number (W.world_of first.world) node.seat.seen answered ∥₁) }
    requires room { vec_len others < vec_capacity others }
    ensures seated { All (λ n. IsSeated board.now n.seat) result.items }
    ensures left { All (λ n. HasLeft n.number n.seat) result.items }
    ensures numbers { map (λ n. n.number) result.items
        ≡ map (λ n. n.number) others.items ++ node.number ∷ [] }
    ensures room { (vec_len result ≡ vec_len others + 1)
        × (vec_capacity result ≡ vec_capacity others) }
{
    let there = move || -> Vec<Node<W>>
        requires { All (λ n. IsSeated board.now n.seat) others.items }
        ensures { All (λ n. IsSeated board.entry.now n.seat) result.items
            × All (λ n. HasLeft n.number n.seat) result.items
            × (map (λ n. n.number) result.items ≡ map (λ n. n.number) others.items)
            × (vec_len result ≡ vec_len others) × (vec_capacity result ≡ vec_capacity others) }
    { run_all(rt, board, false, others) };
    let here = move || -> Node<W>
        requires { IsSeated board.now node.seat × IsSomeAnd node.seat.world (λ first. ∥ IsAnswered
            W.seen W.earlier node.number (W.world_of first.world) node.seat.seen answered ∥₁) }
        ensures { IsSeated board.entry.now result.seat × HasLeft result.number result.seat
            × (result.number ≡ node.number) }
    {
        let mut node = node;
        let brought = advance(&mut node, answered);
        work(rt, board, &mut node, brought);
        node
    };
    let (mut all, node) = thread::join(rt, there, here);
    all.push_reserved(node);
    all
}

/// Joins the seat of a node that has left. Its place is not given back piece by piece, as nothing
/// is that a build has made.
fn join_one<W: Walker + Send>(board: &Board<Shared<W>>, seat: &mut Seat<Shared<W>>, node: Node<W>)
where
    W::Place: Send + Drop,
    W::Origin: Send,
    requires board { seat.old.board ≡ board.now }
    requires home { seat.old.has_state ≡ false }
    requires seated { IsSeated board.now node.seat }
    requires left { HasLeft node.number node.seat }
    ensures kept { (seat.new.board ≡ seat.old.board) × (seat.new.world ≡ seat.old.world)
        × (seat.new.has_state ≡ false) }
    ensures share { seat.new.share ≡ seat.old.share + 1 }
    ensures continues { IsPrefix seat.old.seen seat.new.seen }
    ensures left { has_left node.number seat.new.seen ≡ true }
{
    let Node {
        number: _,
        seat: other,
        place,
    } = node;
    mem::forget(place);
    board.join(seat, other);
}

/// Joins the seats of all nodes to one.
fn join_all<W: Walker + Send>(
    board: &Board<Shared<W>>,
    seat: &mut Seat<Shared<W>>,
    mut all: Vec<Node<W>>,
)
where
    W::Place: Send + Drop,
    W::Origin: Send,
    requires board { seat.old.board ≡ board.now }
    requires home { seat.old.has_state ≡ false }
    requires seated { All (λ n. IsSeated board.now n.seat) all.items }
    requires left { All (λ n. HasLeft n.number n.seat) all.items }
    ensures kept { (seat.new.board ≡ seat.old.board) × (seat.new.world ≡ seat.old.world)
        × (seat.new.has_state ≡ false) }
    ensures share { seat.new.share ≡ seat.old.share + vec_len all }
    ensures continues { IsPrefix seat.old.seen seat.new.seen }
    ensures left { All (λ n. has_left n.number seat.new.seen ≡ true) all.items }
{
    while let Some(node) = all.pop() {
        join_one(board, seat, node);
    }
}

/// Runs each node in this thread until it has left, one after another, and joins its seat. Where
/// the end is told, a node leaves at its first turn; else those before it have retired, and it goes
/// on with what they gave back.
fn run_each<R: Wait, W: Walker + Send>(
    rt: &R,
    board: &Board<Shared<W>>,
    seat: &mut Seat<Shared<W>>,
    mut all: Vec<Node<W>>,
)
where
    W::Place: Send + Drop,
    W::Origin: Send,
    requires board { seat.old.board ≡ board.now }
    requires home { seat.old.has_state ≡ false }
    requires seated { All (λ n. IsSeated board.now n.seat) all.items }
    ensures kept { (seat.new.board ≡ seat.old.board) × (seat.new.world ≡ seat.old.world)
        × (seat.new.has_state ≡ false) }
    ensures share { seat.new.share ≡ seat.old.share + vec_len all }
    ensures continues { IsPrefix seat.old.seen seat.new.seen }
    ensures left { All (λ n. has_left n.number seat.new.seen ≡ true) all.items }
{
    while let Some(mut node) = all.pop() {
        work(rt, board, &mut node, Brought::Nothing(0));
        join_one(board, seat, node);
    }
}

/// How many of so many nodes work at once: no more than there are processors, where that can be
/// read, since threads beyond them only take turns at these. (Building projects in parallel.)
fn count_threads<R: Threads>(rt: &R, nodes: usize) -> usize
    ensures { result ≤ nodes }
{
    if nodes == 1 {
        return 1;
    }
    match thread::available_parallelism(rt) {
        Ok(processors) => nodes.min(processors.get()),
        Err(_) => nodes,
    }
}

/// Builds on several nodes, one for each place, until the core's end is told. Nodes are started as
/// there is work for them, each in a thread of its own, but no more than there are processors. Each
/// takes the next request that is ready. A node that has no memory for its request gives it back
/// and leaves; nodes that were not started go on once all others have left, and where no other one
/// is left, the build ends for want of memory. A cycle of runs and a limit that is passed end the
/// build as well. Where there is no memory to begin with, nothing has run. (Building projects in
/// parallel.)
pub fn build_with<R: Threads + Wait + Sync, W: Walker + Send>(
    rt: &R,
    alloc: Global,
    mut core: Core<W>,
    places: Vec<W::Place>,
) -> Result<Core<W>, NoMemory>
where
    W::Place: Send + Drop,
    W::Origin: Send,
    requires places { (0 < vec_len places) × (vec_len places ≤ 64) }
    requires empty { core.history.events ≡ [] }
    requires running { core.end ≡ None }
    requires fits { All (λ place. W.Fits place (W.world_of core.world)) places.items }
    ensures world { IfOk result (λ built. ∥ W.world_of built.world ≡ W.world_of core.world ∥₁) }
    ensures continues { IfOk result
        (λ built. ∥ Continues core.history.events built.history.events ∥₁) }
    ensures legal { IfOk result
        (λ built. ∥ IsLegal (W.world_of core.world) built.history.events ∥₁) }
    ensures end { IfOk result (λ built. IsSome built.end) }
    ensures told { IfOk result
        (λ built. IsEnd (W.world_of core.world) built.history.events built.end) }
    ensures few { IfOk result (λ built. AreOfNodes (vec_len places) built.history.events) }
    ensures spent { IfOk result (λ built. IsSpent (vec_len places) built.history.events built.end) }
{
    core.nodes(places.len() as u32);
    let mut all = Vec::with_capacity(alloc, places.len())?;
    let (board, mut seat) = open_board(alloc, core)?;
    split_all(&board, &mut seat, places, &mut all);
    let started = all.split_off(all.len() - count_threads(rt, all.len()))?;
    let left = run_all(rt, &board, true, started);
    join_all(&board, &mut seat, left);
    run_each(rt, &board, &mut seat, all);
    Ok(board.close(seat).into_core())
}
