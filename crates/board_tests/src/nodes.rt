ghost use Rattle.std.specs.Prelude.{
  ◌≡◌,
  [],
  All,
  vec_capacity,
  ◌+◌,
  ◌-◌,
  ◌<◌,
  ◌≤◌,
  false,
  vec_len,
  length,
};
ghost use Rattle.board_tests.specs.Ready.{IsReady};

use crate::turn_list::Turn;
use crate::{Order, TurnList};
use std::alloc::{AllocError, Global};
use std::sync::Wait;
use std::thread;
use std::thread::Threads;
use turn_board::{Board, Seat, Taken};

/// Takes the list, adds an entry if it is this node's turn, and gives the list back.
fn take_turn(board: &Board<TurnList>, seat: &mut Seat<TurnList>, node: u64, order: Order) -> Turn
    requires board { seat.old.board ≡ board.now }
    requires home { seat.old.has_state ≡ false }
    ensures home { seat.new.has_state ≡ false }
    ensures kept { (seat.new.board ≡ seat.old.board) × (seat.new.share ≡ seat.old.share) }
{
    let mut list = match board.take(seat) {
        Taken::State(list) => list,
        Taken::Held => return Turn::Missed,
    };
    let turn = list.go_on(node, order);
    board.give(seat, list);
    turn
}

/// Takes turns until the list is full. A node that adds an entry, or leaves, wakes one that sleeps,
/// so all leave.
fn work<R: Wait>(
    rt: &R,
    board: &Board<TurnList>,
    seat: &mut Seat<TurnList>,
    node: u64,
    order: Order,
)
    requires board { seat.old.board ≡ board.now }
    requires home { seat.old.has_state ≡ false }
    ensures home { seat.new.has_state ≡ false }
    ensures kept { (seat.new.board ≡ seat.old.board) × (seat.new.share ≡ seat.old.share) }
{
    for _ in rt.forever() {
        match take_turn(board, seat, node, order) {
            Turn::Missed => board.park_held(rt),
            Turn::Idle(number) => board.park_idle(rt, number),
            Turn::Added => board.wake_one(),
            Turn::Full => break,
        }
    }
    board.wake_one();
}

/// A seat for each node.
fn split_all(
    board: &Board<TurnList>,
    seat: &mut Seat<TurnList>,
    all: &mut Vec<Seat<TurnList>>,
    nodes: usize,
)
    requires board { seat.old.board ≡ board.now }
    requires seat { (seat.old.has_state ≡ false) × (nodes < seat.old.share) }
    requires room { (all.old.items ≡ []) × (nodes ≤ vec_capacity all.old) }
    ensures seats { (vec_len all.new ≡ nodes) × All (IsReady board.now) all.new.items }
    ensures kept { seat.new ≡ record seat.old { share = seat.old.share - nodes } }
{
    for _ in 0..nodes {
        all.push_reserved(board.split(seat));
    }
}

/// Runs all nodes, each in a thread of its own, until the list is full.
fn run_all<R: Threads + Wait + Sync>(
    rt: &R,
    board: &Board<TurnList>,
    all: &mut [Seat<TurnList>],
    order: Order,
)
    requires some { 0 < length all.old }
    requires ready { All (IsReady board.now) all.old }
    ensures { All (IsReady board.now) all.new }
{
    let nodes = all.len();
    thread::for_each_mut(
        rt,
        all,
        nodes,
        &|at, seat| work(rt, board, seat, at as u64, order),
    );
}

/// Joins the seats of all nodes to one.
fn join_all(board: &Board<TurnList>, seat: &mut Seat<TurnList>, mut all: Vec<Seat<TurnList>>)
    requires board { seat.old.board ≡ board.now }
    requires home { seat.old.has_state ≡ false }
    requires ready { All (IsReady board.now) all.items }
    ensures kept { (seat.new.board ≡ seat.old.board) × (seat.new.world ≡ seat.old.world)
        × (seat.new.has_state ≡ false) }
    ensures share { seat.new.share ≡ seat.old.share + vec_len all }
{
    while let Some(other) = all.pop() {
        board.join(seat, other);
    }
}

/// Fills a list by this many nodes, each in a thread of its own.
pub fn fill<R: Threads + Wait + Sync>(
    rt: &R,
    alloc: Global,
    list: TurnList,
    nodes: usize,
    order: Order,
) -> Result<TurnList, AllocError>
    requires { (0 < nodes) × (nodes ≤ 64) }
{
    let mut all = Vec::with_capacity(alloc, nodes)?;
    let (board, mut seat) = match Board::open(alloc, list) {
        Ok(opened) => opened,
        Err(_) => return Err(AllocError),
    };
    split_all(&board, &mut seat, &mut all, nodes);
    run_all(rt, &board, all.as_mut_slice(), order);
    join_all(&board, &mut seat, all);
    Ok(board.close(seat))
}
