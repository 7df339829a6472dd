use crate::{Order, TurnList, fill};
use std::alloc::{AllocError, Global};
use std::sync::Wait;
use std::test::Fail;
use std::thread;
use std::thread::Threads;
use turn_board::{Board, Refused, Taken};

/// A seat that finds the state out is told so; with all shares joined it gets the state.
#[test]
fn a_seat_misses_where_another_has_the_state(rt: HostRuntime) -> Result<(), Fail> {
    let Ok((board, mut first)) = Board::open(rt.alloc(), TurnList::new(rt.alloc(), 2)?) else {
        return Ok(())
    };
    let mut second = board.split(&mut first);
    let Taken::State(mut list) = board.take(&mut first) else {
        return Ok(())
    };
    assert!(rt; matches!(board.take(&mut second), Taken::Held));
    list.go_on(7, Order::Any);
    assert!(rt; board.seen(&mut second) == 0);
    board.give(&mut first, list);
    assert!(rt; board.seen(&mut second) == 1);
    board.join(&mut second, first);
    let closed = board.close(second);
    assert!(rt; closed.entries.as_slice() == [7].as_slice());
    Ok(())
}

/// With each allocation failing in turn the state comes back as it was.
#[test]
fn want_of_memory_hands_the_state_back(rt: HostRuntime) {
    let Ok(mut list) = TurnList::new(rt.alloc(), 5) else {
        return
    };
    list.go_on(3, Order::Any);
    let list = match Board::open(rt.alloc(), list) {
        Ok((board, seat)) => board.close(seat),
        Err(Refused { state }) => state,
    };
    assert!(rt; list.limit == 5 && list.entries.as_slice() == [3].as_slice());
}

#[test]
fn two_threads_pass_the_state_to_and_fro(rt: HostRuntime) -> Result<(), Fail> {
    let list = TurnList::new(rt.alloc(), 100_000)?;
    let filled = fill(&rt, rt.alloc(), list, 2, Order::InTurn(2))?;
    assert!(rt; filled.entries.len() == 100_000);
    for (at, node) in filled.entries.iter().enumerate() {
        assert!(rt; *node == at as u64 % 2, "entry {at} is of node {node}");
    }
    Ok(())
}

#[test]
fn sixty_four_seats_are_split_joined_and_closed(rt: HostRuntime) -> Result<(), Fail> {
    let list = TurnList::new(rt.alloc(), 64_000)?;
    let filled = fill(&rt, rt.alloc(), list, 64, Order::Any)?;
    assert!(rt; filled.entries.len() == 64_000);
    assert!(rt; filled.entries.iter().all(|node| *node < 64));
    Ok(())
}

/// A node that keeps the list long makes the others sleep, and its give wakes one.
#[test]
fn nodes_sleep_while_the_list_is_out(rt: HostRuntime) -> Result<(), Fail> {
    let list = TurnList::new(rt.alloc(), 4_000)?;
    let filled = fill(&rt, rt.alloc(), list, 8, Order::Slow)?;
    assert!(rt; filled.entries.len() == 4_000);
    assert!(rt; filled.entries.iter().all(|node| *node < 8));
    Ok(())
}

/// Whether 8 nodes fill a list such that no entry comes before it is supplied.
fn supplies<R: Threads + Wait + Sync>(rt: &R, alloc: Global) -> Result<bool, AllocError> {
    let list = TurnList::new(alloc, 4_000)?;
    let filled = fill(rt, alloc, list, 8, Order::Supplied)?;
    let mut supplied = 0u64;
    for node in filled.entries.iter() {
        if *node == 0 {
            supplied = supplied.saturating_add(1);
        } else if supplied == 0 {
            return Ok(false);
        } else {
            supplied -= 1;
        }
    }
    Ok(filled.entries.len() == 4_000 && supplied == 0)
}

/// Four boards at once, each with a node that supplies and seven that mostly sleep.
#[test]
fn nodes_park_and_wake_under_load(rt: HostRuntime) -> Result<(), Fail> {
    let all = thread::map_indices(&rt, rt.alloc(), 4, &|_| supplies(&rt, rt.alloc()))?;
    for answer in all {
        assert!(rt; answer?);
    }
    Ok(())
}
