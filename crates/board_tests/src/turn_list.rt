ghost use Rattle.std.specs.Prelude.{
  ◌≡◌,
  ◌<◌,
  ◌≤◌,
  ◌^◌,
  ◌++◌,
  ◌∷◌,
  [],
  false,
  vec_len,
  vec_capacity,
  IfOk,
};
ghost use mathlib.Core.List.{IsPrefix};

use std::alloc::{AllocError, Global};
use std::hint;
use turn_board::Histories;

/// Which node may add the next entry.
#[derive(Clone, Copy)]
pub enum Order {
    /// Node `n` of this many adds the entries whose number has the rest `n`.
    InTurn(u64),
    /// Any node adds an entry whenever it has the list.
    Any,
    /// The same, and it keeps the list for longer than other nodes look for it before they sleep.
    Slow,
    /// Node 0 supplies half of the entries. The others add one for each that is supplied.
    Supplied,
}

/// What became of a node's turn.
#[derive(Clone, Copy)]
pub(crate) enum Turn {
    /// Another node has the list.
    Missed,
    /// Another node has to add the next entry. The list has this many.
    Idle(u64),
    Added,
    /// The list is full.
    Full,
}

/// A list of `limit` entries that nodes fill. An entry is the number of the node that added it.
#[derive(Drop)]
pub struct TurnList {
    pub limit: u64,
    pub entries: Vec<u64>,
    /// How many entries of node 0 no other node has followed.
    pub supplied: u64,
    ghost room: { (vec_len entries ≤ limit) × (limit ≤ vec_capacity entries) × (limit < 2 ^ 62) },
}

impl TurnList {
    pub fn new(alloc: Global, limit: u64) -> Result<TurnList, AllocError>
        requires { limit < 2 ^ 62 }
        ensures { IfOk result (λ l. (l.limit ≡ limit) × (l.entries.items ≡ [])) }
    {
        Ok(TurnList {
            limit,
            entries: Vec::with_capacity(alloc, limit as usize)?,
            supplied: 0,
        })
    }

    fn is_full(&self) -> bool
        ensures { result ≡ false → vec_len self.now.entries < self.now.limit }
    {
        self.entries.len() as u64 >= self.limit
    }

    fn has_turn(&self, node: u64, order: Order) -> bool {
        let number = self.entries.len() as u64;
        match order {
            Order::InTurn(nodes) => nodes > 0 && number % nodes == node,
            Order::Any => true,
            Order::Slow => true,
            Order::Supplied if node == 0 => number.saturating_add(self.supplied) < self.limit,
            Order::Supplied => self.supplied > 0,
        }
    }

    fn add(&mut self, node: u64)
        requires { vec_len self.old.entries < self.old.limit }
        ensures entries { self.new.entries.items ≡ self.old.entries.items ++ node ∷ [] }
        ensures limit { self.new.limit ≡ self.old.limit }
    {
        self.entries.push_reserved(node);
        self.supplied = if node == 0 {
            self.supplied.saturating_add(1)
        } else {
            self.supplied.saturating_sub(1)
        };
    }

    /// Adds an entry where it is this node's turn.
    pub(crate) fn go_on(&mut self, node: u64, order: Order) -> Turn
        ensures limit { self.new.limit ≡ self.old.limit }
        ensures continues { IsPrefix self.old.entries.items self.new.entries.items }
    {
        if self.is_full() {
            return Turn::Full;
        }
        if !self.has_turn(node, order) {
            return Turn::Idle(self.entries.len() as u64);
        }
        if matches!(order, Order::Slow) {
            wait_long();
        }
        self.add(node);
        Turn::Added
    }
}

/// Lets some tens of microseconds go by.
fn wait_long() {
    for _ in 0..1000 {
        hint::spin_loop();
    }
}

impl Histories for TurnList {
    type World = u64;

    type Event = u64;

    ghost world = { λ l. l.limit };

    ghost history = { λ l. l.entries.items };

    fn events(&self) -> u64 {
        self.entries.len() as u64
    }
}
