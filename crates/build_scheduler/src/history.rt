ghost use Rattle.std.specs.Prelude.{◌≡◌, ◌+◌, ◌<◌, ◌≤◌, [], ◌∷◌, ◌++◌, IfOk, OnOk, OnErr};
ghost use Rattle.build_meaning.specs.History.{AreOfNodes, retires};
ghost use Rattle.build_scheduler.specs.History.{most_nodes};
ghost use Rattle.build_scheduler.specs.Retired.{IsAppended};

use build_meaning::Event;
use msb_values::NoMemory;
use std::alloc::Global;
use std::marker::Model;

/// The events of a core, in order, with the room that is taken for those to come, and how many
/// nodes it has. One of them at least is active.
pub struct History {
    events: Vec<Event>,
    room: usize,
    nodes: u32,
    /// How many nodes have retired.
    retired: u32,
}

// A drop that is written out is proved here alone.
impl Drop for History {
    fn drop(self) {
        let History {
            events: _,
            room: _,
            nodes: _,
            retired: _,
        } = self;
    }
}

/// A history has no more events than this.
const MOST: usize = 1 << 62;

/// A build has no more nodes than this.
const MOST_NODES: u32 = 64;

impl Model for History {
    ghost use Rattle.std.specs.Prelude.{vec_len, vec_capacity};
    ghost use Rattle.build_scheduler.specs.History.{History, HasRoom};

    ghost Value = { History };

    ghost view = { λ l. record { events = l.events.items; room = l.room; nodes = l.nodes } };

    ghost invariant = { λ l. HasRoom l.events.items (vec_len l.events) (vec_capacity l.events)
        l.room l.nodes l.retired };
}

impl History {
    /// No event, with room for what nodes that retire need.
    pub fn new(alloc: Global) -> Result<History, NoMemory>
        ensures events { IfOk result (λ history. history.events ≡ []) }
        ensures room { IfOk result (λ history. history.room ≡ 0) }
        ensures nodes { IfOk result (λ history. history.nodes ≡ 1) }
    {
        let mut events = Vec::new(alloc);
        events.reserve(2 * MOST_NODES as usize)?;
        Ok(History {
            events,
            room: 0,
            nodes: 1,
            retired: 0,
        })
    }

    pub fn events(&self) -> &[Event]
        ensures events { result.now ≡ self.now.events }
    {
        &self.events
    }

    /// Says how many nodes there are, before the first event.
    pub fn set_nodes(&mut self, count: u32)
        requires some { 0 < count }
        requires most { count ≤ most_nodes }
        requires empty { self.old.events ≡ [] }
        ensures events { self.new.events ≡ self.old.events }
        ensures room { self.new.room ≡ self.old.room }
        ensures nodes { self.new.nodes ≡ count }
        ensures active { AreOfNodes self.new.nodes self.new.events }
    {
        self.nodes = count;
    }

    /// Takes room for so many more events.
    pub fn reserve(&mut self, more: usize) -> Result<(), NoMemory>
        ensures events { self.new.events ≡ self.old.events }
        ensures ok { OnOk result (self.new.room ≡ self.old.room + more) }
        ensures err { OnErr result (self.new.room ≡ self.old.room) }
        ensures nodes { self.new.nodes ≡ self.old.nodes }
    {
        let taken = self.room + 2 * (MOST_NODES - self.retired) as usize;
        if more > MOST - self.events.len() - taken {
            return Err(NoMemory);
        }
        self.events.reserve(taken + more)?;
        self.room += more;
        Ok(())
    }

    /// Adds an event other than a Retire, for which room was taken. This takes no memory.
    pub fn push(&mut self, event: Event)
        requires room { 0 < self.old.room }
        requires other { retires (event ∷ []) ≡ 0 }
        ensures events { self.new.events ≡ self.old.events ++ event ∷ [] }
        ensures room { self.old.room ≡ self.new.room + 1 }
        ensures nodes { self.new.nodes ≡ self.old.nodes }
        ensures active { AreOfNodes self.new.nodes self.new.events }
    {
        self.room -= 1;
        match self.events.push(event) {
            Ok(()) => {}
            Err(_) => unreachable!(),
        }
    }

    /// Adds the Retire of a node, with room for the Assign that follows it, where another node is
    /// active. This takes no memory.
    pub fn retire(&mut self, id: u64, node: u32) -> bool
        ensures retired { IsAppended self.old self.new id node result }
        ensures nodes { self.new.nodes ≡ self.old.nodes }
        ensures active { AreOfNodes self.new.nodes self.new.events }
    {
        if self.retired + 1 == self.nodes {
            return false;
        }
        self.retired += 1;
        self.room += 1;
        match self.events.push(Event::Retire(id, node)) {
            Ok(()) => true,
            Err(_) => unreachable!(),
        }
    }
}
