ghost use Rattle.std.specs.Prelude.{◌≡◌, ◌+◌, ◌<◌, ◌^◌, None, length};
ghost use mathlib.Core.List.{IsPrefix};
ghost use Rattle.build_nodes.specs.Leaving.{IsSpent};
ghost use Rattle.build_nodes.specs.Marked.{marked};
ghost use Rattle.build_nodes.specs.Turns.{IsBrought, IsNext};

use crate::core_turns::turn;
use crate::turn::{Brought, Discarded, Next};
use build_scheduler::{Core, Event, Walker};
use std::snapshot::Snapshot;
use turn_board::Histories;

/// The core of a build, which its nodes share.
#[derive(Drop)]
pub(crate) struct Shared<W: Walker> {
    core: Core<W>,
    /// The core that the nodes began with.
    first: Snapshot<Core<W>>,
    ghost same: { ∥ W.world_of core.world ≡ W.world_of first.value.world ∥₁ },
    ghost nodes: { core.history.nodes ≡ first.value.history.nodes },
    ghost spent: { IsSpent core.history.nodes core.history.events core.end },
}

impl<W: Walker> Shared<W> {
    pub(crate) fn new(core: Core<W>) -> Shared<W>
        requires { core.end ≡ None }
        ensures core { result.core ≡ core }
        ensures first { result.first.value ≡ core }
        ensures few { length (marked core.history.events core.end) < 2 ^ 63 }
    {
        few_events(&core);
        let first = Snapshot::of(&core);
        Shared { core, first }
    }

    pub(crate) fn into_core(self) -> Core<W>
        ensures { result ≡ self.core }
    {
        let Shared { core, first: _ } = self;
        core
    }

    /// One turn of a node.
    pub(crate) fn turn(
        &mut self,
        node: u32,
        brought: Brought<W>,
        discarded: &mut Discarded<W>,
    ) -> Option<Next<W>>
        requires brought { IsBrought W.seen W.earlier node (W.world_of self.old.core.world)
            (marked self.old.core.history.events self.old.core.end) brought }
        ensures first { self.new.first ≡ self.old.first }
        ensures continues { IsPrefix (marked self.old.core.history.events self.old.core.end)
            (marked self.new.core.history.events self.new.core.end) }
        ensures next { IsNext W.seen W.earlier node (W.world_of self.new.core.world)
            (marked self.new.core.history.events self.new.core.end) result }
        ensures few { length (marked self.new.core.history.events self.new.core.end) < 2 ^ 63 }
    {
        let next = turn(&mut self.core, node, brought, discarded);
        discarded.released = Some(self.core.take_released());
        few_events(&self.core);
        next
    }

    /// Whether a request is ready. Nodes are started by it, and no contract goes by it.
    pub(crate) fn has_ready(&self) -> bool {
        self.core.ready().is_some()
    }
}

/// A list has fewer entries than this, and so has the history with the mark of an end.
pub(crate) fn few_events<W: Walker>(core: &Core<W>)
    ensures { length core.now.history.events + 1 < 2 ^ 63 }
{
    let _events = core.history();
}

impl<W: Walker> Histories for Shared<W> {
    ghost use Rattle.build_nodes.specs.Marked.{marked};

    /// The core that the nodes began with.
    type World = Core<W>;

    /// None is the mark of an end.
    type Event = Option<Event>;

    ghost world = { λ s. s.first.value };

    ghost history = { λ s. marked s.core.history.events s.core.end };

    fn events(&self) -> u64 {
        self.core.history().len() as u64 + u64::from(self.core.end().is_some())
    }
}
