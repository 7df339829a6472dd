ghost use Rattle.std.specs.Prelude.{◌≡◌, IfOk, ◌==◌, not, IfSome};
ghost use Rattle.request_machine.specs.Worlds.{root_of};
ghost use Rattle.request_machine.specs.Stages.{has_begun};
ghost use Rattle.request_machine.specs.Former.{IsBefore};
ghost use Rattle.request_machine.specs.Replayed.{IsReplayed};

use crate::former::FormerWalk;
use crate::replayed::Replayed;
use crate::request::{Advanced, Request};
use build_scheduler::{Answer, Ask, Walker};
use build_world::World;
use msb_files::Journal;
use msb_instance::Instances;
use msb_values::{Copied, InstanceKey, NoMemory};
use result_cache::{RequestKey, RunRef, Table};
use std::alloc::Global;
use std::mem;
use task_trait::CountedTools;

/// What a node has for every walk that it advances: the world that they are of, its tools, and the
/// instances that were evaluated. (Building projects in parallel.)
pub struct NodeContext<'a, T: CountedTools> {
    pub world: &'a World,
    pub tools: T,
    pub instances: Instances,
}

// A drop that is written out is proved here alone.
impl<'a, T: CountedTools + Drop> Drop for NodeContext<'a, T> {
    fn drop(self) {
        let NodeContext {
            world: _,
            tools: _,
            instances: _,
        } = self;
    }
}

impl<'a, T: CountedTools> NodeContext<'a, T> {
    /// The tools, which whoever has lent them gets back. This takes no memory. The instances are
    /// not given back piece by piece, which would take a good part of a second build: the process
    /// keeps them.
    pub fn into_tools(self) -> T
        ensures { result ≡ self.entry.tools }
    {
        let NodeContext {
            world: _,
            tools,
            instances,
        } = self;
        mem::forget(instances);
        tools
    }
}

/// The key of the root request of a build: its default targets are asked for where none is named.
/// (MSBuild command-line reference.)
pub fn root_key(world: &World) -> Result<RequestKey, NoMemory>
    ensures { IfOk result (λ key. key ≡ root_of world.now) }
{
    let path = world.root.copy()?;
    let globals = world.globals.copy()?;
    let targets = world.targets.copy()?;
    Ok(RequestKey {
        instance: InstanceKey { path, globals },
        targets,
        named: !world.targets.is_empty(),
    })
}

/// What tells the world of a walk.
#[derive(Clone, Copy)]
pub struct WorldRef<'a> {
    pub world: &'a World,
}

/// The walk of a request of a build, with the records that it has learnt. (Target build order;
/// MSBuild task.)
pub struct Walk<'a, T> {
    pub(crate) request: Request<'a, T>,
    pub(crate) learnt: Table,
    /// The records that it had learnt before, until it goes on: a table has much to drop, and it
    /// learns while others wait for the core.
    learnt_before: Option<Table>,
    /// How often it has asked.
    pub(crate) asked: u64,
    /// What its last answer has replaced, unless it was taken back.
    pub(crate) before: Option<FormerWalk<T>>,
    /// The runs of a call that is over, and its journal, from which the request may go on.
    pub(crate) replayed: Option<Replayed>,
    ghost begun: { has_begun request.stage ≡ not (asked == 0) },
    ghost fits: { ∥ IfSome before (IsBefore request) ∥₁ },
    ghost known: { ∥ IfSome replayed (IsReplayed learnt.finished request.journal) ∥₁ },
}

// A drop that is written out is proved here alone.
impl<'a, T> Drop for Walk<'a, T> {
    fn drop(self) {
        let Walk {
            request: _,
            learnt: _,
            learnt_before: _,
            asked: _,
            before: _,
            replayed: _,
        } = self;
    }
}

impl<'a, T: CountedTools> Walk<'a, T> {
    ghost use Rattle.std.specs.Prelude.{[], IfOk, None};
    ghost use Rattle.result_cache.specs.Journal.{end_of, has};
    ghost use Rattle.build_scheduler.specs.Position.{begins};
    ghost use Rattle.request_machine.specs.WalkPosition.{walk_position, walk_world};
    ghost use Rattle.request_machine.specs.Worlds.{root_of, world_of};

    /// The walk of the root request of a build, which had no answer yet; its key is that of
    /// `root_key`. A root project that is not among the files is not evaluated, and the request
    /// says so. (MSBuild command-line reference.)
    pub fn start(alloc: Global, world: &'a World) -> Result<Walk<'a, T>, NoMemory>
        ensures world { IfOk result (λ walk. walk_world T.answer walk
            ≡ world_of T.answer world.entry.now) }
        ensures begins { IfOk result (λ walk. walk_position T.calls walk
            ≡ begins (world_of T.answer world.entry.now) (root_of world.entry.now) []) }
        ensures asked { IfOk result (λ walk. walk.asked ≡ 0) }
        ensures learnt { IfOk result (λ walk. walk.learnt.finished ≡ []) }
        ensures before { IfOk result (λ walk. walk.before ≡ None) }
    {
        let key = root_key(world)?;
        let journal = Journal::new(alloc)?;
        Ok(Walk::of(alloc, world, key, journal))
    }

    /// Whether the run has ended in its journal. This takes no memory.
    pub fn has_ended(&self, run: &RunRef) -> bool
        ensures { result ≡ has (end_of run.now) (walk_position T.calls self.now).journal }
    {
        self.request.journal.has_ended(run)
    }

    // The runs that its request has made or used, and its journal. This takes no memory.
    fn into_replayed(self) -> Replayed
        ensures runs { result.runs ≡ (walk_position T.calls self.entry).runs }
        ensures journal { result.journal ≡ (walk_position T.calls self.entry).journal }
    {
        let Walk {
            request,
            learnt: _,
            learnt_before: _,
            asked: _,
            before: _,
            replayed: _,
        } = self;
        request.into_replayed()
    }

    // The walk of a request that begins with a journal.
    fn of(alloc: Global, world: &'a World, key: RequestKey, journal: Journal) -> Walk<'a, T>
        ensures world { result.request.world.now ≡ world.entry.now }
        ensures begins { walk_position T.calls result
            ≡ begins (world_of T.answer world.entry.now) key journal }
        ensures asked { result.asked ≡ 0 }
        ensures learnt { result.learnt.finished ≡ [] }
        ensures before { result.before ≡ None }
    {
        let request = Request::new(alloc, world, key, journal);
        Walk {
            request,
            learnt: Table::new(alloc),
            learnt_before: None,
            asked: 0,
            before: None,
            replayed: None,
        }
    }
}

impl<'a, T: CountedTools + 'a> Walker for Walk<'a, T> {
    ghost use Rattle.std.specs.Prelude.{◌≡◌, ◌&&◌};
    ghost use Rattle.result_cache.specs.Same.{same_key};
    ghost use Rattle.request_machine.specs.NodeContexts.{Suits};
    ghost use Rattle.request_machine.specs.SuitsOnce.{suits-once};
    ghost use Rattle.request_machine.specs.Walk.{Site};
    ghost use Rattle.request_machine.specs.WalkPosition.{
      earlier_position,
      tools_used,
      walk_seen,
    };
    ghost use Rattle.request_machine.specs.Worlds.{world_of};
    ghost use Rattle.task_trait.specs.declared.tools.ToolAnswer.{ToolAnswer};
    ghost use Rattle.task_trait.specs.declared.tools.ToolInput.{ToolInput};

    /// The tools are lent to it.
    type Place = NodeContext<'a, &'a mut T>;

    type Origin = WorldRef<'a>;

    ghost Site = { Site };

    ghost Input = { ToolInput };

    ghost Output = { ToolAnswer };

    ghost world_of = { λ origin. world_of T.answer origin.world.now };

    ghost seen = { walk_seen T.answer T.calls };

    ghost earlier = { earlier_position T.calls };

    ghost used = { λ site. tools_used T.calls site.tools.now };

    ghost lent = { λ site. site.tools.ghost_name };

    ghost Fits = { λ site. Suits T.answer site.world.now site.instances };

    ghost plain_for = { λ walk key. walk.request.plain && same_key walk.request.key key };

    ghost fits_once = { λ site. suits-once T.answer site.world.now site.instances };

    fn origin(&self) -> WorldRef<'a> {
        WorldRef {
            world: self.request.world,
        }
    }

    fn child(&self, key: &RequestKey) -> Result<Walk<'a, T>, NoMemory> {
        let key = key.copy()?;
        let journal = self.request.journal.copy()?;
        Ok(Walk::of(self.request.alloc, self.request.world, key, journal))
    }

    // It learns the records by which the runs of the call are replayed.
    fn take_journal(&mut self, call: Walk<'a, T>, table: &Table) {
        if let Ok(records) = table.learnt() {
            self.learnt_before = Some(mem::replace(&mut self.learnt, records));
            self.replayed = Some(call.into_replayed());
        }
    }

    fn knows_nothing(&self) -> bool {
        self.request.journal.count() == 0
    }

    fn runs_used(&self) -> usize {
        self.request.runs.len()
    }

    fn copy_end(&self) -> Result<Walk<'a, T>, NoMemory> {
        Ok(Walk {
            request: self.request.copy_end()?,
            learnt: Table::new(self.request.alloc),
            learnt_before: None,
            asked: 1,
            before: None,
            replayed: None,
        })
    }

    fn end_as(&self, end: &Walk<'a, T>, table: &Table) -> Result<Walk<'a, T>, NoMemory> {
        Ok(Walk {
            request: self.request.end_as(&end.request, table)?,
            learnt: Table::new(self.request.alloc),
            learnt_before: None,
            asked: 1,
            before: None,
            replayed: None,
        })
    }

    fn is_plain(&self, key: &RequestKey) -> bool {
        self.request.plain && self.request.key == *key
    }

    // All records are learnt at once: a copy of a table shares them.
    fn learn(&mut self, table: &Table, _: &Answer) -> Result<(), NoMemory> {
        let learnt = table.learnt()?;
        self.learnt_before = Some(mem::replace(&mut self.learnt, learnt));
        Ok(())
    }

    fn advance(
        &mut self,
        site: &mut NodeContext<'a, &'a mut T>,
        answer: &Answer,
    ) -> Result<Ask, NoMemory> {
        let Advanced { ask, former } = self
            .request
            .advance(&self.learnt, &self.replayed, site, answer)?;
        self.replayed = None;
        self.learnt_before = None;
        self.before = Some(FormerWalk {
            former,
            asked: self.asked,
        });
        self.asked += 1;
        Ok(ask)
    }

    fn back(&mut self) {
        let _replayed = mem::replace(&mut self.replayed, None);
        match mem::replace(&mut self.before, None) {
            Some(before) => self.asked = before.put_back(&mut self.request),
            None => unreachable!(),
        }
    }
}
