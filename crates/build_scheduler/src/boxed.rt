ghost use Rattle.std.specs.Prelude.{◌≡◌, [], IfOk, None};
ghost use Rattle.build_scheduler.specs.Position.{begins};

use crate::Core;
use crate::walker::{Answer, Ask, Walker};
use msb_values::NoMemory;
use result_cache::{RequestKey, Table};
use std::alloc::Global;
use std::marker::Model;

/// A walk behind a pointer: where it is moved, the pointer is moved alone. Contracts see the walk.
pub struct Boxed<W> {
    walk: Box<W>,
}

// A drop that is written out is proved here alone.
impl<W: Drop> Drop for Boxed<W> {
    fn drop(self) {
        let Boxed { walk: _ } = self;
    }
}

impl<W> Model for Boxed<W> {
    ghost Value = { W };

    ghost view = { λ boxed. boxed.walk.value };
}

impl<W: Drop> Boxed<W> {
    fn new(alloc: Global, walk: W) -> Result<Boxed<W>, NoMemory>
        ensures { IfOk result (λ boxed. boxed ≡ walk) }
    {
        Ok(Boxed {
            walk: Box::new(alloc, walk)?,
        })
    }
}

impl<W> Boxed<W> {
    fn into_inner(self) -> W
        ensures { result ≡ self }
    {
        let Boxed { walk } = self;
        Box::into_inner(walk)
    }

    // The allocator of its room, from which those of other walks come.
    fn alloc(&self) -> Global {
        *Box::allocator(&self.walk)
    }
}

impl<W: Walker> Walker for Boxed<W> {
    type Place = W::Place;

    type Origin = W::Origin;

    ghost Site = { W.Site };

    ghost Input = { W.Input };

    ghost Output = { W.Output };

    ghost world_of = { W.world_of };

    ghost seen = { W.seen };

    ghost earlier = { W.earlier };

    ghost plain_for = { W.plain_for };

    ghost used = { W.used };

    ghost lent = { W.lent };

    ghost Fits = { W.Fits };

    ghost fits_once = { W.fits_once };

    fn origin(&self) -> W::Origin {
        self.walk.origin()
    }

    fn child(&self, key: &RequestKey) -> Result<Boxed<W>, NoMemory> {
        Boxed::new(self.alloc(), self.walk.child(key)?)
    }

    fn take_journal(&mut self, call: Boxed<W>, table: &Table) {
        self.walk.take_journal(call.into_inner(), table)
    }

    fn knows_nothing(&self) -> bool {
        self.walk.knows_nothing()
    }

    fn runs_used(&self) -> usize {
        self.walk.runs_used()
    }

    fn copy_end(&self) -> Result<Boxed<W>, NoMemory> {
        Boxed::new(self.alloc(), self.walk.copy_end()?)
    }

    fn end_as(&self, end: &Boxed<W>, table: &Table) -> Result<Boxed<W>, NoMemory> {
        Boxed::new(self.alloc(), self.walk.end_as(&end.walk, table)?)
    }

    fn is_plain(&self, key: &RequestKey) -> bool {
        self.walk.is_plain(key)
    }

    fn learn(&mut self, table: &Table, answer: &Answer) -> Result<(), NoMemory> {
        self.walk.learn(table, answer)
    }

    fn advance(&mut self, place: &mut W::Place, answer: &Answer) -> Result<Ask, NoMemory> {
        self.walk.advance(place, answer)
    }

    fn back(&mut self) {
        self.walk.back()
    }
}

impl<W: Walker> Core<Boxed<W>> {
    /// The core of a root request, whose walk had no answer yet. Each walk is behind a pointer.
    pub fn new_boxed(alloc: Global, root: RequestKey, walk: W) -> Result<Core<Boxed<W>>, NoMemory>
        requires key { root ≡ (W.seen walk).world.root }
        requires begins { (W.seen walk).position ≡ begins (W.seen walk).world root [] }
        requires asked { (W.seen walk).asked ≡ 0 }
        requires learnt { (W.seen walk).learnt ≡ [] }
        ensures world { IfOk result (λ core. W.world_of core.world ≡ (W.seen walk).world) }
        ensures history { IfOk result (λ core. core.history.events ≡ []) }
        ensures table { IfOk result (λ core. core.table.finished ≡ []) }
        ensures end { IfOk result (λ core. core.end ≡ None) }
        ensures nodes { IfOk result (λ core. core.history.nodes ≡ 1) }
    {
        Core::new(alloc, root, Boxed::new(alloc, walk)?)
    }
}
