ghost use Rattle.std.specs.Prelude.{◌≡◌, ◌<◌, ◌||◌, false, IfOk, OnOk, OnErr};
ghost use Rattle.target_order.specs.Visit.{order};
ghost use Rattle.target_order.specs.Left.{left};
ghost use Rattle.target_order.specs.AsksLeft.{asks_left};
ghost use Rattle.target_order.specs.Answers.{Fits, Asks, asked_by, is_failed, is_refused};
ghost use Rattle.target_order.specs.Progress.{name_at};
ghost use Rattle.target_order.specs.Steps.{top_target};
ghost use Rattle.target_order.specs.declared.asks.OrderAnswer.TheVariants.{First};
ghost use Rattle.target_order.specs.declared.asks.OrderAsk.TheVariants.{Depends};
ghost use Rattle.target_order.specs.declared.visits.Asked.TheVariants.{
  Condition,
  Depends as DependsOn,
};

use crate::array::SharedArray;
use crate::open_visits::OpenVisits;
use crate::shared::SharedNames;
use crate::table::SharedTable;
use crate::visits::{Asked, Step};
use crate::{OrderAnswer, OrderAsk, TargetRow};
use msb_values::{Copied, List, Name, NoMemory};
use std::alloc::Global;
use std::marker::Model;

/// One request's way through the targets of its project.
pub struct OrderWalk {
    /// The targets of the project, with those that hook on them.
    pub(crate) table: SharedTable,
    /// The targets of the request.
    pub(crate) wanted: SharedNames,
    /// How many of them are behind it.
    pub(crate) passed: usize,
    /// The open visits, innermost last.
    pub(crate) visits: OpenVisits,
    /// Of each target, the depth of its open visit, if that visit is its own.
    pub(crate) places: SharedArray<usize>,
    pub(crate) has_run: SharedArray<bool>,
    pub(crate) asked: Asked,
    pub(crate) failed: bool,
}

// A drop that is written out is proved here alone.
impl Drop for OrderWalk {
    fn drop(self) {
        let OrderWalk {
            table: _,
            wanted: _,
            passed: _,
            visits: _,
            places: _,
            has_run: _,
            asked: _,
            failed: _,
        } = self;
    }
}

impl Model for OrderWalk {
    ghost use Rattle.target_order.specs.Progress.{Progress};

    ghost Value = { Progress };

    ghost use Rattle.target_order.specs.Fields.{progress, AreSound};

    ghost view = { progress };

    ghost invariant = { AreSound };
}

impl OrderWalk {
    /// A walk that visits these targets in order, among those of the rows.
    pub fn start(
        alloc: Global,
        rows: &List<TargetRow>,
        targets: &List<Name>,
    ) -> Result<OrderWalk, NoMemory>
        ensures order { IfOk result (λ walk. left walk First ≡ order rows.now targets.now) }
        ensures first { IfOk result (λ walk. Fits walk First) }
        ensures failed { IfOk result (λ walk. walk.failed ≡ false) }
    {
        let table = SharedTable::of(alloc, rows.as_slice())?;
        let count = table.count();
        Ok(OrderWalk {
            table,
            wanted: SharedNames::of(alloc, targets)?,
            passed: 0,
            visits: OpenVisits::new(alloc)?,
            places: SharedArray::of(alloc, 0, count)?,
            has_run: SharedArray::of(alloc, false, count)?,
            asked: Asked::Nothing,
            failed: false,
        })
    }

    /// Goes on with the answer to the last ask, and asks the next thing. After want of memory the
    /// walk stands as before.
    pub fn advance(&mut self, alloc: Global, answer: &OrderAnswer) -> Result<OrderAsk, NoMemory>
        requires { Fits self.old answer.now }
        ensures asks { IfOk result (λ ask. Asks (left self.old answer.now) ask self.new) }
        ensures asked { IfOk result (λ ask. self.new.asked ≡ asked_by ask) }
        ensures fewer { OnOk result (asks_left self.new < asks_left self.old) }
        ensures failed { IfOk result (λ ask.
            self.new.failed ≡ (self.old.failed || is_failed answer.now || is_refused ask)) }
        ensures kept { OnErr result (self.new ≡ self.old) }
    {
        let _ = &self.places;
        match answer {
            OrderAnswer::First => self.go_on(alloc),
            OrderAnswer::Truth(true) => self.ask_depends(),
            OrderAnswer::Truth(false) => self.go_through(
                alloc,
                Step::BeforeSkip,
                SharedNames::none(),
            ),
            OrderAnswer::Names(names) => self.go_through(
                alloc,
                Step::Depends,
                SharedNames::of(alloc, names)?,
            ),
            OrderAnswer::Ok => self.go_through(alloc, Step::After, SharedNames::none()),
            OrderAnswer::Failed(names) => self.go_through(
                alloc,
                Step::Errors,
                SharedNames::of(alloc, names)?,
            ),
        }
    }

    /// Asks for the DependsOnTargets of the innermost visit's target.
    fn ask_depends(&mut self) -> Result<OrderAsk, NoMemory>
        requires { self.old.asked ≡ Condition }
        ensures ask { IfOk result (λ ask. ask
            ≡ Depends (name_at self.old.table (top_target self.old))) }
        ensures ok { OnOk result (self.new ≡ record self.old { asked = DependsOn }) }
        ensures kept { OnErr result (self.new ≡ self.old) }
    {
        let depth = self.visits.len();
        let target = self.top(depth).target;
        let name = self.table.name(target).copy()?;
        self.asked = Asked::Depends;
        Ok(OrderAsk::Depends(name))
    }

    /// Whether a body has failed, or the last ask was Circle or Unknown.
    pub fn has_failed(&self) -> bool
        ensures { result ≡ self.now.failed }
    {
        self.failed
    }
}

impl Copied for OrderWalk {
    /// The same walk, which goes on apart from this one. The copies share the project's table, all
    /// lists of names, what is noted of each target and the outer open visits, so that a copy costs
    /// no more where these are many.
    fn copy(&self) -> Result<OrderWalk, NoMemory> {
        Ok(OrderWalk {
            table: self.table.copy()?,
            wanted: self.wanted.copy()?,
            passed: self.passed,
            visits: self.visits.copy()?,
            places: self.places.copy()?,
            has_run: self.has_run.copy()?,
            asked: self.asked,
            failed: self.failed,
        })
    }
}
