ghost use Rattle.std.specs.Prelude.{
  ◌≡◌,
  ◌≢◌,
  ◌<◌,
  ◌≤◌,
  ◌-◌,
  ◌^◌,
  ◌||◌,
  ◌∷◌,
  ◌++◌,
  [],
  ℕ,
  true,
  false,
  map,
  length,
  IfOk,
  OnOk,
  OnErr,
  slice_index_or,
  slice_set,
  if◌then◌else◌,
};
ghost use Rattle.target_order.specs.Progress.{name_at, is_errors, is_past};
ghost use Rattle.target_order.specs.AsksLeft.{asks_left};
ghost use Rattle.target_order.specs.Answers.{Asks, asked_by, is_refused};
ghost use Rattle.target_order.specs.Search.{
  visit_at,
  is_request,
  is_going,
  asks_visit,
  IsCursor,
  IsProgress,
  HasStopped,
  circle_at,
};
ghost use Rattle.target_order.specs.Steps.{
  going,
  going_asks,
  ask_of,
  visiting,
  at_body,
  ended,
  taken,
  undo_of,
  restored,
  top_target,
  marked_visits,
  marked_passed,
  came,
  CanCome,
  IsPlace,
};

use crate::array::SharedArray;
use crate::cursor::{Cursor, Stop};
use crate::open_visits::OpenVisits;
use crate::shared::SharedNames;
use crate::visits::{Asked, OpenVisit, Step};
use crate::{OrderAsk, OrderWalk};
use msb_values::{Copied, List, Name, NoMemory};
use std::alloc::Global;
use std::mem;

/// What an answer has changed, so that it can be put back where no memory is found for the next
/// ask.
#[derive(Drop)]
pub struct Undo {
    pub visit: OpenVisit,
    pub has_run: SharedArray<bool>,
    pub asked: Asked,
    pub failed: bool,
}

impl OrderWalk {
    /// Sends the innermost visit through the list of this step; where there is no memory, the walk
    /// stays.
    pub(crate) fn take(
        &mut self,
        alloc: Global,
        step: Step,
        names: SharedNames,
    ) -> Result<Undo, NoMemory>
        requires asked { asks_visit self.old.asked ≡ true }
        requires within { is_request step ≡ false }
        ensures taken { OnOk result (self.new ≡ taken self.old step names) }
        ensures undo { IfOk result (λ undo. undo ≡ undo_of self.old) }
        ensures kept { OnErr result (self.new ≡ self.old) }
    {
        let top = self.visits.len() - 1;
        let target = self.visits.get(top).target;
        let visit = OpenVisit {
            target,
            step,
            passed: 0,
            names,
        };
        let has_run = with_run(alloc, &self.has_run, target, step)?;
        let undo = Undo {
            visit: self.visits.replace_last(visit),
            has_run: mem::replace(&mut self.has_run, has_run),
            asked: self.asked,
            failed: self.failed,
        };
        self.asked = Asked::Answered;
        self.failed |= step.is_errors();
        Ok(undo)
    }

    /// Goes on through the list of this step to the next ask; where there is no memory, the walk
    /// stays.
    pub(crate) fn go_through(
        &mut self,
        alloc: Global,
        step: Step,
        names: SharedNames,
    ) -> Result<OrderAsk, NoMemory>
        requires asked { asks_visit self.old.asked ≡ true }
        requires within { is_request step ≡ false }
        ensures asks { IfOk result (λ ask. Asks (going (taken self.old step names)) ask self.new) }
        ensures asked { IfOk result (λ ask. self.new.asked ≡ asked_by ask) }
        ensures fewer { OnOk result (asks_left self.new ≤ going_asks (taken self.old step names)) }
        ensures failed { IfOk result (λ ask.
            self.new.failed ≡ (self.old.failed || is_errors step || is_refused ask)) }
        ensures kept { OnErr result (self.new ≡ self.old) }
        ensures short { length names < 2 ^ 64 }
    {
        let _ = &self.places;
        let _count = names.as_slice().len();
        let undo = self.take(alloc, step, names)?;
        match self.go_on(alloc) {
            Ok(ask) => Ok(ask),
            Err(e) => {
                self.put_back(undo);
                Err(e)
            }
        }
    }

    /// Puts the innermost visit back where it was.
    pub(crate) fn put_back(&mut self, undo: Undo)
        requires some { 0 < length self.old.visits }
        requires same { undo.visit.target ≡ top_target self.old }
        requires within { is_request undo.visit.step ≡ false }
        requires progress { IsProgress (restored self.old undo) }
        ensures { self.new ≡ restored self.old undo }
    {
        let Undo {
            visit,
            has_run,
            asked,
            failed,
        } = undo;
        self.has_run = has_run;
        self.visits.replace_last(visit);
        self.asked = asked;
        self.failed = failed;
    }

    /// Goes on to the next ask; where there is no memory for it, the walk stays.
    pub(crate) fn go_on(&mut self, alloc: Global) -> Result<OrderAsk, NoMemory>
        requires { is_going self.old.asked ≡ true }
        ensures asks { IfOk result (λ ask. Asks (going self.old) ask self.new) }
        ensures asked { IfOk result (λ ask. self.new.asked ≡ asked_by ask) }
        ensures fewer { OnOk result (asks_left self.new ≤ going_asks self.old) }
        ensures failed { IfOk result (λ ask. self.new.failed
            ≡ (self.old.failed || is_refused ask)) }
        ensures kept { OnErr result (self.new ≡ self.old) }
    {
        let depth = self.visits.len();
        let (cursor, stop) = self.search(self.below(depth));
        let ask = self.ask(alloc, cursor, stop)?;
        let Cursor {
            depth,
            step,
            passed,
            ..
        } = cursor;
        self.come_to(alloc, depth, step, passed, stop)?;
        Ok(ask)
    }

    /// Makes the place where a search has stopped the walk's own; where there is no memory, the
    /// walk stays.
    fn come_to(
        &mut self,
        alloc: Global,
        depth: usize,
        step: Step,
        passed: usize,
        stop: Stop,
    ) -> Result<(), NoMemory>
        requires place { IsPlace self.old depth step }
        requires going { is_going self.old.asked ≡ true }
        requires can { CanCome self.old depth step passed stop }
        ensures ok { OnOk result (self.new ≡ came self.old depth step passed stop) }
        ensures err { OnErr result (self.new ≡ self.old) }
    {
        match stop {
            Stop::Visit(target) => self.visit(alloc, depth, step, passed + 1, target)?,
            Stop::Body => self.wait_for_body(alloc, depth, step, passed)?,
            Stop::Finished | Stop::Stopped => self.end(false),
            Stop::Circle(_) | Stop::Unknown => self.end(true),
        }
        Ok(())
    }

    /// What is asked where a search has stopped.
    fn ask(&self, alloc: Global, cursor: Cursor<'_>, stop: Stop) -> Result<OrderAsk, NoMemory>
        requires cursor { IsCursor self.now cursor }
        requires stopped { HasStopped self.now cursor stop }
        ensures { IfOk result (λ ask. ask ≡ ask_of self.now cursor.entry stop) }
    {
        match stop {
            Stop::Visit(target) => Ok(OrderAsk::Condition(self.table.name(target).copy()?)),
            Stop::Body => {
                let target = self.top(cursor.depth).target;
                Ok(OrderAsk::Body(self.table.name(target).copy()?))
            }
            Stop::Finished | Stop::Stopped => Ok(OrderAsk::Done),
            Stop::Circle(place) => {
                let back = &cursor.list[cursor.passed];
                Ok(OrderAsk::Circle(self.circle(alloc, place, cursor.depth, back)?))
            }
            Stop::Unknown => Ok(OrderAsk::Unknown(cursor.list[cursor.passed].copy()?)),
        }
    }

    /// The names of the open visits from this place to this depth, and back to the first.
    fn circle(
        &self,
        alloc: Global,
        place: usize,
        depth: usize,
        back: &Name,
    ) -> Result<List<Name>, NoMemory>
        requires order { place ≤ depth }
        requires deep { depth ≤ length self.now.visits }
        ensures { IfOk result (λ names. names ≡ circle_at self.now depth place back.now) }
    {
        let mut names = List::new(alloc);
        for at in place..depth {
            let target = self.visits.get(at).target;
            names.push(self.table.name(target).copy()?)?;
        }
        names.push(back.copy()?)?;
        Ok(names)
    }

    /// Opens a visit of this target inside the visits through this depth.
    fn visit(
        &mut self,
        alloc: Global,
        depth: usize,
        step: Step,
        passed: usize,
        target: usize,
    ) -> Result<(), NoMemory>
        requires place { IsPlace self.old depth step }
        requires going { is_going self.old.asked ≡ true }
        requires known { target < length self.old.table.names }
        requires apart { (d : ℕ) → d < depth → (visit_at self.old.visits d).target ≢ target }
        ensures ok { OnOk result (self.new ≡ visiting self.old depth step passed target) }
        ensures err { OnErr result (self.new ≡ self.old) }
    {
        let visit = OpenVisit {
            target,
            step: Step::Depends,
            passed: 0,
            names: SharedNames::none(),
        };
        let places = self.places.with(alloc, target, depth)?;
        let mut visits = mark(alloc, &self.visits, depth, step, passed)?;
        visits.push(alloc, visit)?;
        self.visits = visits;
        self.places = places;
        self.passed = request_passed(self.passed, depth, passed);
        self.asked = Asked::Condition;
        Ok(())
    }

    /// Stays in the innermost of so many visits, for its body; where there is no memory, the walk
    /// stays.
    fn wait_for_body(
        &mut self,
        alloc: Global,
        depth: usize,
        step: Step,
        passed: usize,
    ) -> Result<(), NoMemory>
        requires place { IsPlace self.old depth step }
        requires going { is_going self.old.asked ≡ true }
        requires some { 0 < depth }
        requires calm { is_errors step ≡ false }
        ensures ok { OnOk result (self.new ≡ at_body self.old depth step passed) }
        ensures err { OnErr result (self.new ≡ self.old) }
    {
        self.visits = mark(alloc, &self.visits, depth, step, passed)?;
        self.asked = Asked::Body;
        Ok(())
    }

    fn end(&mut self, failed: bool)
        ensures { self.new ≡ ended self.old failed }
    {
        self.asked = Asked::End;
        self.failed |= failed;
    }
}

/// The visits through this depth, the innermost at this place of its list.
fn mark(
    alloc: Global,
    visits: &OpenVisits,
    depth: usize,
    step: Step,
    passed: usize,
) -> Result<OpenVisits, NoMemory>
    requires { depth ≤ length visits.now }
    ensures { IfOk result (λ marked. marked ≡ marked_visits visits.now depth step passed) }
{
    let mut marked = visits.through(alloc, depth)?;
    marked.note(step, passed);
    Ok(marked)
}

/// What has run, where the visit of this target goes on at this step: past its body the target has
/// run.
fn with_run(
    alloc: Global,
    has_run: &SharedArray<bool>,
    target: usize,
    step: Step,
) -> Result<SharedArray<bool>, NoMemory>
    requires { target < length has_run.now }
    ensures { IfOk result
        (λ run. run ≡ (if is_past step then slice_set has_run.now target true else has_run.now)) }
{
    if step.is_past() {
        has_run.with(alloc, target, true)
    } else {
        has_run.copy()
    }
}

/// How many targets of the request are behind it: at depth 0 the cursor is in that list.
fn request_passed(before: usize, depth: usize, passed: usize) -> usize
    ensures { result ≡ marked_passed before depth passed }
{
    if depth == 0 { passed } else { before }
}
