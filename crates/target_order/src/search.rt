ghost use Rattle.std.specs.Prelude.{
  ◌≡◌,
  ◌≢◌,
  ◌≤◌,
  ◌<◌,
  ◌+◌,
  ◌-◌,
  ◌^◌,
  ℕ,
  length,
  slice_index_or,
  [],
  false,
  IfSome,
  IfNone,
};
ghost use Rattle.target_order.specs.Progress.{list_at};
ghost use Rattle.target_order.specs.Search.{
  inner,
  visit_at,
  is_request,
  IsBelow,
  IsCursor,
  GoesOn,
  Stands,
  Turns,
  HasStopped,
  IsHookStep,
  rest_list,
};

use crate::OrderWalk;
use crate::cursor::{Cursor, Stand, Stop, Turn};
use crate::visits::{OpenVisit, Step};
use msb_values::Name;

impl OrderWalk {
    /// The place where the innermost of so many open visits stands, or the request.
    pub(crate) fn below(&self, depth: usize) -> Cursor<'_>
        requires { depth ≤ length self.now.visits }
        ensures depth { result.depth ≡ depth }
        ensures place { IsBelow self.now (inner self.now depth) result }
        ensures short { length result.list.now < 2 ^ 64 }
    {
        if depth == 0 {
            return Cursor {
                depth,
                step: Step::Request,
                list: self.wanted.as_slice(),
                passed: self.passed,
            };
        }
        let visit = self.top(depth);
        Cursor {
            depth,
            step: visit.step,
            list: self.list_of(visit, visit.step),
            passed: visit.passed,
        }
    }

    /// The innermost of so many open visits.
    pub(crate) fn top(&self, depth: usize) -> &OpenVisit
        requires some { 0 < depth }
        requires deep { depth ≤ length self.now.visits }
        ensures value { result.now ≡ visit_at self.now.visits (depth - 1) }
        ensures known { result.now.target < length self.now.table.names }
        ensures within { is_request result.now.step ≡ false }
    {
        self.visits.get(depth - 1)
    }

    /// The list that this step of a visit goes through.
    fn list_of<'a>(&'a self, visit: &'a OpenVisit, step: Step) -> &'a [Name]
        requires known { visit.now.target < length self.now.table.names }
        requires within { is_request step ≡ false }
        ensures { result.now ≡ list_at self.now.table visit.now.target visit.now.names step }
    {
        match step {
            Step::Depends | Step::Errors => visit.names.as_slice(),
            Step::BeforeBody | Step::BeforeSkip => self.table.before(visit.target),
            Step::After => self.table.after(visit.target),
            Step::Request => &[],
        }
    }

    /// Goes on from the cursor to the next place where something is asked.
    pub(crate) fn search<'a>(&'a self, from: Cursor<'a>) -> (Cursor<'a>, Stop)
        requires { IsCursor self.now from }
        ensures goes { GoesOn self.now from.entry result.0 }
        ensures stops { HasStopped self.now result.0 result.1 }
    {
        let mut cursor = from;
        loop {
            match self.turn(cursor) {
                Turn::On(next) => cursor = next,
                Turn::Stop(stop) => return (cursor, stop),
            }
        }
    }

    fn turn<'a>(&'a self, cursor: Cursor<'a>) -> Turn<'a>
        requires { IsCursor self.now cursor }
        ensures { Turns self.now cursor.entry result }
    {
        if cursor.passed < cursor.list.len() {
            self.at_name(cursor, &cursor.list[cursor.passed])
        } else {
            self.at_end(cursor)
        }
    }

    fn at_name<'a>(&'a self, cursor: Cursor<'a>, name: &Name) -> Turn<'a>
        requires cursor { IsCursor self.now cursor }
        requires within { cursor.passed < length cursor.list.now }
        requires name { name.now ≡ slice_index_or cursor.list.now cursor.passed [] }
        ensures { Turns self.now cursor.entry result }
    {
        let _ = &self.places;
        match self.standing(cursor, name) {
            Stand::Unknown => Turn::Stop(Stop::Unknown),
            Stand::Circle(depth) => Turn::Stop(Stop::Circle(depth)),
            Stand::Fresh(target) => Turn::Stop(Stop::Visit(target)),
            Stand::Settled => Turn::On(Cursor {
                passed: cursor.passed + 1,
                ..cursor
            }),
        }
    }

    fn standing(&self, cursor: Cursor<'_>, name: &Name) -> Stand
        requires { IsCursor self.now cursor }
        ensures { Stands self.now cursor.entry name.now result }
    {
        let Some(target) = self.table.find(name) else {
            return Stand::Unknown;
        };
        if self.has_run.get(target) {
            return Stand::Settled;
        }
        match self.open_place(cursor.depth, target) {
            None => Stand::Fresh(target),
            Some(place) if self.step_at(cursor, place).is_past() => Stand::Settled,
            Some(place) => Stand::Circle(place),
        }
    }

    /// The place of this target's visit among the outer ones through this depth.
    fn open_place(&self, depth: usize, target: usize) -> Option<usize>
        requires deep { depth ≤ length self.now.visits }
        requires known { target < length self.now.table.names }
        ensures found { IfSome result (λ place. (place < depth)
            × ((visit_at self.now.visits place).target ≡ target)) }
        ensures absent { IfNone result ((d : ℕ) → d < depth
            → (visit_at self.now.visits d).target ≢ target) }
    {
        let place = self.places.get(target);
        if place < depth && self.visits.get(place).target == target {
            Some(place)
        } else {
            None
        }
    }

    /// The step of the visit at this place, which the cursor has for the innermost one.
    fn step_at(&self, cursor: Cursor<'_>, place: usize) -> Step
        requires cursor { cursor.depth ≤ length self.now.visits }
        requires within { place < cursor.depth }
        ensures top { place + 1 ≡ cursor.entry.depth → result ≡ cursor.entry.step }
        ensures below { place + 1 < cursor.entry.depth
            → result ≡ (visit_at self.now.visits place).step }
    {
        if place + 1 == cursor.depth {
            cursor.step
        } else {
            self.visits.get(place).step
        }
    }

    /// What follows the end of a list.
    fn at_end<'a>(&'a self, cursor: Cursor<'a>) -> Turn<'a>
        requires cursor { IsCursor self.now cursor }
        requires ends { rest_list cursor ≡ [] }
        ensures { Turns self.now cursor.entry result }
    {
        let _ = &self.places;
        match cursor.step {
            Step::Request => Turn::Stop(Stop::Finished),
            Step::Errors => Turn::Stop(Stop::Stopped),
            Step::BeforeBody => Turn::Stop(Stop::Body),
            Step::Depends => self.on_list(cursor, Step::BeforeBody),
            Step::BeforeSkip => self.on_list(cursor, Step::After),
            Step::After => Turn::On(self.below(cursor.depth - 1)),
        }
    }

    /// From the end of a list to the hooks of the same visit.
    fn on_list<'a>(&'a self, cursor: Cursor<'a>, step: Step) -> Turn<'a>
        requires cursor { IsCursor self.now cursor }
        requires ends { rest_list cursor ≡ [] }
        requires hooks { IsHookStep cursor.step step }
        ensures { Turns self.now cursor.entry result }
    {
        let _ = &self.places;
        Turn::On(Cursor {
            depth: cursor.depth,
            step,
            list: self.list_of(self.top(cursor.depth), step),
            passed: 0,
        })
    }
}
