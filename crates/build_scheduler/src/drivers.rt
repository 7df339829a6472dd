//! What drivers of a core have in common, on one node and on several.

ghost use Rattle.std.specs.Prelude.{
  ◌≡◌,
  ◌+◌,
  ◌^◌,
  ◌<◌,
  ◌++◌,
  drop,
  true,
  IfOk,
  IsSome,
  OnErr,
  OnOk,
  Some,
};
ghost use mathlib.Core.List.{IsPrefix};
ghost use Rattle.build_meaning.specs.History.{AreOfOthers};
ghost use Rattle.build_scheduler.specs.Drivers.{AreAlike};
ghost use Rattle.build_scheduler.specs.Learnt.{AreInOrder, ArePartOf};
ghost use Rattle.build_scheduler.specs.Position.{IsInTurn, answered, ask_of, used_between};

use crate::{Answer, Ask, Walker};
use build_meaning::Event;
use msb_values::NoMemory;
use result_cache::Table;

/// Lets a walk learn the records that an answer needs. The first answer needs none, nor does one
/// by which the walk makes a run.
pub fn learn_records<W: Walker>(
    walk: &mut W,
    table: &Table,
    answer: &Answer,
) -> Result<(), NoMemory>
    requires in_order { AreInOrder table.now.finished }
    requires known { ArePartOf (W.seen walk.old).learnt table.now.finished }
    requires fits { IsSome (answered (W.seen walk.old).world table.now.finished
        (W.seen walk.old).position answer.now) }
    ensures learns { OnOk result (AreAlike (W.seen walk.old).world (W.seen walk.new).learnt
        table.now.finished (W.seen walk.old).position answer.now) }
    ensures known { ArePartOf (W.seen walk.new).learnt table.now.finished }
    ensures err { OnErr result ((W.seen walk.new).learnt ≡ (W.seen walk.old).learnt) }
    ensures world { (W.seen walk.new).world ≡ (W.seen walk.old).world }
    ensures position { (W.seen walk.new).position ≡ (W.seen walk.old).position }
    ensures asked { (W.seen walk.new).asked ≡ (W.seen walk.old).asked }
{
    match answer {
        Answer::First => Ok(()),
        Answer::Go => Ok(()),
        Answer::Use => walk.learn(table, answer),
        Answer::Results(_) => walk.learn(table, answer),
    }
}

/// The walk learns the records that its answer needs, and goes on to its next ask.
pub fn go_on<W: Walker>(
    table: &Table,
    place: &mut W::Place,
    walk: &mut W,
    answer: &Answer,
) -> Result<Ask, NoMemory>
    requires in_order { AreInOrder table.now.finished }
    requires known { ArePartOf (W.seen walk.old).learnt table.now.finished }
    requires fits { IsSome (answered (W.seen walk.old).world table.now.finished
        (W.seen walk.old).position answer.now) }
    requires turn { IsInTurn (W.seen walk.old).asked answer.now }
    requires room { (W.seen walk.old).asked < 2 ^ 63 }
    requires place { W.Fits place.old (W.seen walk.old).world }
    ensures asks { IfOk result (λ ask. ask ≡ ask_of (W.seen walk.new).position) }
    ensures goes_on { OnOk result (answered (W.seen walk.old).world table.now.finished
        (W.seen walk.old).position answer.now ≡ Some (W.seen walk.new).position) }
    ensures asked { OnOk result ((W.seen walk.new).asked ≡ (W.seen walk.old).asked + 1) }
    ensures known { ArePartOf (W.seen walk.new).learnt table.now.finished }
    ensures used { OnOk result (W.used place.new ≡ W.used place.old
        ++ used_between (W.seen walk.old).position.place (W.seen walk.new).position.place) }
    ensures world { (W.seen walk.new).world ≡ (W.seen walk.old).world }
    ensures front { IsPrefix (W.used place.old) (W.used place.new) }
    ensures place { W.Fits place.new (W.seen walk.old).world }
    ensures lent { W.lent place.new ≡ W.lent place.old }
{
    learn_records(walk, table, answer)?;
    walk.advance(place, answer)
}

/// Whether no event from this number on is of the request.
pub fn are_of_others(events: &[Event], id: u64, number: usize) -> bool
    ensures { result ≡ true → AreOfOthers id (drop number events.now) }
{
    for at in number..events.len() {
        if events[at].request() == id {
            return false;
        }
    }
    true
}
