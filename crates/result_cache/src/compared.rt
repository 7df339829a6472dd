//! Equality of records by bytes. It takes no memory.

ghost use Rattle.std.specs.Prelude.{◌≡◌, Bool};
ghost use Rattle.std.specs.Cmp.Lexicographic.{pointwise};
ghost use Rattle.std.specs.List.{list_all, zip};
ghost use Rattle.result_cache.specs.SameRecords.{same_act, same_put};

use crate::{Decision, Record, Segment};
use msb_values::{Act, Change, Note, Put};

/// Two values that may be the same.
trait Alike {
    ghost same: { Self → Self → Bool };

    fn is_same(&self, other: &Self) -> bool
        ensures { result ≡ Self.same self.now other.now };
}

impl Alike for Note {
    ghost use Rattle.result_cache.specs.SameRecords.{same_note};

    ghost same = { same_note };

    fn is_same(&self, other: &Note) -> bool {
        match (self, other) {
            (Note::Low(a), Note::Low(b)) => a == b,
            (Note::Message(a), Note::Message(b)) => a == b,
            (Note::Warning(a), Note::Warning(b)) => a == b,
            (Note::Fail(a), Note::Fail(b)) => a == b,
            _ => false,
        }
    }
}

impl Alike for Change {
    ghost use Rattle.result_cache.specs.SameRecords.{same_change};

    ghost same = { same_change };

    fn is_same(&self, other: &Change) -> bool {
        match (self, other) {
            (Change::SetProp(n, a), Change::SetProp(m, b)) => n == m && a == b,
            (Change::AddItems(n, a), Change::AddItems(m, b)) => n == m && a == b,
            (Change::RemoveItems(n, a), Change::RemoveItems(m, b)) => n == m && a == b,
            (Change::SetMeta(n, a, p), Change::SetMeta(m, b, q)) => n == m && (a == b && p == q),
            _ => false,
        }
    }
}

/// Whether two lists are the same, entry by entry.
fn all_same<T: Alike>(a: &[T], b: &[T]) -> bool
    ensures { result ≡ pointwise T.same a.now b.now }
{
    a.len() == b.len() && pairs_are_same(a, b)
}

fn pairs_are_same<T: Alike>(a: &[T], b: &[T]) -> bool
    ensures { result ≡ list_all (λ p. T.same p.0 p.1) (zip a.now b.now) }
{
    a.iter().zip(b).all(|(x, y)| x.is_same(y))
}

fn is_same_put(a: &Put, b: &Put) -> bool
    ensures { result ≡ same_put a.now b.now }
{
    a.path == b.path && a.bytes.get().as_bytes() == b.bytes.get().as_bytes()
}

fn is_same_act(a: &Act, b: &Act) -> bool
    ensures { result ≡ same_act a.now b.now }
{
    match (a, b) {
        (Act::Write(a), Act::Write(b)) => is_same_put(a, b),
        (Act::Remove(a), Act::Remove(b)) => a == b,
        _ => false,
    }
}

impl PartialEq for Decision {
    ghost use Rattle.std.specs.Cmp.{decided, partial_equiv_from_equiv};
    ghost use Rattle.result_cache.specs.ExactRecords.{decision-exact};
    ghost use Rattle.result_cache.specs.SameRecords.{same_decision};

    ghost eq = { same_decision };

    ghost laws = { partial_equiv_from_equiv (decided same_decision decision-exact) };

    fn eq(&self, other: &Decision) -> bool {
        match (self, other) {
            (Decision::Ran, Decision::Ran) => true,
            (Decision::UpToDate, Decision::UpToDate) => true,
            (Decision::NothingToDo, Decision::NothingToDo) => true,
            (Decision::Part(n, m), Decision::Part(k, l)) => *n == *k && *m == *l,
            (Decision::Failed, Decision::Failed) => true,
            _ => false,
        }
    }
}

impl Eq for Decision {
    ghost use Rattle.std.specs.Cmp.{decided};
    ghost use Rattle.result_cache.specs.ExactRecords.{decision-exact};
    ghost use Rattle.result_cache.specs.SameRecords.{same_decision};

    ghost laws = { decided same_decision decision-exact };
}

impl PartialEq for Segment {
    ghost use Rattle.std.specs.Cmp.{decided, partial_equiv_from_equiv};
    ghost use Rattle.result_cache.specs.ExactRecords.{segment-exact};
    ghost use Rattle.result_cache.specs.SameRecords.{same_segment};

    ghost eq = { same_segment };

    ghost laws = { partial_equiv_from_equiv (decided same_segment segment-exact) };

    fn eq(&self, other: &Segment) -> bool {
        match (self, other) {
            (Segment::File(a), Segment::File(b)) => is_same_act(a, b),
            (Segment::Call(key, a), Segment::Call(other, b)) => key == other && a == b,
            _ => false,
        }
    }
}

impl Eq for Segment {
    ghost use Rattle.std.specs.Cmp.{decided};
    ghost use Rattle.result_cache.specs.ExactRecords.{segment-exact};
    ghost use Rattle.result_cache.specs.SameRecords.{same_segment};

    ghost laws = { decided same_segment segment-exact };
}

impl PartialEq for Record {
    ghost use Rattle.std.specs.Cmp.{decided, partial_equiv_from_equiv};
    ghost use Rattle.result_cache.specs.ExactRecords.{record-exact};
    ghost use Rattle.result_cache.specs.SameRecords.{same_record};

    ghost eq = { same_record };

    ghost laws = { partial_equiv_from_equiv (decided same_record record-exact) };

    fn eq(&self, other: &Record) -> bool {
        self.ok == other.ok
            && (self.decisions == other.decisions
                && (self.items == other.items
                    && (all_same(self.changes.as_slice(), other.changes.as_slice())
                        && (all_same(self.notes.as_slice(), other.notes.as_slice())
                            && self.segments == other.segments))))
    }
}

impl Eq for Record {
    ghost use Rattle.std.specs.Cmp.{decided};
    ghost use Rattle.result_cache.specs.ExactRecords.{record-exact};
    ghost use Rattle.result_cache.specs.SameRecords.{same_record};

    ghost laws = { decided same_record record-exact };
}
