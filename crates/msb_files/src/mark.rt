ghost use Rattle.std.specs.Prelude.{◌≡◌};
ghost use Rattle.std.specs.List.{fold};
ghost use Rattle.result_cache.specs.Journal.{act_of, end_of, same_mark};
ghost use Rattle.msb_files.specs.Marks.{mark_by, mark_writes};

use indexmap::Equivalent;
use result_cache::RunRef;
use std::hash::{Hash, Hasher};
use std::marker::Model;

/// What tells one entry from another: of an act the run and the place, of an ended run the run.
pub(crate) struct Mark<'a> {
    pub(crate) run: &'a RunRef,
    /// The place of an act.
    pub(crate) number: Option<u64>,
}

// A drop that is written out is proved here alone.
impl<'a> Drop for Mark<'a> {
    fn drop(self) {
        let Mark { run: _, number: _ } = self;
    }
}

impl<'a> Model for Mark<'a> {
    ghost use Rattle.result_cache.specs.Journal.{Mark};
    ghost use Rattle.msb_files.specs.Marks.{mark_by};

    ghost Value = { Mark };

    ghost view = { λ m. mark_by m.run.now m.number };
}

impl<'a> Mark<'a> {
    pub(crate) fn act_of(run: &'a RunRef, number: u64) -> Mark<'a>
        ensures { result ≡ act_of run.entry.now number }
    {
        Mark {
            run,
            number: Some(number),
        }
    }

    pub(crate) fn end_of(run: &'a RunRef) -> Mark<'a>
        ensures { result ≡ end_of run.entry.now }
    {
        Mark { run, number: None }
    }
}

/// A mark that an index keeps. It shares the run with the entry.
pub(crate) struct KeptMark {
    pub(crate) run: RunRef,
    /// The place of an act.
    pub(crate) number: Option<u64>,
}

// A drop that is written out is proved here alone.
impl Drop for KeptMark {
    fn drop(self) {
        let KeptMark { run: _, number: _ } = self;
    }
}

impl Model for KeptMark {
    ghost use Rattle.result_cache.specs.Journal.{Mark};
    ghost use Rattle.msb_files.specs.Marks.{mark_by};

    ghost Value = { Mark };

    ghost view = { λ m. mark_by m.run m.number };
}

impl PartialEq for KeptMark {
    ghost use Rattle.std.specs.Cmp.{decided, partial_equiv_from_equiv};
    ghost use Rattle.result_cache.specs.Journal.{same_mark};
    ghost use Rattle.msb_files.specs.Marks.{mark-exact};

    ghost eq = { same_mark };

    ghost laws = { partial_equiv_from_equiv (decided same_mark mark-exact) };

    fn eq(&self, other: &KeptMark) -> bool {
        are_same(&self.run, self.number, &other.run, other.number)
    }
}

impl Eq for KeptMark {
    ghost use Rattle.std.specs.Cmp.{decided};
    ghost use Rattle.result_cache.specs.Journal.{same_mark};
    ghost use Rattle.msb_files.specs.Marks.{mark-exact};

    ghost laws = { decided same_mark mark-exact };
}

impl Hash for KeptMark {
    ghost use Rattle.std.proofs.Common.{ap};
    ghost use Rattle.msb_files.specs.Marks.{mark-exact, mark_writes};

    ghost hash_input = { mark_writes };

    ghost respects_eq = { λ a b h. ap mark_writes ((mark-exact a b).0 h) };

    fn hash<H: Hasher>(&self, state: &mut H) {
        hash_mark(&self.run, self.number, state);
    }
}

impl<'a> Hash for Mark<'a> {
    ghost use Rattle.std.proofs.Common.{ap};
    ghost use Rattle.msb_files.specs.Marks.{mark-exact, mark_writes};

    ghost hash_input = { mark_writes };

    ghost respects_eq = { λ a b h. ap mark_writes ((mark-exact a b).0 h) };

    fn hash<H: Hasher>(&self, state: &mut H) {
        hash_mark(self.run, self.number, state);
    }
}

impl<'a> PartialEq for Mark<'a> {
    ghost use Rattle.std.specs.Cmp.{decided, partial_equiv_from_equiv};
    ghost use Rattle.result_cache.specs.Journal.{same_mark};
    ghost use Rattle.msb_files.specs.Marks.{mark-exact};

    ghost eq = { same_mark };

    ghost laws = { partial_equiv_from_equiv (decided same_mark mark-exact) };

    fn eq(&self, other: &Mark<'a>) -> bool {
        are_same(self.run, self.number, other.run, other.number)
    }
}

impl<'a> Eq for Mark<'a> {
    ghost use Rattle.std.specs.Cmp.{decided};
    ghost use Rattle.result_cache.specs.Journal.{same_mark};
    ghost use Rattle.msb_files.specs.Marks.{mark-exact};

    ghost laws = { decided same_mark mark-exact };
}

impl<'a> Equivalent<KeptMark> for &Mark<'a> {
    ghost use Rattle.std.proofs.Common.{ap};
    ghost use Rattle.result_cache.specs.Journal.{same_mark};
    ghost use Rattle.msb_files.specs.Marks.{mark-exact, mark_writes};

    ghost equivalent = { λ q k. same_mark q.now k };

    ghost respects_hash = { λ q k h. ap mark_writes ((mark-exact q.now k).0 h) };

    ghost respects_eq = { λ q x y h. ap (λ m. same_mark m y) ((mark-exact q.now x).0 h) };

    fn equivalent(&self, key: &KeptMark) -> bool {
        are_same(self.run, self.number, &key.run, key.number)
    }
}

// Whether the marks of two runs, each of an act at a place or else of the run's end, are one.
fn are_same(run: &RunRef, number: Option<u64>, other: &RunRef, place: Option<u64>) -> bool
    ensures { result ≡ same_mark (mark_by run.now number) (mark_by other.now place) }
{
    match (number, place) {
        (Some(number), Some(place)) => number == place && *run == *other,
        (None, None) => *run == *other,
        (Some(_), None) | (None, Some(_)) => false,
    }
}

fn hash_mark<H: Hasher>(run: &RunRef, number: Option<u64>, state: &mut H)
    ensures { state.new ≡ fold H.write state.old (mark_writes (mark_by run.now number)) }
{
    run.hash().hash(state);
    if let Some(number) = number {
        number.hash(state);
    }
}
