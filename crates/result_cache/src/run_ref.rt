ghost use Rattle.std.specs.Prelude.{◌≡◌, IfOk};
ghost use Rattle.result_cache.specs.Hashes.{run_hash};
ghost use Rattle.result_cache.specs.Same.{same_run};

use crate::RunId;
use indexmap::Equivalent;
use msb_values::{Copied, NoMemory, Shared};
use std::alloc::Global;
use std::hash::{FoldHasher, Hash, Hasher};
use std::marker::Model;

/// The name of a run, which its copies share, in any threads, with its hash beside it.
pub struct RunRef {
    shared: Shared<RunId>,
    hash: u64,
}

// A drop that is written out is proved here alone.
impl Drop for RunRef {
    fn drop(self) {
        let RunRef { shared: _, hash: _ } = self;
    }
}

impl Model for RunRef {
    ghost use Rattle.std.specs.Prelude.{◌≡◌};
    ghost use Rattle.result_cache.specs.declared.run.RunId.{RunId};
    ghost use Rattle.result_cache.specs.Hashes.{run_hash};

    ghost Value = { RunId };

    ghost view = { λ r. r.shared };

    ghost invariant = { λ r. r.hash ≡ run_hash r.shared };
}

impl RunRef {
    pub fn new(alloc: Global, run: &RunId) -> Result<RunRef, NoMemory>
        ensures { IfOk result (λ r. r ≡ run.now) }
    {
        let copy = run.copy()?;
        let hash = hash_of(&copy);
        Ok(RunRef {
            shared: Shared::new(alloc, copy)?,
            hash,
        })
    }

    pub fn get(&self) -> &RunId
        ensures { result.now ≡ self.now }
    {
        self.shared.get()
    }

    /// The hash of the run, as `hash_of` gives it.
    pub fn hash(&self) -> u64
        ensures { result ≡ run_hash self.now }
    {
        self.hash
    }
}

// Different hashes tell different runs.
impl PartialEq for RunRef {
    ghost use Rattle.std.specs.Cmp.{decided, partial_equiv_from_equiv};
    ghost use Rattle.result_cache.specs.Same.{same_run};
    ghost use Rattle.result_cache.specs.Exact.{run-exact};

    ghost eq = { same_run };

    ghost laws = { partial_equiv_from_equiv (decided same_run run-exact) };

    fn eq(&self, other: &RunRef) -> bool {
        self.hash == other.hash && *self.get() == *other.get()
    }
}

impl Eq for RunRef {
    ghost use Rattle.std.specs.Cmp.{decided};
    ghost use Rattle.result_cache.specs.Same.{same_run};
    ghost use Rattle.result_cache.specs.Exact.{run-exact};

    ghost laws = { decided same_run run-exact };
}

// An index takes the hash that is there.
impl Hash for RunRef {
    ghost use Rattle.std.specs.Hash as fed;
    ghost use Rattle.std.proofs.Common.{ap};
    ghost use Rattle.result_cache.specs.Exact.{run-exact};
    ghost use Rattle.result_cache.specs.Hashes.{run_hash};
    ghost use Rattle.result_cache.specs.Same.{same_run};

    ghost hash_input = { λ r. fed.u64 (run_hash r) };

    ghost respects_eq = { λ a b h. ap (λ r. fed.u64 (run_hash r)) ((run-exact a b).0 h) };

    fn hash<H: Hasher>(&self, state: &mut H) {
        self.hash.hash(state);
    }
}

impl Copied for RunRef {
    fn copy(&self) -> Result<RunRef, NoMemory> {
        Ok(RunRef {
            shared: self.shared.copy()?,
            hash: self.hash,
        })
    }
}

/// A run with its hash, by which an index that keeps [`RunRef`]s is searched.
pub struct RunProbe<'a> {
    run: &'a RunId,
    hash: u64,
}

// A drop that is written out is proved here alone.
impl<'a> Drop for RunProbe<'a> {
    fn drop(self) {
        let RunProbe { run: _, hash: _ } = self;
    }
}

impl<'a> Model for RunProbe<'a> {
    ghost use Rattle.std.specs.Prelude.{◌≡◌};
    ghost use Rattle.result_cache.specs.declared.run.RunId.{RunId};
    ghost use Rattle.result_cache.specs.Hashes.{run_hash};

    ghost Value = { RunId };

    ghost view = { λ p. p.run.now };

    ghost invariant = { λ p. p.hash ≡ run_hash p.run.now };
}

impl<'a> RunProbe<'a> {
    pub fn of(run: &'a RunId) -> RunProbe<'a>
        ensures { result ≡ run.entry.now }
    {
        RunProbe {
            run,
            hash: hash_of(run),
        }
    }

    /// The same of a run whose hash is there.
    pub fn of_ref(run: &'a RunRef) -> RunProbe<'a>
        ensures { result ≡ run.entry.now }
    {
        RunProbe {
            run: run.get(),
            hash: run.hash(),
        }
    }

    /// Whether it is this run.
    pub fn is(&self, run: &RunRef) -> bool
        ensures { result ≡ same_run self.now run.now }
    {
        self.hash == run.hash && *self.run == *run.get()
    }
}

impl<'a> Hash for RunProbe<'a> {
    ghost use Rattle.std.specs.Hash as fed;
    ghost use Rattle.std.proofs.Common.{ap};
    ghost use Rattle.result_cache.specs.Exact.{run-exact};
    ghost use Rattle.result_cache.specs.Hashes.{run_hash};

    ghost hash_input = { λ p. fed.u64 (run_hash p) };

    ghost respects_eq = { λ a b h. ap (λ r. fed.u64 (run_hash r)) ((run-exact a b).0 h) };

    fn hash<H: Hasher>(&self, state: &mut H) {
        self.hash.hash(state);
    }
}

impl<'a> PartialEq for RunProbe<'a> {
    ghost use Rattle.std.specs.Cmp.{decided, partial_equiv_from_equiv};
    ghost use Rattle.result_cache.specs.Same.{same_run};
    ghost use Rattle.result_cache.specs.Exact.{run-exact};

    ghost eq = { same_run };

    ghost laws = { partial_equiv_from_equiv (decided same_run run-exact) };

    fn eq(&self, other: &RunProbe<'a>) -> bool {
        self.hash == other.hash && *self.run == *other.run
    }
}

impl<'a> Eq for RunProbe<'a> {
    ghost use Rattle.std.specs.Cmp.{decided};
    ghost use Rattle.result_cache.specs.Same.{same_run};
    ghost use Rattle.result_cache.specs.Exact.{run-exact};

    ghost laws = { decided same_run run-exact };
}

impl<'a> Equivalent<RunRef> for &RunProbe<'a> {
    ghost use Rattle.std.proofs.Common.{ap};
    ghost use Rattle.std.specs.Hash as fed;
    ghost use Rattle.result_cache.specs.Exact.{run-exact};
    ghost use Rattle.result_cache.specs.Hashes.{run_hash};
    ghost use Rattle.result_cache.specs.Same.{same_run};

    ghost equivalent = { λ q k. same_run q.now k };

    ghost respects_hash = { λ q k h. ap (λ r. fed.u64 (run_hash r)) ((run-exact q.now k).0 h) };

    ghost respects_eq = { λ q x y h. ap (λ r. same_run r y) ((run-exact q.now x).0 h) };

    fn equivalent(&self, key: &RunRef) -> bool {
        self.is(key)
    }
}

/// The hash of a run, which is the same in every index.
pub fn hash_of(run: &RunId) -> u64
    ensures { result ≡ run_hash run.now }
{
    let mut hasher = FoldHasher::default();
    run.hash(&mut hasher);
    hasher.finish()
}
