//! What a build keeps of its requests and runs: which run it is, what a request asked and got, the
//! record of a run, and the table of the runs that are begun and of the records of those that are
//! finished. (MSBuild task; MSBuild targets.)
//!
//! `specs/` says besides what a journal is, and how a record is replayed in a journal that has not
//! made it. The functions here are laws of these definitions: they run no code, and their contracts
//! are what is proved.
#![tactic(auto)]

ghost use Rattle.std.specs.Prelude.{◌≡◌, ℕ, [], List, Some};
ghost use Rattle.std.specs.Bool.{Decides};
ghost use Rattle.msb_values.specs.declared.key.InstanceKey.{InstanceKey};
ghost use Rattle.msb_values.specs.declared.act.Act.{Act};
ghost use Rattle.result_cache.specs.declared.run.RunId.{RunId};
ghost use Rattle.result_cache.specs.declared.request.RequestKey.{RequestKey};
ghost use Rattle.result_cache.specs.declared.record.Record.{Record};
ghost use Rattle.result_cache.specs.Same.{same_run, same_instance, same_keys};
ghost use Rattle.result_cache.specs.SameRecords.{same_record};
ghost use Rattle.result_cache.specs.Journal.{Journal, acted, ended, add, merge};
ghost use Rattle.result_cache.specs.Table.{Records};
ghost use Rattle.result_cache.specs.Replay.{HasAll, effects_of, IsClosed, replay};

mod compared;
mod finished;
mod layer;
mod record;
mod record_ref;
mod request;
mod run;
mod run_ref;
mod table;

pub use record::{Decision, Record, Segment};
pub use record_ref::RecordRef;
pub use request::{RequestKey, RequestResult, Returned};
pub use run::RunId;
pub use run_ref::{RunProbe, RunRef, hash_of};
pub use table::{Found, Table};

/// The tests that tell instances, runs, lists of requests and records apart hold exactly of equal
/// ones.
pub fn tests_are_exact()
    ensures instances { (a b : InstanceKey) → Decides (same_instance a b) (a ≡ b) }
    ensures runs { (a b : RunId) → Decides (same_run a b) (a ≡ b) }
    ensures requests { (a b : List RequestKey) → Decides (same_keys a b) (a ≡ b) }
    ensures records { (a b : Record) → Decides (same_record a b) (a ≡ b) }
{}

/// A closed journal stays closed: when a file is written or removed, when a run ends of whose
/// record it has everything, when another closed journal is merged, and when a run is replayed.
pub fn closed_stays()
    ensures empty { IsClosed [] }
    ensures acted { (journal : Journal) (run : RunId) (place : ℕ) (act : Act) → IsClosed journal →
        IsClosed (add journal (acted run place act)) }
    ensures ended { (journal : Journal) (run : RunId) (made : Record) → IsClosed journal
        → HasAll (effects_of run made) journal →
        IsClosed (add journal (ended run made)) }
    ensures merged { (journal other : Journal) → IsClosed journal → IsClosed other
        → IsClosed (merge journal other) }
    ensures replayed { (table : Records) (run : RunId) (journal after : Journal) → IsClosed journal
        →
        replay table run journal ≡ Some after → IsClosed after }
{}

/// A run that was replayed adds nothing when it is replayed again.
pub fn replayed_once()
    ensures { (table : Records) (run : RunId) (journal after : Journal)
        → replay table run journal ≡ Some after →
        replay table run after ≡ Some after }
{}
