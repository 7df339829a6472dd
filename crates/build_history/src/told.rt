//! What a finished history tells of the meaning of its world.

ghost use Rattle.std.specs.Prelude.{◌≡◌, [], List, Some};
ghost use Rattle.result_cache.specs.declared.request.RequestResult.{RequestResult};
ghost use Rattle.build_meaning.specs.declared.event.Event.{Event};
ghost use Rattle.result_cache.specs.Journal.{Journal};
ghost use Rattle.result_cache.specs.Replay.{replay_all};
ghost use Rattle.build_meaning.specs.World.{World};
ghost use Rattle.build_meaning.specs.Meaning.{Given};
ghost use Rattle.build_meaning.specs.Demand.{IsWhole, IsSteady};
ghost use Rattle.build_meaning.specs.State.{State};
ghost use Rattle.build_meaning.specs.History.{IsHistory, EndsWith};

/// Where the root of a history of a whole and steady world is done, its result and its journal are
/// those of the meaning, and this journal is got from the result's runs and the table.
pub fn closed_history_tells<P, I, A>()
    ensures { (w : World P I A) (out : Given P I RequestResult) → IsWhole w out →
        IsSteady out.demand →
        (events : List Event) (s : State P I A) → IsHistory w events s →
        (result : RequestResult) (journal : Journal) →
        EndsWith s result journal →
        (result ≡ out.value) × (journal ≡ out.journal)
        × (replay_all s.table result.runs [] ≡ Some out.journal) }
{}
