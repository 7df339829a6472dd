//! What holds of every legal history of a whole and steady world.

ghost use Rattle.std.specs.Prelude.{◌≡◌, ℕ, List, Some};
ghost use Rattle.result_cache.specs.declared.request.RequestResult.{RequestResult};
ghost use Rattle.build_meaning.specs.declared.event.Event.{Event};
ghost use Rattle.build_meaning.specs.Lists.{at};
ghost use Rattle.result_cache.specs.Journal.{Journal};
ghost use Rattle.build_meaning.specs.World.{World};
ghost use Rattle.build_meaning.specs.Meaning.{Given};
ghost use Rattle.build_meaning.specs.Demand.{IsWhole, IsSteady};
ghost use Rattle.build_meaning.specs.State.{Place, assigned, RequestState, State};
ghost use Rattle.build_meaning.specs.Stands.{Goal, StandsInMeaning};
ghost use Rattle.build_meaning.specs.History.{IsHistory, EndsWith, SameRecords};
ghost use Rattle.build_meaning.specs.Progress.{CanGoOn};
ghost use Rattle.build_meaning.specs.Agrees.{Agrees, IsComplete};

/// Every legal history of a whole and steady world agrees with the world's meaning.
pub fn any_order_agrees<P, I, A>()
    ensures { (w : World P I A) (out : Given P I RequestResult) → IsWhole w out →
        IsSteady out.demand →
        (events : List Event) (s : State P I A) → IsHistory w events s → Agrees out s }
{}

/// In every legal history of a whole and steady world each request stands at a place of the
/// meaning: what is left of it gives what the meaning gives there.
pub fn every_request_stands<P, I, A>()
    ensures { (w : World P I A) (out : Given P I RequestResult) → IsWhole w out →
        IsSteady out.demand →
        (events : List Event) (s : State P I A) → IsHistory w events s →
        (goals : List Goal) × StandsInMeaning w out s goals }
{}

/// In no history of a whole and steady world anything is refused: no cycle closes, and no limit is
/// met.
pub fn nothing_is_refused<P, I, A>()
    ensures { (w : World P I A) (out : Given P I RequestResult) → IsWhole w out →
        IsSteady out.demand →
        (events : List Event) (s : State P I A) → IsHistory w events s →
        (id node : ℕ) (q : RequestState P I A) (place : Place P I A) →
        at s.requests id ≡ Some q → q.status ≡ assigned node place → CanGoOn w s id place }
{}

/// Where the root of a history of a whole and steady world is done, every run of the meaning is
/// finished, and tools were used as there.
pub fn done_is_complete<P, I, A>()
    ensures { (w : World P I A) (out : Given P I RequestResult) → IsWhole w out →
        IsSteady out.demand →
        (events : List Event) (s : State P I A) → IsHistory w events s →
        (result : RequestResult) (journal : Journal) →
        EndsWith s result journal → IsComplete out s }
{}

/// Two histories of a whole and steady world whose roots are done leave the same: one result, one
/// journal, and tables of the same runs with the same records, whatever the order of their events
/// and the nodes that they went to.
pub fn ends_are_determined<P, I, A>()
    ensures { (w : World P I A) (out : Given P I RequestResult) → IsWhole w out →
        IsSteady out.demand →
        (events others : List Event) (s t : State P I A) → IsHistory w events s →
        IsHistory w others t →
        (result other : RequestResult) (journal last : Journal) → EndsWith s result journal
        → EndsWith t other last →
        (result ≡ other) × (journal ≡ last) × SameRecords s.table t.table }
{}
