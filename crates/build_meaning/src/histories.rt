//! What holds of every legal history, whatever its world is like.

ghost use Rattle.std.specs.Prelude.{◌≡◌, ◌≤◌, ℕ, false, true, List, length, None, Some};
ghost use Rattle.std.specs.Bool.{Decides};
ghost use Rattle.result_cache.specs.declared.run.RunId.{RunId};
ghost use Rattle.result_cache.specs.declared.record.Record.{Record};
ghost use Rattle.build_meaning.specs.declared.event.Event.{Event};
ghost use Rattle.build_meaning.specs.declared.event.Event.TheVariants.{Assign, Retire};
ghost use Rattle.build_meaning.specs.Lists.{at};
ghost use Rattle.result_cache.specs.Journal.{Journal, end_of, act_of, has};
ghost use Rattle.result_cache.specs.Table.{found, is_begun};
ghost use Rattle.build_meaning.specs.World.{World};
ghost use Rattle.build_meaning.specs.Walk.{Walk, wants, Body};
ghost use Rattle.build_meaning.specs.Stop.{Stop};
ghost use Rattle.build_meaning.specs.State.{
  Within,
  Place,
  walking,
  within,
  assigned,
  RequestState,
  State,
  with_request,
  with_status,
};
ghost use Rattle.build_meaning.specs.ByTable.{IsConsistent};
ghost use Rattle.build_meaning.specs.Cycle.{ShowsCycle, is_in_cycle};
ghost use Rattle.build_meaning.specs.Step.{waiting, step, after_all};
ghost use Rattle.build_meaning.specs.History.{IsHistory, AreOfOthers};
ghost use Rattle.build_meaning.specs.Orderly.{IsOrderly, RecordsStay, SameRuns};
ghost use Rattle.build_meaning.specs.Progress.{GoesOn, IsNeverStuck};

/// In every legal history, also where nodes have retired, each run is begun and finished at most
/// once, and each journal is closed.
pub fn every_history_is_orderly<P, I, A>()
    ensures { (w : World P I A) (events : List Event) (s : State P I A) → IsHistory w events s →
        IsOrderly events s }
{}

/// The record of a run stays, and is replayed alike, whatever comes after its Result.
pub fn records_stay<P, I, A>()
    ensures { (w : World P I A) (events more : List Event) (s t : State P I A) →
        IsHistory w events s → after_all w s more ≡ Some t → RecordsStay s t }
{}

/// In every legal history each record is what the body of its run makes by the records that were
/// finished before it.
pub fn every_table_is_consistent<P, I, A>()
    ensures { (w : World P I A) (events : List Event) (s : State P I A) → IsHistory w events s →
        IsConsistent w events s.table }
{}

/// In every legal history the end of a body, and each act that may follow, are new in the journal
/// of its request: so each of them is appended.
pub fn entries_are_new<P, I, A>()
    ensures { (w : World P I A) (events : List Event) (s : State P I A) → IsHistory w events s →
        (id node : ℕ) (q : RequestState P I A) →
        (x : Within P I A) (stop : Stop I A) → at s.requests id ≡ Some q → q.status ≡ assigned node
        (within x stop) →
        (has (end_of x.run) q.journal ≡ false) ×
        ((n : ℕ) → length x.so_far.segments ≤ n → has (act_of x.run n) q.journal ≡ false) }
{}

/// In every legal history what a request asks for is possible, or it is refused for its cause.
pub fn every_history_goes_on<P, I, A>()
    ensures { (w : World P I A) (events : List Event) (s : State P I A) → IsHistory w events s →
        GoesOn w s }
{}

/// A request that is with a node stays as it is through the events of others.
pub fn assigned_stays<P, I, A>()
    ensures { (w : World P I A) (s t : State P I A) (events : List Event) (id node : ℕ)
        (q : RequestState P I A) (place : Place P I A) →
        at s.requests id ≡ Some q → q.status ≡ assigned node place → AreOfOthers id events
        → after_all w s events ≡ Some t →
        at t.requests id ≡ Some q }
{}

/// A Retire changes no run: what was begun, finished and known stays, and a run stays begun by its
/// request. On the node to which the request is assigned then, it goes on where it stood.
pub fn retire_keeps_runs<P, I, A>()
    ensures runs { (w : World P I A) (s t : State P I A) (id node : ℕ) →
        step w s (Retire id node) ≡ Some t → SameRuns s t }
    ensures goes_on { (w : World P I A) (s t : State P I A) (id node other : ℕ)
        (q : RequestState P I A) (place : Place P I A) →
        step w s (Retire id node) ≡ Some t → at s.requests id ≡ Some q →
        q.status ≡ assigned node place →
        step w t (Assign id other)
        ≡ Some (with_request s id (with_status q (assigned other place))) }
{}

/// In every legal history some request may go on until the root is done.
pub fn never_stuck<P, I, A>()
    ensures { (w : World P I A) (events : List Event) (s : State P I A) → IsHistory w events s →
        IsNeverStuck s }
{}

/// In every legal history the test of a wait holds exactly where it would close a cycle that can be
/// shown, and only for a run that is begun and not finished.
pub fn cycles_are_shown<P, I, A>()
    ensures shown { (w : World P I A) (events : List Event) (s : State P I A) →
        IsHistory w events s → (id node : ℕ) (q : RequestState P I A) →
        (site : P) (run : RunId) (b : Body I A) (go : Record → Journal → Walk P I A) →
        at s.requests id ≡ Some q →
        q.status ≡ assigned node (walking (wants site run b go)) → is_begun run s.begun ≡ true →
        found s.table run ≡ None →
        Decides (is_in_cycle (waiting w s id q run b go) run)
        (ShowsCycle (waiting w s id q run b go) run) }
    ensures open { (w : World P I A) (events : List Event) (s : State P I A) →
        IsHistory w events s → (id : ℕ) (q : RequestState P I A)
        (run : RunId) (b : Body I A) (go : Record → Journal → Walk P I A) →
        is_in_cycle (waiting w s id q run b go) run ≡ true →
        (is_begun run s.begun ≡ true) × (found s.table run ≡ None) }
{}
