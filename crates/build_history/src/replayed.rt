//! The journal of a request is its first one with its runs replayed by the table.

ghost use Rattle.std.specs.Prelude.{◌≡◌, [], ℕ, List, Some};
ghost use Rattle.result_cache.specs.declared.request.RequestResult.{RequestResult};
ghost use Rattle.build_meaning.specs.declared.event.Event.{Event};
ghost use Rattle.build_meaning.specs.Lists.{at};
ghost use Rattle.result_cache.specs.Journal.{Journal};
ghost use Rattle.result_cache.specs.Replay.{replay_all};
ghost use Rattle.build_meaning.specs.World.{World};
ghost use Rattle.build_meaning.specs.State.{done, RequestState, State};
ghost use Rattle.build_meaning.specs.History.{IsHistory, EndsWith};
ghost use Rattle.build_history.specs.Began.{AwaitsCall, BeganWith, IsInNoBody};

/// In every legal history the journal of a root that is done is got from its result and the table
/// alone: the runs of the result, replayed in order by the table, give it from nothing.
pub fn root_is_replayed<P, I, A>()
    ensures { (w : World P I A) (events : List Event) (s : State P I A) → IsHistory w events s →
        (result : RequestResult) (journal : Journal) →
        EndsWith s result journal → replay_all s.table result.runs [] ≡ Some journal }
{}

/// In every legal history each request began with the journal that its caller had then, the root
/// with none; and where it is in no body, its runs, replayed in order by the table, give its
/// journal from that one.
pub fn requests_are_replayed<P, I, A>()
    ensures { (w : World P I A) (events : List Event) (s : State P I A) → IsHistory w events s →
        (id : ℕ) (q : RequestState P I A) →
        at s.requests id ≡ Some q → (base : Journal) × BeganWith w events id q.origin base ×
        (IsInNoBody q.status → replay_all s.table q.runs base ≡ Some q.journal) }
{}

/// In every legal history a request keeps its journal until all of its calls are done: the runs of
/// each call that is in no body, replayed in order by the table, take this journal to that of the
/// call. (MSBuild task.)
pub fn calls_are_replayed<P, I, A>()
    ensures { (w : World P I A) (events : List Event) (s : State P I A) → IsHistory w events s →
        (caller id : ℕ) (q call : RequestState P I A) → at s.requests caller ≡ Some q →
        AwaitsCall id q.status → at s.requests id ≡ Some call → IsInNoBody call.status →
        replay_all s.table call.runs q.journal ≡ Some call.journal }
{}

/// In every legal history the result of a request that is done has all runs that the request made
/// or used.
pub fn results_have_the_runs<P, I, A>()
    ensures { (w : World P I A) (events : List Event) (s : State P I A) → IsHistory w events s →
        (id : ℕ) (q : RequestState P I A) →
        at s.requests id ≡ Some q → (result : RequestResult) → q.status ≡ done result
        → result.runs ≡ q.runs }
{}
