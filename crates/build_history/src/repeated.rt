//! What the table tells of requests. (MSBuild task: a target is run once.)

ghost use Rattle.std.specs.Prelude.{◌≡◌, ◌∷◌, ℕ, List, None, Some};
ghost use Rattle.result_cache.specs.declared.request.RequestKey.{RequestKey};
ghost use Rattle.result_cache.specs.declared.request.RequestResult.{RequestResult};
ghost use Rattle.result_cache.specs.Journal.{Journal};
ghost use Rattle.result_cache.specs.Table.{FinishedRun, Records, found};
ghost use Rattle.build_meaning.specs.declared.event.Event.{Event};
ghost use Rattle.build_meaning.specs.Lists.{at};
ghost use Rattle.build_meaning.specs.World.{World};
ghost use Rattle.build_meaning.specs.Walk.{Walk};
ghost use Rattle.build_meaning.specs.ByTable.{request_by, walk_by};
ghost use Rattle.build_meaning.specs.State.{walking, assigned, RequestState, State};
ghost use Rattle.build_meaning.specs.History.{IsHistory};
ghost use Rattle.build_history.specs.Began.{AwaitsCall};
ghost use Rattle.build_history.specs.Repeated.{EndsAs, EndsByRecords};

/// In every legal history a call gives in the end what the table tells of a request of its key that
/// begins with its caller's journal: so two calls with one key whose callers have one journal give
/// one result, and leave one journal. (MSBuild task: a target is run once.)
pub fn calls_go_by_the_table<P, I, A>()
    ensures { (w : World P I A) (events : List Event) (s : State P I A) → IsHistory w events s →
        (caller id : ℕ) (q call : RequestState P I A) → at s.requests caller ≡ Some q →
        AwaitsCall id q.status → at s.requests id ≡ Some call →
        EndsAs w s.table q.journal call.origin.key call.journal call.runs call.status }
{}

/// A request with a node, between two runs, of which the table tells the end, comes there by using
/// records, and it changes nothing else.
pub fn requests_end_by_the_table<P, I, A>()
    ensures { (w : World P I A) (s : State P I A) (id node : ℕ) (q : RequestState P I A)
        (x : Walk P I A) (result : RequestResult) (last : Journal) →
        at s.requests id ≡ Some q → q.status ≡ assigned node (walking x) →
        walk_by w s.table x q.journal q.runs ≡ Some (result, last) →
        EndsByRecords w s id node q.origin q.runs result last }
{}

/// What the table tells of a request stays, whatever runs are finished later.
pub fn what_the_table_tells_stays<P, I, A>()
    ensures { (w : World P I A) (table : Records) (f : FinishedRun) → found table f.run ≡ None →
        (first : Journal) (key : RequestKey) (result : RequestResult) (last : Journal) →
        request_by w table first key ≡ Some (result, last) →
        request_by w (f ∷ table) first key ≡ Some (result, last) }
{}
