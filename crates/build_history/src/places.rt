//! Each request of a history stands where the meaning of its world passes. (MSBuild task; Target
//! build order.)

ghost use Rattle.std.specs.Prelude.{◌≡◌, ◌+◌, ℕ, suc, List, length, Some};
ghost use Rattle.result_cache.specs.declared.request.RequestResult.{RequestResult};
ghost use Rattle.result_cache.specs.declared.run.RunId.{RunId};
ghost use Rattle.result_cache.specs.Journal.{Journal};
ghost use Rattle.build_meaning.specs.declared.event.Event.{Event};
ghost use Rattle.build_meaning.specs.Lists.{at};
ghost use Rattle.build_meaning.specs.World.{World};
ghost use Rattle.build_meaning.specs.Meaning.{Given, deepest, request, walk};
ghost use Rattle.build_meaning.specs.Demand.{IsWhole, IsSteady};
ghost use Rattle.build_meaning.specs.State.{walking, RequestState, State};
ghost use Rattle.build_meaning.specs.Walk.{Walk};
ghost use Rattle.build_meaning.specs.History.{IsHistory};
ghost use Rattle.build_history.specs.Began.{BeganWith};
ghost use Rattle.build_history.specs.Places.{Called, Passes, PassesAt};

/// What the recursion of the meaning gives from a place that it passes on is what it gives for the
/// whole request there: a request that the meaning passes at its end has there the result and the
/// journal that the recursion gives for it.
pub fn places_are_the_meanings<P, I, A>()
    ensures { (w : World P I A) (q : Called) (runs : List RunId) (j : Journal) (x : Walk P I A) →
        Passes w q runs j (walking x) → (depth : ℕ) → depth + suc (length q.path) ≡ deepest →
        (rest : Given P I RequestResult) → walk w (request w depth) q.path x j runs ≡ Some rest →
        (whole : Given P I RequestResult) × (request w (suc depth) q.path q.base q.key ≡ Some whole)
        × (whole.value ≡ rest.value) × (whole.journal ≡ rest.journal) }
{}

/// In every legal history of a whole and steady world each request is at a place of the meaning: it
/// began with a journal of its caller, and has there the journal that the meaning has at that
/// place. So it has the meaning's scope there, too.
pub fn journals_are_meant<P, I, A>()
    ensures { (w : World P I A) (out : Given P I RequestResult) → IsWhole w out →
        IsSteady out.demand →
        (events : List Event) (s : State P I A) → IsHistory w events s →
        (id : ℕ) (q : RequestState P I A) →
        at s.requests id ≡ Some q → (base : Journal) × BeganWith w events id q.origin base ×
        PassesAt w (record { key = q.origin.key; path = q.origin.path; base = base }) q.runs
        q.journal q.status }
{}
