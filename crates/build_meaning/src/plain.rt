//! Requests that ask alike, whatever their journals are. (MSBuild conditions, Exists.)

ghost use Rattle.std.specs.Prelude.{◌≡◌, List, Some};
ghost use Rattle.result_cache.specs.declared.request.RequestKey.{RequestKey};
ghost use Rattle.result_cache.specs.declared.request.RequestResult.{RequestResult};
ghost use Rattle.result_cache.specs.Journal.{Journal};
ghost use Rattle.build_meaning.specs.declared.event.Event.{Event};
ghost use Rattle.build_meaning.specs.World.{World};
ghost use Rattle.build_meaning.specs.ByTable.{request_by};
ghost use Rattle.build_meaning.specs.State.{State};
ghost use Rattle.build_meaning.specs.History.{IsHistory};
ghost use Rattle.build_meaning.specs.Plain.{IsPlain};

/// By the table of a legal history two requests of a plain key give one result, whatever the
/// journals are with which they begin: where the one comes to its end by the records that are
/// there, so does the other.
pub fn plain_requests_give_alike<P, I, A>()
    ensures { (w : World P I A) (events : List Event) (s : State P I A) → IsHistory w events s →
        (key : RequestKey) → IsPlain w key → (j k last : Journal) (result : RequestResult) →
        request_by w s.table j key ≡ Some (result, last) →
        (other : Journal) × (request_by w s.table k key ≡ Some (result, other)) }
{}
