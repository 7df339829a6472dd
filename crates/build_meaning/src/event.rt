ghost use Rattle.std.specs.Prelude.{◌≡◌};
ghost use Rattle.build_meaning.specs.Step.{whose};

use msb_values::List;
use result_cache::{RequestKey, RunId};

/// How the claim of a run is answered.
#[derive(Drop)]
pub enum ClaimKind {
    /// Nobody has begun the run: this request begins it.
    Go,
    /// The run is finished: its record is used.
    Use,
    /// Another request has begun the run: its record is waited for.
    Wait,
}

/// One step of a scheduler. The first number is that of the request; the root is 0.
pub enum Event {
    /// The request, which is ready, goes to the node of the second number.
    Assign(u64, u32),
    /// The request wants a run, and is answered.
    Claim(u64, RunId, ClaimKind),
    /// The body that the request is in calls these requests at once.
    Request(u64, List<RequestKey>),
    /// The body that the request is in has come to its end: the run is finished.
    Result(u64, RunId),
    /// The request is over.
    Done(u64),
    /// The node of the second number has no memory for the request, which is ready again. It takes
    /// no other.
    Retire(u64, u32),
}

// A drop that is written out is proved here alone.
impl Drop for Event {
    fn drop(self) {
        match self {
            Event::Assign(_, _) => {}
            Event::Request(_, _) => {}
            Event::Result(_, _) => {}
            Event::Claim(_, _, _) => {}
            Event::Done(_) => {}
            Event::Retire(_, _) => {}
        }
    }
}

impl Event {
    /// The number of its request.
    pub fn request(&self) -> u64
        ensures { result ≡ whose self.now }
    {
        match self {
            Event::Assign(id, _) => *id,
            Event::Claim(id, _, _) => *id,
            Event::Request(id, _) => *id,
            Event::Result(id, _) => *id,
            Event::Done(id) => *id,
            Event::Retire(id, _) => *id,
        }
    }
}
