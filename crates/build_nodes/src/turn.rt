ghost use Rattle.std.specs.Prelude.{◌≡◌};
ghost use Rattle.build_nodes.specs.Turns.{number_of};

use build_scheduler::{Answer, Ask, Released};

/// The walk of a request that a node has, and its next answer, or its last one.
#[derive(Drop)]
pub(crate) struct Held<W> {
    pub id: u64,
    pub walk: W,
    pub answer: Answer,
}

/// The walk of a request that a node has advanced by an answer.
#[derive(Drop)]
pub(crate) struct Asking<W> {
    pub id: u64,
    pub walk: W,
    pub answer: Answer,
    pub ask: Ask,
    /// The number of events when the node had the core last.
    pub number: usize,
}

/// The walk of a request that a node is to advance.
#[derive(Drop)]
pub(crate) struct Answered<W> {
    pub id: u64,
    pub walk: W,
    pub answer: Answer,
    /// The number of events when the node had the core last.
    pub number: usize,
}

/// What a node brings to its turn.
#[derive(Drop)]
pub(crate) enum Brought<W> {
    /// No request, and the number of events when the node had the core last.
    Nothing(usize),
    Walk(Asking<W>),
    /// There was no memory to advance the walk.
    Refused(Answered<W>),
}

impl<W> Brought<W> {
    /// The number of events when the node had the core last.
    pub fn number(&self) -> usize
        ensures { result ≡ number_of self.now }
    {
        match self {
            Brought::Nothing(number) => *number,
            Brought::Walk(asking) => asking.number,
            Brought::Refused(answered) => answered.number,
        }
    }
}

/// What a node does after its turn, where no end is told and it has not retired.
#[derive(Drop)]
pub(crate) enum Next<W> {
    /// Another node had the core: it tries again.
    Missed(Brought<W>),
    Advance(Answered<W>),
    /// No request is ready: it sleeps while the history has this number.
    Park(usize),
}

/// What a turn of a node comes to.
#[derive(Drop)]
pub(crate) struct Turn<W> {
    /// There is nothing to do next once the end is told, or the node has retired.
    pub next: Option<Next<W>>,
    /// Whether another request is ready.
    pub more: bool,
}

/// What a turn discards. It is dropped once the core is given back: a walk has much to drop.
#[derive(Drop)]
pub(crate) struct Discarded<W> {
    /// The walk of a request that is over, or has moved.
    pub walk: Option<W>,
    /// An answer that no walk goes back to.
    pub answer: Option<Answer>,
    /// What the core holds no longer.
    pub released: Option<Released<W>>,
}

impl<W: Drop> Discarded<W> {
    pub fn new() -> Discarded<W> {
        Discarded {
            walk: None,
            answer: None,
            released: None,
        }
    }

    /// Keeps a walk and its last answer until they are dropped.
    pub fn put(&mut self, walk: W, answer: Answer) {
        self.walk = Some(walk);
        self.answer = Some(answer);
    }
}
