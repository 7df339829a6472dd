use msb_values::{List, Name};

/// What a walk asks next.
pub enum OrderAsk {
    /// Whether the Condition of this target holds.
    Condition(Name),
    /// The names of this target's DependsOnTargets.
    Depends(Name),
    /// That the body of this target be run.
    Body(Name),
    /// Nothing more: the walk is at its end, as failed or not.
    Done,
    /// Nothing more: a target is wanted inside its own visit, ahead of its body. The names go from
    /// its open visit to the innermost one, and back to it.
    Circle(List<Name>),
    /// Nothing more: no target has this name.
    Unknown(Name),
}

// A drop that is written out is proved here alone.
impl Drop for OrderAsk {
    fn drop(self) {
        match self {
            OrderAsk::Condition(_) => {}
            OrderAsk::Depends(_) => {}
            OrderAsk::Body(_) => {}
            OrderAsk::Done => {}
            OrderAsk::Circle(_) => {}
            OrderAsk::Unknown(_) => {}
        }
    }
}

/// What a walk is answered.
pub enum OrderAnswer {
    /// The answer with which a walk begins, before its first ask.
    First,
    /// Whether the Condition holds.
    Truth(bool),
    /// The names of DependsOnTargets.
    Names(List<Name>),
    /// The body has run.
    Ok,
    /// The body has failed; these are the targets of its OnError elements.
    Failed(List<Name>),
}

// A drop that is written out is proved here alone.
impl Drop for OrderAnswer {
    fn drop(self) {
        match self {
            OrderAnswer::First => {}
            OrderAnswer::Truth(_) => {}
            OrderAnswer::Names(_) => {}
            OrderAnswer::Ok => {}
            OrderAnswer::Failed(_) => {}
        }
    }
}
