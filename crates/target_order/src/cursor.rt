use crate::visits::Step;
use msb_values::Name;

/// A place in the list of the innermost of so many open visits, or at depth 0 in the request's
/// list.
#[derive(Clone, Copy)]
pub struct Cursor<'a> {
    pub depth: usize,
    pub step: Step,
    pub list: &'a [Name],
    pub passed: usize,
}

/// How a wanted target stands.
#[derive(Clone, Copy)]
pub enum Stand {
    /// No target has the name.
    Unknown,
    /// It has run, or its open visit is past its body.
    Settled,
    /// The visit at this depth is its own, and not past its body.
    Circle(usize),
    /// It is to be visited; this is its number.
    Fresh(usize),
}

/// Why a search stops at its cursor.
#[derive(Clone, Copy)]
pub enum Stop {
    /// The target with this number is to be visited.
    Visit(usize),
    /// The body of the innermost visit's target is to be run.
    Body,
    /// The request's list is at its end.
    Finished,
    /// The OnError targets of a failed body are at their end.
    Stopped,
    /// The visit at this depth is that of the wanted target.
    Circle(usize),
    /// No target has the wanted name.
    Unknown,
}

/// One turn of a search.
#[derive(Clone, Copy)]
pub enum Turn<'a> {
    On(Cursor<'a>),
    Stop(Stop),
}
