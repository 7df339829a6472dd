use crate::{List, Word};

/// A text as its parts, in order.
pub struct Expr {
    pub parts: Parts,
}

// A drop that is written out is proved here alone.
impl Drop for Expr {
    fn drop(self) {
        let Expr { parts: _ } = self;
    }
}

/// A part of a text. Names keep their case; two plain parts never stand side by side.
pub enum Part {
    /// Text without a reference, never empty.
    Plain(Word),
    /// `$(Name)`
    Prop(Word),
    /// `$(Name.Function('argument'))`, or `$([MSBuild]::Function('argument'))`, with at least one
    /// call
    Func(Option<Word>, Calls),
    /// `%(Name)` or `%(Type.Name)`
    Meta(Option<Word>, Word),
    /// `@(Type steps, 'separator')`
    Items(Word, Steps, Option<Pieces>),
}

// A drop that is written out is proved here alone.
impl Drop for Part {
    fn drop(self) {
        match self {
            Part::Plain(_) => {}
            Part::Prop(_) => {}
            Part::Func(_, _) => {}
            Part::Meta(_, _) => {}
            Part::Items(_, _, _) => {}
        }
    }
}

/// The call of a property function, with its arguments, or without parentheses.
pub struct Call {
    pub name: Word,
    pub args: Option<Args>,
}

// A drop that is written out is proved here alone.
impl Drop for Call {
    fn drop(self) {
        let Call { name: _, args: _ } = self;
    }
}

/// What is done to the items of a reference, one step after another.
pub enum Step {
    /// `->'transform'`
    Transform(Pieces),
    /// `->Function('argument', 'argument')`
    Call(Word, Args),
}

// A drop that is written out is proved here alone.
impl Drop for Step {
    fn drop(self) {
        match self {
            Step::Transform(_) => {}
            Step::Call(_, _) => {}
        }
    }
}

/// A part of a text between quotes, where no `@(..)` is a reference, and `%(Name)` is one in a
/// transform alone.
pub enum Piece {
    /// Text without a reference, never empty.
    Plain(Word),
    /// `$(Name)`
    Prop(Word),
    /// `%(Name)`
    Meta(Word),
}

// A drop that is written out is proved here alone.
impl Drop for Piece {
    fn drop(self) {
        match self {
            Piece::Plain(_) => {}
            Piece::Prop(_) => {}
            Piece::Meta(_) => {}
        }
    }
}

pub type Parts = List<Part>;

pub type Steps = List<Step>;

pub type Pieces = List<Piece>;

pub type Args = List<Pieces>;

/// Calls, each of what the one before it gives.
pub type Calls = List<Call>;
