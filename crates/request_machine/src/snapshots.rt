ghost use Rattle.std.specs.Prelude.{◌≡◌, List, [], ◌∷◌, ◌++◌};
ghost use Rattle.std.specs.Borrow.{ftrue};

use std::marker::{Model, PhantomData};

/// Pairs of values as they were at some moments, in order, which contracts alone read as `items`.
/// It takes no memory, and its calls do nothing at run time.
#[derive(Drop)]
pub struct Snapshots<A, B> {
    of: PhantomData<(A, B)>,
    pub ghost items: { List (A × B) },
}

impl<A, B> Model for Snapshots<A, B> {
    ghost also_owns = { λ _. ftrue };
}

// It owns nothing.
unsafe impl<A: Send, B: Send> Send for Snapshots<A, B> {}

impl<A, B> Snapshots<A, B> {
    /// Nothing was noted yet.
    pub fn new() -> Snapshots<A, B>
        ensures { result.items ≡ [] }
    {
        Snapshots { of: PhantomData }
    }

    /// The same, and behind it two values as they are now.
    pub fn and(&self, first: &A, second: &B) -> Snapshots<A, B>
        ensures { result.items ≡ self.now.items ++ (first.now, second.now) ∷ [] }
    {
        Snapshots { of: PhantomData }
    }
}
