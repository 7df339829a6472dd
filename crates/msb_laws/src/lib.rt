//! Definitions that several layers share and no type owns, and their laws.
//!
//! It has no code to run: each function here is a law, and its contract is what is proved.
#![tactic(auto)]

ghost use Rattle.std.specs.Prelude.{◌≡◌, Option};
ghost use Rattle.msb_laws.specs.Asking.{
  Asking,
  gives,
  answered_by,
  asked_along,
  followed_by,
  and_then,
};

/// A machine that answers one tree and then what follows from its end answers the whole.
pub fn answering_composes<Q, A, R, T, S>()
    ensures { (answer : Q → S → Option (A × S)) (tree : Asking Q A R) (next : R → Asking Q A T)
        (s : S) →
        answered_by answer (followed_by tree next) s
        ≡ and_then (answered_by answer tree s) (λ end. answered_by answer (next end.0) end.1) }
{}

/// A tree that is followed by its own end is that tree.
pub fn following_ends<Q, A, R>()
    ensures { (tree : Asking Q A R) → followed_by tree gives ≡ tree }
{}

/// What follows may be grouped either way.
pub fn following_groups<Q, A, R, T, U>()
    ensures { (tree : Asking Q A R) (next : R → Asking Q A T) (last : T → Asking Q A U) →
        followed_by (followed_by tree next) last
        ≡ followed_by tree (λ end. followed_by (next end) last) }
{}
