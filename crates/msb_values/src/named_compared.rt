//! Equality, order and hashes of names with values: entry by entry. They take no memory.

use crate::Named;
use std::cmp::Ordering;
use std::hash::{Hash, Hasher};

impl<T: PartialEq> PartialEq for Named<T> {
    ghost use Rattle.std.specs.Prelude.{◌&&◌};
    ghost use Rattle.std.specs.Cmp.{on_per, and_per, partial_equiv_from_equiv};
    ghost use Rattle.std.specs.Cmp.Lexicographic.{pointwise, lists_per, nat_list_eq_equiv};
    ghost use Rattle.std.specs.Str.{bytes_eq};

    ghost eq = { pointwise (λ p q. bytes_eq p.0 q.0 && T.eq p.1 q.1) };

    ghost laws = { lists_per
        (and_per (on_per (λ p. p.0) (partial_equiv_from_equiv nat_list_eq_equiv))
        (on_per (λ p. p.1) T.laws)) };

    fn eq(&self, other: &Named<T>) -> bool {
        self.entries().map == other.entries().map
    }
}

impl<T: Eq> Eq for Named<T> {
    ghost use Rattle.std.specs.Cmp.{on_equiv, and_equiv};
    ghost use Rattle.std.specs.Cmp.Lexicographic.{lists_equiv, nat_list_eq_equiv};

    ghost laws = { lists_equiv
        (and_equiv (on_equiv (λ p. p.0) nat_list_eq_equiv) (on_equiv (λ p. p.1) T.Eq.laws)) };
}

impl<T: PartialOrd> PartialOrd for Named<T> {
    ghost use Rattle.std.specs.Prelude.{Some};
    ghost use Rattle.std.specs.Ordering.{nat_cmp, partial_ordering_then};
    ghost use Rattle.std.specs.Cmp.{on_po, then_po};
    ghost use Rattle.std.specs.Cmp.Lexicographic.{slice_cmp, slice_partial_cmp, lists_po, texts_po};

    ghost partial_cmp = { slice_partial_cmp
        (λ p q. partial_ordering_then (Some (slice_cmp nat_cmp p.0 q.0)) (T.partial_cmp p.1 q.1)) };

    ghost laws = { lists_po
        (then_po (on_po (λ p. p.0) texts_po) (on_po (λ p. p.1) T.PartialOrd.laws)) };

    fn partial_cmp(&self, other: &Named<T>) -> Option<Ordering> {
        self.entries().map.partial_cmp(&other.entries().map)
    }
}

impl<T: Ord> Ord for Named<T> {
    ghost use Rattle.std.specs.Ordering.{nat_cmp, ordering_then};
    ghost use Rattle.std.specs.Cmp.{on_total, then_total, then_agrees, both_tied};
    ghost use Rattle.std.specs.Cmp.Lexicographic.{
      slice_cmp,
      lists_total,
      lists_agrees,
      lists_ties,
      nat_list_cmp_total,
      texts_ties,
    };
    ghost use Rattle.std.proofs.Common.{refl};

    ghost cmp = { slice_cmp (λ p q. ordering_then (slice_cmp nat_cmp p.0 q.0) (T.cmp p.1 q.1)) };

    ghost total = { lists_total
        (then_total (on_total (λ p. p.0) nat_list_cmp_total) (on_total (λ p. p.1) T.total)) };

    ghost matches_partial_cmp = { lists_agrees
        (then_agrees (λ p q. refl) (λ p q. T.matches_partial_cmp p.1 q.1)) };

    ghost matches_eq = { let T' = T.cmp in
        lists_ties (λ p q. ordering_then (slice_cmp nat_cmp p.0 q.0) (T' p.1 q.1))
        (λ p q. both_tied _ _ (slice_cmp nat_cmp p.0 q.0) (T' p.1 q.1) (texts_ties p.0 q.0)
        (T.matches_eq p.1 q.1)) };

    fn cmp(&self, other: &Named<T>) -> Ordering {
        self.entries().map.cmp(&other.entries().map)
    }
}

impl<T: Hash> Hash for Named<T> {
    ghost use Rattle.std.specs.Prelude.{◌++◌};
    ghost use Rattle.std.specs.Hash as fed;
    ghost use Rattle.std.specs.Hash.{same_Alike, on_Alike, and-Alike, items_Alike};
    ghost use Rattle.std.specs.Cmp.Lexicographic.{bytes_decides};
    ghost use Rattle.std.specs.Str.{bytes_eq};

    ghost hash_input = { fed.slice (λ p. fed.str p.0 ++ T.hash_input p.1) };

    ghost respects_eq = { (items_Alike
        (and-Alike
        (on_Alike (λ p. p.0) {E = bytes_eq} {F = fed.str} (same_Alike fed.str bytes_decides))
        (on_Alike (λ p. p.1) {F = T.hash_input} (record { fed = T.respects_eq })))).fed };

    fn hash<H: Hasher>(&self, state: &mut H) {
        self.entries().map.hash(state);
    }
}
