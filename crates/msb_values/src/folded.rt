ghost use Rattle.std.specs.Prelude.{◌≡◌, IfOk};
ghost use Rattle.msb_values.specs.Folded.{folded_bytes, FoldsAsCompared};

use crate::{Copied, NoMemory, Text};
use caseless::default_case_fold_str;
use std::alloc::{AllocError, Global};
use std::cmp::Ordering;
use std::hash::{Hash, Hasher};
use std::marker::Model;

/// A text in Unicode's default case folding, for texts that are compared without case many times.
/// (MSBuild conditions.)
///
/// Two are equal where [`same_text`](crate::same_text) holds of the texts; they are ordered by
/// their bytes.
pub struct Folded {
    text: Text,
}

// A drop that is written out is proved here alone.
impl Drop for Folded {
    fn drop(self) {
        let Folded { text: _ } = self;
    }
}

impl Model for Folded {
    ghost use Rattle.std.specs.Prelude.{ℕ, List};

    ghost Value = { List ℕ };

    ghost view = { λ f. f.text };
}

impl Folded {
    /// Folds a text.
    pub fn of(alloc: Global, text: &str) -> Result<Folded, NoMemory>
        ensures value { IfOk result (λ f. f ≡ folded_bytes text.now) }
        ensures compared { FoldsAsCompared }
    {
        Ok(Folded {
            text: Text::from(default_case_fold_str(alloc, text)?),
        })
    }

    /// The folded text.
    pub fn as_str(&self) -> &str
        ensures { result.now ≡ self.now }
    {
        self.text.as_str()
    }
}

impl Copied for Folded {
    fn copy(&self) -> Result<Folded, NoMemory> {
        Ok(self.clone()?)
    }
}

impl Clone for Folded {
    ghost use Rattle.std.specs.Prelude.{◌≡◌};

    ghost is_clone = { λ a b. b ≡ a };

    fn clone(&self) -> Result<Folded, AllocError> {
        Ok(Folded {
            text: self.text.clone()?,
        })
    }
}

impl PartialEq for Folded {
    ghost use Rattle.std.specs.Str.{bytes_eq};
    ghost use Rattle.std.proofs.Common.{rules};
    ghost use Rattle.std.specs.Cmp.Rules.{comparing};

    ghost eq = { bytes_eq };

    ghost laws = { Prim.search (comparing, rules) };

    fn eq(&self, other: &Folded) -> bool {
        self.text == other.text
    }
}

impl Eq for Folded {
    ghost use Rattle.std.proofs.Common.{rules};
    ghost use Rattle.std.specs.Cmp.Rules.{comparing};

    ghost laws = { Prim.search (comparing, rules) };
}

impl PartialOrd for Folded {
    ghost use Rattle.std.specs.Prelude.{Some};
    ghost use Rattle.std.specs.Ordering.{nat_cmp};
    ghost use Rattle.std.specs.Cmp.Lexicographic.{slice_cmp};
    ghost use Rattle.std.proofs.Common.{rules};
    ghost use Rattle.std.specs.Cmp.Rules.{comparing};

    ghost partial_cmp = { λ a b. Some (slice_cmp nat_cmp a b) };

    ghost laws = { Prim.search (comparing, rules) };

    fn partial_cmp(&self, other: &Folded) -> Option<Ordering> {
        Some(self.text.cmp(&other.text))
    }
}

impl Ord for Folded {
    ghost use Rattle.std.specs.Ordering.{nat_cmp};
    ghost use Rattle.std.specs.Cmp.Lexicographic.{slice_cmp};
    ghost use Rattle.std.proofs.Common.{rules};
    ghost use Rattle.std.specs.Cmp.Rules.{comparing};

    ghost cmp = { slice_cmp nat_cmp };

    ghost total = { Prim.search (comparing, rules) };

    ghost matches_partial_cmp = { Prim.search (comparing, rules) };

    ghost matches_eq = { Prim.search (comparing, rules) };

    fn cmp(&self, other: &Folded) -> Ordering {
        self.text.cmp(&other.text)
    }
}

impl Hash for Folded {
    ghost use Rattle.std.specs.Hash as fed;
    ghost use Rattle.std.proofs.Common.{rules};
    ghost use Rattle.std.specs.Cmp.Rules.{hashing};

    ghost hash_input = { fed.str };

    ghost respects_eq = { Prim.search (hashing, rules) };

    fn hash<H: Hasher>(&self, state: &mut H) {
        self.text.hash(state);
    }
}
