ghost use Rattle.std.specs.Prelude.{◌≡◌, ◌++◌, IfOk, OnOk, OnErr};
ghost use Rattle.msb_values.specs.KeptTexts.{bytes_kept};

use crate::{Copied, NoMemory, Shared};
use std::alloc::{AllocError, Global};
use std::cmp::Ordering;
use std::hash::{Hash, Hasher};
use std::marker::Model;

/// A text, which contracts see as its UTF-8 bytes.
///
/// Texts are equal where their bytes are, and ordered by their bytes.
pub struct Text {
    kept: KeptText,
}

// A drop that is written out is proved here alone.
impl Drop for Text {
    fn drop(self) {
        let Text { kept: _ } = self;
    }
}

enum KeptText {
    Own(String),
    /// Copies share it.
    Shared(Shared<String>),
}

// A drop that is written out is proved here alone.
impl Drop for KeptText {
    fn drop(self) {
        match self {
            KeptText::Own(_) => {}
            KeptText::Shared(_) => {}
        }
    }
}

impl Model for Text {
    ghost use Rattle.std.specs.Prelude.{ℕ, List};
    ghost use Rattle.msb_values.specs.KeptTexts.{bytes_kept};

    ghost Value = { List ℕ };

    ghost view = { λ t. bytes_kept t.kept };
}

impl Text {
    pub fn of(alloc: Global, text: &str) -> Result<Text, NoMemory>
        ensures { IfOk result (λ t. t ≡ text.now) }
    {
        Ok(Text::from(String::from_str(alloc, text)?))
    }

    pub fn as_str(&self) -> &str
        ensures { result.now ≡ self.now }
    {
        match &self.kept {
            KeptText::Own(string) => string.as_str(),
            KeptText::Shared(string) => string.get().as_str(),
        }
    }

    /// Adds a text at the end; where there is no memory, the text stays as it was.
    pub fn push_str(&mut self, more: &str) -> Result<(), NoMemory>
        ensures ok { OnOk result (self.new ≡ self.old ++ more.now) }
        ensures err { OnErr result (self.new ≡ self.old) }
    {
        match &mut self.kept {
            KeptText::Own(string) => Ok(string.push_str(more)?),
            KeptText::Shared(string) => {
                let mut own = string.get().clone()?;
                own.push_str(more)?;
                *self = Text::from(own);
                Ok(())
            }
        }
    }

    /// The text, which its copies share from then on.
    pub(crate) fn share(self, alloc: Global) -> Result<Text, NoMemory>
        ensures { IfOk result (λ t. t ≡ self) }
    {
        let Text { kept } = self;
        Ok(Text {
            kept: kept.share(alloc)?,
        })
    }
}

impl KeptText {
    fn share(self, alloc: Global) -> Result<KeptText, NoMemory>
        ensures { IfOk result (λ kept. bytes_kept kept ≡ bytes_kept self) }
    {
        match self {
            KeptText::Own(string) => Ok(KeptText::Shared(Shared::new(alloc, string)?)),
            KeptText::Shared(string) => Ok(KeptText::Shared(string)),
        }
    }
}

impl From<String> for Text {
    ghost use Rattle.std.specs.Prelude.{string_bytes};

    ghost from_gives = { λ s t. t ≡ string_bytes s };

    fn from(string: String) -> Text {
        Text {
            kept: KeptText::Own(string),
        }
    }
}

impl Copied for Text {
    fn copy(&self) -> Result<Text, NoMemory> {
        match &self.kept {
            KeptText::Own(string) => Ok(Text::from(string.clone()?)),
            KeptText::Shared(string) => Ok(Text {
                kept: KeptText::Shared(string.copy()?),
            }),
        }
    }
}

impl Clone for Text {
    ghost use Rattle.std.specs.Prelude.{◌≡◌};

    ghost is_clone = { λ a b. b ≡ a };

    fn clone(&self) -> Result<Text, AllocError> {
        match self.copy() {
            Ok(copied) => Ok(copied),
            Err(NoMemory) => Err(AllocError),
        }
    }
}

impl PartialEq for Text {
    ghost use Rattle.std.specs.Str.{bytes_eq};
    ghost use Rattle.std.proofs.Common.{rules};
    ghost use Rattle.std.specs.Cmp.Rules.{comparing};

    ghost eq = { bytes_eq };

    ghost laws = { Prim.search (comparing, rules) };

    fn eq(&self, other: &Text) -> bool {
        self.as_str() == other.as_str()
    }
}

impl Eq for Text {
    ghost use Rattle.std.proofs.Common.{rules};
    ghost use Rattle.std.specs.Cmp.Rules.{comparing};

    ghost laws = { Prim.search (comparing, rules) };
}

impl PartialOrd for Text {
    ghost use Rattle.std.specs.Prelude.{Some};
    ghost use Rattle.std.specs.Ordering.{nat_cmp};
    ghost use Rattle.std.specs.Cmp.Lexicographic.{slice_cmp};
    ghost use Rattle.std.proofs.Common.{rules};
    ghost use Rattle.std.specs.Cmp.Rules.{comparing};

    ghost partial_cmp = { λ a b. Some (slice_cmp nat_cmp a b) };

    ghost laws = { Prim.search (comparing, rules) };

    fn partial_cmp(&self, other: &Text) -> Option<Ordering> {
        Some(self.as_str().cmp(other.as_str()))
    }
}

impl Ord for Text {
    ghost use Rattle.std.specs.Ordering.{nat_cmp};
    ghost use Rattle.std.specs.Cmp.Lexicographic.{slice_cmp};
    ghost use Rattle.std.proofs.Common.{rules};
    ghost use Rattle.std.specs.Cmp.Rules.{comparing};

    ghost cmp = { slice_cmp nat_cmp };

    ghost total = { Prim.search (comparing, rules) };

    ghost matches_partial_cmp = { Prim.search (comparing, rules) };

    ghost matches_eq = { Prim.search (comparing, rules) };

    fn cmp(&self, other: &Text) -> Ordering {
        self.as_str().cmp(other.as_str())
    }
}

impl Hash for Text {
    ghost use Rattle.std.specs.Hash as fed;
    ghost use Rattle.std.proofs.Common.{rules};
    ghost use Rattle.std.specs.Cmp.Rules.{hashing};

    ghost hash_input = { fed.str };

    ghost respects_eq = { Prim.search (hashing, rules) };

    fn hash<H: Hasher>(&self, state: &mut H) {
        self.as_str().hash(state);
    }
}
