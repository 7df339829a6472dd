ghost use Rattle.std.specs.Prelude.{◌≡◌};
ghost use Rattle.msb_paths.specs.Normal.{normalized};
ghost use Rattle.msb_glob.specs.Answer.{Gives, GivesPath};
ghost use Rattle.msb_values.specs.Escapes.{escaped};
ghost use Rattle.msb_glob.specs.Match.{fits_path};
ghost use Rattle.msb_glob.specs.Parsed.{cleared, parsed};

use crate::GlobFault;
use crate::entries::with_slashes;
use crate::fixed::{fixed_folder, fixed_text};
use crate::parts::{Part, fits_path};
use crate::reading::{has_stars_inside, normalize_escapes, parts_of};
use msb_paths::{PathFault, Word, normalize};
use msb_values::{List, Text, escape};
use std::alloc::Global;
use std::marker::Model;

/// A pattern with wildcards, made normal on a base folder.
pub struct Pattern {
    pub(crate) fixed: Text,
    pub(crate) folder: Word,
    pub(crate) parts: List<Part>,
}

// A drop that is written out is proved here alone.
impl Drop for Pattern {
    fn drop(self) {
        let Pattern {
            fixed: _,
            folder: _,
            parts: _,
        } = self;
    }
}

impl Model for Pattern {
    ghost use Rattle.msb_glob.specs.Parsed.{Reading};

    ghost Value = { Reading };

    ghost view = { λ p. record { fixed = p.fixed; folder = p.folder; parts = p.parts } };
}

impl Pattern {
    /// Reads an entry with wildcards on a base folder, which is normal, or empty for the root.
    ///
    /// Each escape in the text stands for its one character. `**` stands alone in its segment. What
    /// is read is made normal like any other path, its wildcards kept.
    pub fn parse(alloc: Global, base: &str, text: &str) -> Result<Pattern, GlobFault>
        ensures { Gives result (parsed base.now text.now) }
    {
        if has_stars_inside(text) {
            return Err(GlobFault::StarsInSegment);
        }
        let path = normal_pattern(alloc, base, text)?;
        let fixed = fixed_text(alloc, text)?;
        Ok(Pattern {
            fixed: with_slashes(alloc, fixed.as_str())?,
            folder: fixed_folder(alloc, base, fixed.as_str())?,
            parts: parts_of(alloc, path.as_str())?,
        })
    }

    /// Whether the pattern stands for the whole of a normal path. Takes no memory.
    pub fn matches(&self, path: &str) -> bool
        ensures { result ≡ fits_path self.now.parts path.now }
    {
        fits_path(self.parts.as_slice(), path)
    }
}

fn normal_pattern(alloc: Global, base: &str, text: &str) -> Result<Word, GlobFault>
    ensures { GivesPath result (normalized (escaped base.now) (cleared text.now)) }
{
    let start = escape(alloc, base)?;
    let whole = normalize_escapes(alloc, text)?;
    match normalize(alloc, start.as_str(), whole.as_str()) {
        Ok(path) => Ok(path),
        Err(PathFault::AboveRoot) => Err(GlobFault::Path(PathFault::AboveRoot)),
        Err(PathFault::Empty) => Err(GlobFault::Path(PathFault::Empty)),
        Err(PathFault::Memory) => Err(GlobFault::Memory),
    }
}
