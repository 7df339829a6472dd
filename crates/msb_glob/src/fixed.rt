ghost use Rattle.std.specs.Prelude.{◌≡◌, ◌==◌, ◌<◌, IfOk};
ghost use Rattle.std.specs.List.{before_first};
ghost use Rattle.msb_paths.specs.Normal.{normalized};
ghost use Rattle.msb_values.specs.Escapes.{unescaped};
ghost use Rattle.msb_glob.specs.Parsed.{fixed_text, below};

use crate::errors::OutOfMemory;
use msb_paths::{PathFault, Word, normalize, parts};
use msb_values::unescape;
use std::alloc::Global;

/// The folders ahead of the first segment with a wildcard, as written.
pub(crate) fn fixed_text(alloc: Global, text: &str) -> Result<Word, OutOfMemory>
    ensures { IfOk result (λ fixed. fixed ≡ fixed_text text.now) }
{
    let split = parts(alloc, ahead_of(ahead_of(text, '*'), '?'))?;
    let (relative_dir, _, _) = split.parts();
    Ok(relative_dir)
}

fn ahead_of(text: &str, wildcard: char) -> &str
    requires { wildcard < 128 }
    ensures { result.now ≡ before_first (λ b. b == wildcard) text.now }
{
    match text.split_once(wildcard) {
        Some((front, _)) => front,
        None => text,
    }
}

/// What the paths below the folder that the fixed part leads to begin with: nothing for the root.
pub(crate) fn fixed_folder(alloc: Global, base: &str, fixed: &str) -> Result<Word, OutOfMemory>
    ensures { IfOk result (λ front. front ≡ below (normalized base.now (unescaped fixed.now))) }
{
    let plain = unescape(alloc, fixed)?;
    match normalize(alloc, base, plain.as_str()) {
        Ok(mut folder) => {
            folder.push_str("/")?;
            Ok(folder)
        }
        Err(PathFault::Memory) => Err(OutOfMemory),
        Err(_) => Ok(Word::of(alloc, "")?),
    }
}
