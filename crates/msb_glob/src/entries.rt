ghost use Rattle.std.specs.Prelude.{◌≡◌, IfOk};
ghost use Rattle.msb_glob.specs.Parsed.{is_pattern, with_slashes};

use crate::splits::split_first;
use msb_values::{NoMemory, Text};
use std::alloc::Global;

/// Whether an entry of a list is a pattern: it has `*` or `?` that is not escaped. (MSBuild items.)
pub fn is_pattern(text: &str) -> bool
    ensures { result ≡ is_pattern text.now }
{
    text.as_bytes()
        .iter()
        .any(|byte| *byte == b'*' || *byte == b'?')
}

/// The text with `/` for each `\`.
pub fn with_slashes(alloc: Global, text: &str) -> Result<Text, NoMemory>
    ensures { IfOk result (λ whole. whole ≡ with_slashes text.now) }
{
    let mut whole = Text::of(alloc, "")?;
    let mut rest = text;
    while let Some((part, behind)) = split_first(rest, '\\') {
        whole.push_str(part)?;
        whole.push_str("/")?;
        rest = behind;
    }
    whole.push_str(rest)?;
    Ok(whole)
}
