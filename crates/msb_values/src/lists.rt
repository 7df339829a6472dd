ghost use Rattle.std.specs.Prelude.{◌≡◌, IfOk};
ghost use Rattle.std.specs.List.{list_all, prefix_len, suffix_len};
ghost use Rattle.msb_values.specs.Lists.{
  is_list_space,
  trimmed_start,
  trimmed_end,
  trimmed,
  list_of,
};

use crate::{List, NoMemory, Text};
use std::alloc::Global;

/// The list that a text holds: what stands between each `;`, trimmed of spaces, tabs, CR and LF,
/// without the empty pieces.
///
/// An escaped `;` (`%3B`) cuts nothing, and stays escaped. (MSBuild items.)
pub fn split_list(alloc: Global, text: &str) -> Result<List<Text>, NoMemory>
    ensures { IfOk result (λ l. l ≡ list_of text.now) }
{
    let mut list = List::new(alloc);
    for piece in text.split(';') {
        let entry = trim(piece);
        if !entry.is_empty() {
            list.push(Text::of(alloc, entry)?)?;
        }
    }
    Ok(list)
}

/// The text without the spaces, tabs, CR and LF at both ends.
pub fn trim(text: &str) -> &str
    ensures { result.now ≡ trimmed text.now }
{
    trim_end(trim_start(text))
}

/// Whether the text is nothing but spaces, tabs, CR and LF.
pub fn is_blank(text: &str) -> bool
    ensures { result ≡ list_all is_list_space text.now }
{
    text.as_bytes().iter().all(|byte| is_space(*byte))
}

fn trim_start(text: &str) -> &str
    ensures { result.now ≡ trimmed_start text.now }
{
    let spaces = spaces_at_start(text.as_bytes());
    &text[spaces..]
}

fn trim_end(text: &str) -> &str
    ensures { result.now ≡ trimmed_end text.now }
{
    let spaces = spaces_at_end(text.as_bytes());
    let end = text.len() - spaces;
    &text[..end]
}

fn spaces_at_start(bytes: &[u8]) -> usize
    ensures { result ≡ prefix_len is_list_space bytes.now }
{
    bytes.iter().take_while(|byte| is_space(**byte)).count()
}

fn spaces_at_end(bytes: &[u8]) -> usize
    ensures { result ≡ suffix_len is_list_space bytes.now }
{
    bytes
        .iter()
        .rev()
        .take_while(|byte| is_space(**byte))
        .count()
}

fn is_space(byte: u8) -> bool
    ensures { result ≡ is_list_space byte }
{
    byte == b' ' || byte == b'\t' || byte == b'\r' || byte == b'\n'
}
