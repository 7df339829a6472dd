ghost use Rattle.std.specs.Prelude.{◌≡◌, ◌<◌, ◌++◌, codes, length, IfOk, IfSome, MatchOption};
ghost use Rattle.msb_laws.specs.Results.{map_ok};
ghost use Rattle.task_trait.specs.Answers.{Gives, GivesAs};
ghost use Rattle.task_kit.specs.Included.{
  all_of,
  is_pattern_entry,
  pattern_in,
  pattern_text,
  patterns_of_entry,
};

use msb_glob::{GlobFault, Pattern, is_pattern};
use msb_values::{Item, List, NoMemory, Text};
use std::alloc::Global;
use task_trait::{Failure, bad_parameter};

/// Whether an entry is a pattern.
pub(crate) fn is_pattern_entry(entry: &Item) -> bool
    ensures { result ≡ is_pattern_entry entry.now }
{
    is_pattern(entry.ident.as_str())
}

/// An entry of the parameter of this name as a pattern.
pub(crate) fn pattern_in(
    alloc: Global,
    dir: &str,
    name: &str,
    entry: &Item,
) -> Result<Pattern, Failure>
    ensures { Gives result (pattern_in dir.now name.now entry.now) }
{
    let text = pattern_text(alloc, entry.ident.as_str())?;
    match Pattern::parse(alloc, dir, text.as_str()) {
        Ok(pattern) => Ok(pattern),
        Err(GlobFault::Memory) => Err(Failure::Memory),
        Err(GlobFault::StarsInSegment) => Err(bad_parameter(alloc, name)?),
        Err(GlobFault::Path(_)) => Err(bad_parameter(alloc, name)?),
    }
}

/// The text of a pattern in which each `%` stands for itself.
fn pattern_text(alloc: Global, text: &str) -> Result<Text, NoMemory>
    ensures { IfOk result (λ whole. whole ≡ pattern_text text.now) }
{
    let mut whole = Text::of(alloc, "")?;
    let mut rest = text;
    while let Some((part, behind)) = cut_at_percent(rest) {
        whole.push_str(part)?;
        whole.push_str("%25")?;
        rest = behind;
    }
    whole.push_str(rest)?;
    Ok(whole)
}

/// The text ahead of the first `%`, and the text behind it.
fn cut_at_percent(text: &str) -> Option<(&str, &str)>
    ensures cut { MatchOption result (pattern_text text.now ≡ text.now)
        (λ parts. pattern_text text.now ≡ parts.0.now ++ codes "%25" ++ pattern_text parts.1.now) }
    ensures shorter { IfSome result (λ parts. length parts.1.now < length text.now) }
{
    text.split_once('%')
}

/// The patterns among the entries of Exclude.
pub(crate) fn excluded_patterns(
    alloc: Global,
    dir: &str,
    entries: &[Item],
) -> Result<List<Pattern>, Failure>
    ensures { Gives result (all_of (patterns_of_entry dir.now) entries.now) }
{
    let mut patterns = List::new(alloc);
    push_patterns(alloc, &mut patterns, dir, entries)?;
    Ok(patterns)
}

fn push_patterns(
    alloc: Global,
    patterns: &mut List<Pattern>,
    dir: &str,
    entries: &[Item],
) -> Result<(), Failure>
    ensures { GivesAs (λ _. patterns.new) result
        (map_ok (λ more. patterns.old ++ more) (all_of (patterns_of_entry dir.now) entries.now)) }
{
    for entry in entries {
        push_pattern(alloc, patterns, dir, entry)?;
    }
    Ok(())
}

fn push_pattern(
    alloc: Global,
    patterns: &mut List<Pattern>,
    dir: &str,
    entry: &Item,
) -> Result<(), Failure>
    ensures { GivesAs (λ _. patterns.new) result
        (map_ok (λ more. patterns.old ++ more) (patterns_of_entry dir.now entry.now)) }
{
    if !is_pattern_entry(entry) {
        return Ok(());
    }
    let pattern = pattern_in(alloc, dir, "exclude", entry)?;
    patterns.push(pattern)?;
    Ok(())
}
