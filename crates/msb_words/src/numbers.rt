ghost use Rattle.std.specs.Prelude.{◌≡◌, ◌<◌, ◌≤◌, IfOk, option_map};
ghost use Rattle.msb_words.specs.Answers.{Reads};
ghost use Rattle.msb_words.specs.Values.{nodes_if, nodes_in, number_of, seed_in, size_if, size_in};

use crate::WordFault;

/// How many worker nodes build, or so many where the option is left out. (MSBuild parallel builds.)
pub(crate) fn nodes(value: Option<&str>, without: u32) -> Result<u32, WordFault>
    requires { (0 < without) × (without ≤ 64) }
    ensures reads { Reads (nodes_if without (option_map (λ v. v.now) value.entry)) result }
    ensures range { IfOk result (λ nodes. (0 < nodes) × (nodes ≤ 64)) }
{
    match value {
        Some(value) => nodes_in(value),
        None => Ok(without),
    }
}

fn nodes_in(value: &str) -> Result<u32, WordFault>
    ensures reads { Reads (nodes_in value.now) result }
    ensures range { IfOk result (λ nodes. (0 < nodes) × (nodes ≤ 64)) }
{
    match number_of(value, 2) {
        Some(nodes @ 1..=64) => Ok(nodes as u32),
        _ => Err(WordFault::Usage),
    }
}

/// How many projects a generated set has, or 0 where the option is left out.
pub(crate) fn size(value: Option<&str>) -> Result<u32, WordFault>
    ensures { Reads (size_if (option_map (λ v. v.now) value.entry)) result }
{
    match value {
        Some(value) => size_in(value),
        None => Ok(0),
    }
}

fn size_in(value: &str) -> Result<u32, WordFault>
    ensures { Reads (size_in value.now) result }
{
    match number_of(value, 3) {
        Some(size @ 1..=100) => Ok(size as u32),
        _ => Err(WordFault::Usage),
    }
}

/// The seed of a generated set.
pub(crate) fn seed_in(value: &str) -> Result<u64, WordFault>
    ensures { Reads (seed_in value.now) result }
{
    match number_of(value, 20) {
        Some(seed) => Ok(seed),
        None => Err(WordFault::Usage),
    }
}

// One to so many digits: a parse alone would take a sign, and any number of zeros in front.
fn number_of(value: &str, most: usize) -> Option<u64>
    ensures { result ≡ number_of most value.now }
{
    if value.len() > most || value.starts_with('+') {
        return None;
    }
    value.parse().ok()
}
