ghost use Rattle.std.specs.Prelude.{◌≡◌};
ghost use Rattle.msb_values.specs.Same.{is_same_text};

use caseless::default_caseless_match_str;

/// Whether two texts are equal without case: their Unicode default case foldings are equal.
/// (MSBuild conditions.)
pub fn same_text(a: &str, b: &str) -> bool
    ensures { result ≡ is_same_text a.now b.now }
{
    default_caseless_match_str(a, b)
}
