ghost use Rattle.std.specs.Prelude.{◌≡◌, ◌==◌, ◌<◌, [], ◌∷◌, length, MatchOption, IfSome};
ghost use Rattle.std.specs.List.{slice_split};

/// The text ahead of the first separator, and the text behind it.
pub(crate) fn split_first(text: &str, separator: char) -> Option<(&str, &str)>
    requires { separator < 128 }
    ensures parts { MatchOption result (slice_split (λ b. b == separator) text.now ≡ text.now ∷ [])
        (λ p. slice_split (λ b. b == separator) text.now
        ≡ p.0.now ∷ slice_split (λ b. b == separator) p.1.now) }
    ensures shorter { IfSome result (λ p. length p.1.now < length text.now) }
{
    text.split_once(separator)
}
