ghost use Rattle.std.specs.Prelude.{◌≡◌};
ghost use Rattle.msb_values.specs.Truths.{is_one_of, true_words, false_words, truth_of};

use crate::same_text;

/// The truth value that a text is, without case: `true`, `on`, `yes` and `!false`, `!off`, `!no`,
/// or the opposites. (MSBuild conditions.)
pub fn truth_of(text: &str) -> Option<bool>
    ensures { result ≡ truth_of text.now }
{
    if is_true_word(text) {
        Some(true)
    } else if is_false_word(text) {
        Some(false)
    } else {
        None
    }
}

fn is_true_word(text: &str) -> bool
    ensures { result ≡ is_one_of true_words text.now }
{
    same_text(text, "true")
        || same_text(text, "on")
        || same_text(text, "yes")
        || same_text(text, "!false")
        || same_text(text, "!off")
        || same_text(text, "!no")
}

fn is_false_word(text: &str) -> bool
    ensures { result ≡ is_one_of false_words text.now }
{
    same_text(text, "false")
        || same_text(text, "off")
        || same_text(text, "no")
        || same_text(text, "!true")
        || same_text(text, "!on")
        || same_text(text, "!yes")
}
