ghost use Rattle.std.specs.Prelude.{◌≡◌, Bool, Some, codes, map, string_bytes};
ghost use Rattle.std.specs.List.{list_all};
ghost use Rattle.clap.specs.Values.{bool_text};
ghost use Rattle.clap.specs.Words.{first_value, found_of, one_text};
ghost use Rattle.msb_words.specs.Answers.{ReadsAs, fault_of_kind};
ghost use Rattle.msb_words.specs.Given.{is_value, given_by, given_in, option_in, seen};
ghost use Rattle.msb_words.specs.Words.{is_option_word, is_word};

use crate::WordFault;
use crate::grammar::grammar;
use clap::ArgMatches;
use clap::error::ErrorKind;
use std::alloc::Global;

/// The two words and the values of options that stand on the command line.
#[derive(Clone, Copy)]
pub(crate) struct Given<'a> {
    pub(crate) action: &'a str,
    pub(crate) project: &'a str,
    pub(crate) target: Option<&'a str>,
    pub(crate) property: Option<&'a str>,
    pub(crate) nodes: Option<&'a str>,
    pub(crate) clean: bool,
    pub(crate) show: Option<&'a str>,
    pub(crate) size: Option<&'a str>,
}

impl<'a> Given<'a> {
    /// What the words give, if they are in the grammar.
    pub(crate) fn of(alloc: Global, words: &'a [String]) -> Result<Given<'a>, WordFault>
        ensures { ReadsAs seen (given_in (map string_bytes words.entry.now)) result }
    {
        if !are_words(words) {
            return Err(WordFault::Usage);
        }
        match grammar(alloc)?.try_get_matches_from(words) {
            Ok(matches) => Given::among(&matches),
            Err(error) => Err(fault_of(error.kind())),
        }
    }

    // The value of the flag is `true`, or else its default, `false`.
    fn among(matches: &ArgMatches<'a>) -> Result<Given<'a>, WordFault>
        ensures { (clean : Bool) → one_text (found_of matches.now) (codes "clean")
            ≡ Some (bool_text clean)
            → ReadsAs seen (given_by (first_value (found_of matches.now)) clean) result }
    {
        let Some(action) = matches.get_str("action") else {
            return Err(WordFault::Usage);
        };
        let Some(project) = matches.get_str("project") else {
            return Err(WordFault::Usage);
        };
        Ok(Given {
            action,
            project,
            target: matches.get_str("target"),
            property: matches.get_str("property"),
            nodes: matches.get_str("nodes"),
            clean: matches.get_flag("clean"),
            show: matches.get_str("show"),
            size: matches.get_str("size"),
        })
    }
}

// A command is refused for want of memory, or since its words are outside the grammar.
fn fault_of(kind: ErrorKind) -> WordFault
    ensures { result ≡ fault_of_kind kind }
{
    match kind {
        ErrorKind::OutOfMemory => WordFault::Memory,
        _ => WordFault::Usage,
    }
}

fn are_words(words: &[String]) -> bool
    ensures { result ≡ list_all is_word (map string_bytes words.now) }
{
    for word in words {
        if !is_word(word.as_str()) {
            return false;
        }
    }
    true
}

// A value, or an option whose value may be one: a parse would take the others for words that stand
// alone.
fn is_word(word: &str) -> bool
    ensures { result ≡ is_word word.now }
{
    match word.strip_prefix("--") {
        Some(option) => is_option(option),
        None => is_value(word),
    }
}

fn is_option(text: &str) -> bool
    ensures { result ≡ is_option_word (option_in text.now) }
{
    match text.split_once('=') {
        Some((_, value)) => is_value(value),
        None => !text.is_empty(),
    }
}

fn is_value(value: &str) -> bool
    ensures { result ≡ is_value value.now }
{
    match value.as_bytes() {
        [] => false,
        [first, ..] => *first != b'-',
    }
}
