ghost use Rattle.std.specs.Prelude.{◌≡◌, ℕ, ◌-◌, ◌<◌, ◌≤◌, [], length, take, drop};
ghost use Rattle.std.specs.Str.{IsCharBoundary};
ghost use Rattle.msb_expression.specs.Machine as machine;
ghost use Rattle.msb_expression.specs.Machine.{
  Host,
  run,
  in_text,
  unmarked,
  host_inside,
  flushed,
  start_of,
};
ghost use Rattle.msb_expression.specs.declared.starts.Start.TheVariants.{Plain};

use crate::sorts::{Sort, sort_at};

/// What text it is: a whole one, a transform, a separator or an argument between quotes, or an
/// argument without them.
#[derive(Clone, Copy)]
pub(crate) enum Inside {
    Whole,
    Transform,
    Quoted,
    Loose,
}

impl Inside {
    fn quote(self) -> Start
        ensures { result ≡ machine.quote_start self }
    {
        match self {
            Inside::Whole => Start::Plain,
            Inside::Transform | Inside::Quoted => Start::Quote,
            Inside::Loose => Start::Bad,
        }
    }

    fn metadata(self) -> Start
        ensures { result ≡ machine.metadata_start self }
    {
        match self {
            Inside::Whole | Inside::Transform => Start::Metadata,
            Inside::Quoted => Start::Plain,
            Inside::Loose => Start::Bad,
        }
    }

    fn items(self) -> Start
        ensures { result ≡ machine.items_start self }
    {
        match self {
            Inside::Whole | Inside::Transform => Start::Items,
            Inside::Quoted => Start::Plain,
            Inside::Loose => Start::Bad,
        }
    }

    /// What begins there, which can't stand in an argument without quotes.
    fn bad_if_loose(self, here: Start) -> Start
        ensures { result ≡ machine.bad_if_loose self here }
    {
        match self {
            Inside::Whole | Inside::Transform | Inside::Quoted => here,
            Inside::Loose => Start::Bad,
        }
    }

    /// A `,` or a `)`.
    fn part(self) -> Start
        ensures { result ≡ machine.part_start self }
    {
        match self {
            Inside::Whole | Inside::Transform | Inside::Quoted => Start::Plain,
            Inside::Loose => Start::Stop,
        }
    }
}

/// What starts at a place of a text.
#[derive(Clone, Copy)]
pub(crate) enum Start {
    End,
    Quote,
    Property,
    Metadata,
    Items,
    /// The end of an argument without quotes.
    Stop,
    /// A byte that can't stand there.
    Bad,
    Plain,
}

impl Start {
    /// This where a `(` stands at `at`, and else plain text.
    fn if_opened(self, text: &str, at: usize) -> Start
        ensures { result ≡ machine.opened_start (machine.first_sort (drop at text.now)) self }
    {
        match sort_at(text, at) {
            Sort::Open => self,
            _ => Start::Plain,
        }
    }
}

/// What starts at `at`.
pub(crate) fn start_at(text: &str, at: usize, inside: Inside) -> Start
    requires { at ≤ length text.now }
    ensures { result ≡ start_of inside (drop at text.now) }
{
    match sort_at(text, at) {
        Sort::End => Start::End,
        Sort::Quote => inside.quote(),
        Sort::Dollar => Start::Property.if_opened(text, at + 1),
        Sort::Percent => inside.bad_if_loose(inside.metadata().if_opened(text, at + 1)),
        Sort::At => inside.bad_if_loose(inside.items().if_opened(text, at + 1)),
        Sort::Open => inside.bad_if_loose(Start::Plain),
        Sort::Comma => inside.part(),
        Sort::Close => inside.part(),
        _ => Start::Plain,
    }
}

/// Where the plain text at `at` ends.
pub(crate) fn plain_end(text: &str, at: usize, inside: Inside) -> usize
    requires within { at ≤ length text.now }
    requires plain { start_of inside (drop at text.now) ≡ Plain }
    ensures after { at < result }
    ensures within { result ≤ length text.now }
    ensures cut { IsCharBoundary text.now result }
    ensures over { (host : Host) → host_inside host ≡ inside
        → run (drop at text.now) (in_text host [] unmarked)
        ≡ run (drop result text.now)
        (in_text (flushed host (take (result - at) (drop at text.now))) [] unmarked) }
{
    let mut end = at;
    while let Start::Plain = start_at(text, end, inside) {
        end += 1;
    }
    end
}
