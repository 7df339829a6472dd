ghost use Rattle.std.specs.Prelude.{
  ◌≡◌,
  ◌<◌,
  ◌≤◌,
  ℕ,
  List,
  [],
  ◌∷◌,
  map,
  length,
  MatchOption,
  option_copied,
  false,
};
ghost use Rattle.std.specs.List.{list_all};
ghost use Rattle.msb_glob.specs.Match.{segment_token, segments_left, fits_path};
ghost use Rattle.msb_glob.specs.Search.{is_gap, Searching, effort};
ghost use Rattle.msb_glob.specs.Tokens.{fits, passes};

use crate::pieces::{Piece, fits_segment};
use crate::splits::split_first;
use msb_values::{List, Text};

/// A segment of a pattern.
#[derive(Drop)]
pub(crate) enum Part {
    /// `**`
    AnyFolders,
    /// A segment without wildcards, which stands for itself.
    Exact(Text),
    Segment(List<Piece>),
}

impl Part {
    pub(crate) fn is_gap(&self) -> bool
        ensures { result ≡ is_gap (segment_token self.now) }
    {
        match self {
            Part::AnyFolders => true,
            Part::Exact(_) => false,
            Part::Segment(_) => false,
        }
    }

    fn passes(&self, segment: &str) -> bool
        ensures { result ≡ passes (segment_token self.now) segment.now }
    {
        match self {
            Part::AnyFolders => false,
            Part::Exact(text) => text.as_str() == segment,
            Part::Segment(pieces) => fits_segment(pieces.as_slice(), segment),
        }
    }
}

/// Where a search along a path stands: the part that is next, against the segments that are left.
#[derive(Clone, Copy)]
struct Place<'a> {
    at: usize,
    rest: Option<&'a str>,
    /// The part behind the last `**`, or 0 where none was met.
    star: usize,
    /// What the last `**` and the parts behind it can take.
    from: Option<&'a str>,
}

/// Whether the parts stand for the whole path.
pub(crate) fn fits_path(parts: &[Part], path: &str) -> bool
    ensures { result ≡ fits_path parts.now path.now }
{
    fits_left(parts, Some(path))
}

/// Whether the parts stand for all that is left of a path.
///
/// Only the last `**` is tried again: what the earlier ones took can stay as it is.
pub(crate) fn fits_left(parts: &[Part], left: Option<&str>) -> bool
    ensures { result ≡ fits (map segment_token parts.now)
        (segments_left (option_copied left.entry)) }
{
    let mut place = Place {
        at: 0,
        rest: left,
        star: 0,
        from: left,
    };
    while let Some((segment, behind)) = first_segment(place.rest) {
        match next_place(parts, place, segment, behind) {
            Some(next) => place = next,
            None => return false,
        }
    }
    are_gaps(&parts[place.at..])
}

pub(crate) fn are_gaps(parts: &[Part]) -> bool
    ensures { result ≡ list_all (λ part. is_gap (segment_token part)) parts.now }
{
    parts.iter().all(|part| part.is_gap())
}

/// The first segment that is left, and what is left behind it.
pub(crate) fn first_segment(left: Option<&str>) -> Option<(&str, Option<&str>)>
    ensures { MatchOption result (segments_left (option_copied left.entry) ≡ [])
        (λ p. segments_left (option_copied left.entry)
        ≡ p.0.now ∷ segments_left (option_copied p.1)) }
{
    let path = left?;
    match split_first(path, '/') {
        Some((first, behind)) => Some((first, Some(behind))),
        None => Some((path, None)),
    }
}

/// The next place of a search, or nothing where no part can take the segment.
fn next_place<'a>(
    parts: &[Part],
    place: Place<'a>,
    segment: &str,
    behind: Option<&'a str>,
) -> Option<Place<'a>>
    requires in_range { place.at ≤ length parts.now }
    requires next { segments_left (option_copied place.rest)
        ≡ segment.now ∷ segments_left (option_copied behind) }
    ensures { (entries : List (List ℕ))
        → Searching (map segment_token parts.now) entries place.entry.at
        (segments_left (option_copied place.entry.rest)) place.entry.star
        (segments_left (option_copied place.entry.from))
        → MatchOption result (fits (map segment_token parts.now) entries ≡ false)
        (λ next. Searching (map segment_token parts.now) entries next.at
        (segments_left (option_copied next.rest)) next.star
        (segments_left (option_copied next.from))
        × (effort (map segment_token parts.now) next.at (segments_left (option_copied next.from))
        < effort (map segment_token parts.now) place.entry.at
        (segments_left (option_copied place.entry.from)))) }
{
    let Place {
        at,
        rest,
        star,
        from,
    } = place;
    if at < parts.len() {
        let part = &parts[at];
        if part.is_gap() {
            return Some(Place {
                at: at + 1,
                rest,
                star: at + 1,
                from: rest,
            });
        }
        if part.passes(segment) {
            return Some(Place {
                at: at + 1,
                rest: behind,
                star,
                from,
            });
        }
    }
    if star == 0 {
        return None;
    }
    let (_, from) = first_segment(from)?;
    Some(Place {
        at: star,
        rest: from,
        star,
        from,
    })
}
