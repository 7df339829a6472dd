ghost use Rattle.std.specs.Prelude.{
  ◌≡◌,
  ◌<◌,
  ◌≤◌,
  ℕ,
  List,
  [],
  ◌∷◌,
  map,
  length,
  MatchOption,
  true,
  false,
};
ghost use Rattle.std.specs.List.{list_all};
ghost use Rattle.std.specs.Str.{chars};
ghost use Rattle.msb_glob.specs.Match.{character_token, fits_segment};
ghost use Rattle.msb_glob.specs.Search.{is_gap, Searching, effort};
ghost use Rattle.msb_glob.specs.Tokens.{fits, passes};

/// A piece of a pattern's segment.
#[derive(Clone, Copy)]
pub(crate) enum Piece {
    /// `*`
    AnyCharacters,
    /// `?`
    AnyCharacter,
    Character(char),
}

impl Piece {
    fn is_gap(self) -> bool
        ensures { result ≡ is_gap (character_token self) }
    {
        match self {
            Piece::AnyCharacters => true,
            Piece::AnyCharacter => false,
            Piece::Character(_) => false,
        }
    }

    fn passes(self, character: char) -> bool
        ensures { result ≡ passes (character_token self) character }
    {
        match self {
            Piece::AnyCharacters => false,
            Piece::AnyCharacter => true,
            Piece::Character(own) => character == own,
        }
    }
}

/// Where a search in a segment stands: the piece that is next, against the rest of the segment.
#[derive(Clone, Copy)]
struct Place<'a> {
    at: usize,
    rest: &'a str,
    /// The piece behind the last `*`, or 0 where none was met.
    star: usize,
    /// What the last `*` and the pieces behind it can take.
    from: &'a str,
}

/// Whether the pieces stand for the whole segment.
///
/// Only the last `*` is tried again: what the earlier ones took can stay as it is.
pub(crate) fn fits_segment(pieces: &[Piece], segment: &str) -> bool
    ensures { result ≡ fits_segment pieces.now segment.now }
{
    let mut place = Place {
        at: 0,
        rest: segment,
        star: 0,
        from: segment,
    };
    while let Some((character, behind)) = first_character(place.rest) {
        match next_place(pieces, place, character, behind) {
            Some(next) => place = next,
            None => return false,
        }
    }
    are_gaps(&pieces[place.at..])
}

fn are_gaps(pieces: &[Piece]) -> bool
    ensures { result ≡ list_all (λ piece. is_gap (character_token piece)) pieces.now }
{
    pieces.iter().all(|piece| piece.is_gap())
}

fn first_character(text: &str) -> Option<(char, &str)>
    ensures { MatchOption result (chars text.now ≡ []) (λ p. chars text.now ≡ p.0 ∷ chars p.1.now) }
{
    let mut characters = text.chars();
    let first = characters.next()?;
    Some((first, characters.as_str()))
}

/// The next place of a search, or nothing where no piece can take the character.
fn next_place<'a>(
    pieces: &[Piece],
    place: Place<'a>,
    character: char,
    behind: &'a str,
) -> Option<Place<'a>>
    requires in_range { place.at ≤ length pieces.now }
    requires next { chars place.rest.now ≡ character ∷ chars behind.now }
    ensures { (entries : List ℕ)
        → Searching (map character_token pieces.now) entries place.entry.at
        (chars place.entry.rest.now) place.entry.star (chars place.entry.from.now)
        → MatchOption result (fits (map character_token pieces.now) entries ≡ false)
        (λ next. Searching (map character_token pieces.now) entries next.at (chars next.rest.now)
        next.star (chars next.from.now)
        × (effort (map character_token pieces.now) next.at (chars next.from.now)
        < effort (map character_token pieces.now) place.entry.at (chars place.entry.from.now))) }
{
    let Place {
        at,
        rest,
        star,
        from,
    } = place;
    if at < pieces.len() {
        if pieces[at].is_gap() {
            return Some(Place {
                at: at + 1,
                rest,
                star: at + 1,
                from: rest,
            });
        }
        if pieces[at].passes(character) {
            return Some(Place {
                at: at + 1,
                rest: behind,
                star,
                from,
            });
        }
    }
    if star == 0 {
        return None;
    }
    let (_, from) = first_character(from)?;
    Some(Place {
        at: star,
        rest: from,
        star,
        from,
    })
}
