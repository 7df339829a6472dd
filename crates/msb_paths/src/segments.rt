ghost use Rattle.std.specs.Prelude.{◌≡◌};
ghost use Rattle.std.specs.List.{list_all};
ghost use Rattle.msb_paths.specs.Segments.{
  is_plain,
  is_separator,
  is_here,
  is_parent,
  is_normal_segment,
};

pub(crate) fn is_separator(byte: u8) -> bool
    ensures { result ≡ is_separator byte }
{
    byte == b'/' || byte == b'\\'
}

/// Whether a segment stays where it is.
pub(crate) fn is_here(segment: &str) -> bool
    ensures { result ≡ is_here segment.now }
{
    segment.is_empty() || segment == "."
}

pub(crate) fn is_parent(segment: &str) -> bool
    ensures { result ≡ is_parent segment.now }
{
    segment == ".."
}

fn is_plain(byte: u8) -> bool
    ensures { result ≡ is_plain byte }
{
    byte >= b' ' && !is_separator(byte)
}

fn has_plain_bytes(segment: &str) -> bool
    ensures { result ≡ list_all is_plain segment.now }
{
    segment.bytes().all(is_plain)
}

pub(crate) fn is_normal_segment(segment: &str) -> bool
    ensures { result ≡ is_normal_segment segment.now }
{
    !is_here(segment) && !is_parent(segment) && has_plain_bytes(segment)
}
