ghost use Rattle.std.specs.Prelude.{◌≡◌, ◌+◌, ◌<◌, ◌≤◌, ◌^◌, length};
ghost use Rattle.msb_condition.specs.Extents as extents;
ghost use Rattle.msb_condition.specs.Extents.{depth_of, text_len, reference_len};
ghost use Rattle.msb_condition.specs.declared.extents.Inside.TheVariants.{Text, Reference};

/// Inside what a byte of an operand stands.
#[derive(Clone, Copy)]
pub(crate) enum Inside {
    Text,
    /// Right behind an `@`, which may begin an item reference.
    AtSign,
    /// A reference with so many parentheses open in it, besides its own.
    Reference(u64),
    /// A text between quotes in such a reference.
    Quotes(u64),
}

impl Inside {
    /// Whether the byte is the quote that ends the text.
    fn ends_text(self, byte: u8) -> bool
        ensures { result ≡ extents.ends_text self byte }
    {
        match self {
            Inside::Text | Inside::AtSign => byte == b'\'',
            Inside::Reference(_) | Inside::Quotes(_) => false,
        }
    }

    fn is_text(self) -> bool
        ensures { result ≡ extents.is_text self }
    {
        matches!(self, Inside::Text)
    }

    /// Inside what the byte behind this one stands.
    fn behind(self, byte: u8) -> Inside
        requires { depth_of self < 2 ^ 63 }
        ensures value { result ≡ extents.behind self byte }
        ensures depth { depth_of result ≤ depth_of self + 1 }
    {
        match self {
            Inside::Text => behind_text(byte),
            Inside::AtSign => match byte {
                b'(' => Inside::Reference(0),
                _ => behind_text(byte),
            },
            Inside::Reference(depth) => behind_reference(depth, byte),
            Inside::Quotes(depth) => match byte {
                b'\'' => Inside::Reference(depth),
                _ => self,
            },
        }
    }
}

fn behind_text(byte: u8) -> Inside
    ensures value { result ≡ extents.behind_text byte }
    ensures depth { depth_of result ≡ 0 }
{
    match byte {
        b'@' => Inside::AtSign,
        _ => Inside::Text,
    }
}

fn behind_reference(depth: u64, byte: u8) -> Inside
    requires { depth < 2 ^ 63 }
    ensures value { result ≡ extents.behind_reference depth byte }
    ensures depth { depth_of result ≤ depth + 1 }
{
    match byte {
        b'\'' => Inside::Quotes(depth),
        b'(' => Inside::Reference(depth + 1),
        b')' => close_reference(depth),
        _ => Inside::Reference(depth),
    }
}

fn close_reference(depth: u64) -> Inside
    ensures value { result ≡ extents.closed depth }
    ensures depth { depth_of result ≤ depth }
{
    if depth == 0 {
        Inside::Text
    } else {
        Inside::Reference(depth - 1)
    }
}

/// How many bytes come before the quote that ends a text, or before the end where there is none.
pub(crate) fn text_len(text: &[u8]) -> usize
    ensures { result ≡ text_len Text text.now }
{
    let mut inside = Inside::Text;
    for (at, byte) in text.iter().enumerate() {
        if inside.ends_text(*byte) {
            return at;
        }
        inside = inside.behind(*byte);
    }
    text.len()
}

/// How many bytes a reference has behind its first `(`, through the `)` that closes it, or to the
/// end where there is none.
pub(crate) fn reference_len(text: &[u8]) -> usize
    ensures value { result ≡ reference_len (Reference 0) text.now }
    ensures within { result ≤ length text.now }
{
    let mut inside = Inside::Reference(0);
    for (at, byte) in text.iter().enumerate() {
        if inside.is_text() {
            return at;
        }
        inside = inside.behind(*byte);
    }
    text.len()
}
