ghost use Rattle.std.specs.Prelude.{◌≡◌, ◌++◌, IfOk, OnOk, string_bytes};
ghost use Rattle.std.specs.Fmt.{decimal};
ghost use Rattle.msb_values.specs.Causes.{detail};
ghost use Rattle.msb_values.specs.declared.cause.Cause.TheVariants.{Memory};

use crate::{NoMemory, Text};
use std::alloc::{AllocError, AllocFailed, Global};
use std::fmt::Write;

/// Why a project is refused, or why a run fails.
///
/// Each cause has a number and a name, by which it is printed, and details.
pub enum Cause {
    /// 0: the project holds a part that this engine does not have yet.
    NotYet,
    /// 1: the file's bytes are no JSON text.
    NotJson,
    /// 2: a value is no element.
    NotElement,
    /// 3: an element, an attribute or a text that may stand nowhere here.
    UnknownElement,
    /// 4: an element that may not stand here.
    Misplaced,
    /// 5: this attribute is missing.
    MissingAttribute(Text),
    /// 6: these two attributes exclude each other.
    BothAttributes(Text, Text),
    /// 7: no name, with the place of its first bad byte.
    BadName(u64),
    /// 8: a text that ends inside a reference, with its length.
    Unclosed(u64),
    /// 9: a byte at this place that can't stand in an item reference.
    BadTransform(u64),
    /// 10: an item reference in a transform, with its place.
    NestedTransform(u64),
    /// 11: an item reference where none may stand.
    ItemsHere,
    /// 12: a metadata reference where none may stand.
    MetadataHere,
    /// 13: no item function has this name and number of arguments, or no property function this
    /// name and form.
    UnknownFunction(Text),
    /// 14: an expansion that is too long.
    TooLong,
    /// 15: an entry of a list that has an item reference beside other characters.
    MixedList,
    /// 16: a condition with a bad byte at this place.
    Syntax(u64),
    /// 17: this text is no truth value.
    NotBoolean(Text),
    /// 18: these texts are not both numbers.
    NotNumbers(Text, Text),
    /// 19: this text can't be made a normal path.
    BadPath(Text),
    /// 20: a `**` beside other characters.
    StarsInSegment,
    /// 21: this imported file is missing.
    MissingImport(Text),
    /// 22: a chain of imports that is too long.
    ImportDepth,
    /// 23: this name is reserved.
    Reserved(Text),
    /// 24: this metadata is batched and no list is named.
    NoList(Text),
    /// 25: an item of this type and identity has no value of this metadata.
    NoValue(Text, Text, Text),
    /// 26: an argument of this property function that it does not take, or a wrong number of them.
    BadArgument(Text),
    /// 27: a result or an argument of this property function outside 64 bits.
    Overflow(Text),
    /// Want of memory, which is not printed.
    Memory,
}

// A drop that is written out is proved here alone.
impl Drop for Cause {
    fn drop(self) {
        match self {
            Cause::NotYet => {}
            Cause::NotJson => {}
            Cause::NotElement => {}
            Cause::UnknownElement => {}
            Cause::Misplaced => {}
            Cause::ItemsHere => {}
            Cause::MetadataHere => {}
            Cause::TooLong => {}
            Cause::MixedList => {}
            Cause::StarsInSegment => {}
            Cause::ImportDepth => {}
            Cause::Memory => {}
            Cause::MissingAttribute(_) => {}
            Cause::BadName(_) => {}
            Cause::Unclosed(_) => {}
            Cause::BadTransform(_) => {}
            Cause::NestedTransform(_) => {}
            Cause::UnknownFunction(_) => {}
            Cause::Syntax(_) => {}
            Cause::NotBoolean(_) => {}
            Cause::BadPath(_) => {}
            Cause::MissingImport(_) => {}
            Cause::Reserved(_) => {}
            Cause::NoList(_) => {}
            Cause::BadArgument(_) => {}
            Cause::Overflow(_) => {}
            Cause::BothAttributes(_, _) => {}
            Cause::NotNumbers(_, _) => {}
            Cause::NoValue(_, _, _) => {}
        }
    }
}

impl From<NoMemory> for Cause {
    ghost from_gives = { λ _ cause. cause ≡ Memory };

    fn from(_: NoMemory) -> Self {
        Cause::Memory
    }
}

impl From<AllocError> for Cause {
    ghost from_gives = { λ _ cause. cause ≡ Memory };

    fn from(_: AllocError) -> Self {
        Cause::Memory
    }
}

impl<T: Drop> From<AllocFailed<T>> for Cause {
    ghost from_gives = { λ _ cause. cause ≡ Memory };

    fn from(_: AllocFailed<T>) -> Self {
        Cause::Memory
    }
}

impl Cause {
    ghost use Rattle.msb_values.specs.Causes.{shown_of, label_of, details_of};

    /// The number, the name and the details, with one space between, as they are printed.
    pub fn to_text(&self, alloc: Global) -> Result<Text, NoMemory>
        ensures { IfOk result (λ t. t ≡ shown_of self.now) }
    {
        let mut shown = String::from_str(alloc, self.label())?;
        self.push_details(&mut shown)?;
        Ok(Text::from(shown))
    }

    fn label(&self) -> &'static str
        ensures { result.now ≡ label_of self.now }
    {
        match self {
            Cause::NotYet => "0 NotYet",
            Cause::NotJson => "1 NotJson",
            Cause::NotElement => "2 NotElement",
            Cause::UnknownElement => "3 UnknownElement",
            Cause::Misplaced => "4 Misplaced",
            Cause::MissingAttribute(_) => "5 MissingAttribute",
            Cause::BothAttributes(_, _) => "6 BothAttributes",
            Cause::BadName(_) => "7 BadName",
            Cause::Unclosed(_) => "8 Unclosed",
            Cause::BadTransform(_) => "9 BadTransform",
            Cause::NestedTransform(_) => "10 NestedTransform",
            Cause::ItemsHere => "11 ItemsHere",
            Cause::MetadataHere => "12 MetadataHere",
            Cause::UnknownFunction(_) => "13 UnknownFunction",
            Cause::TooLong => "14 TooLong",
            Cause::MixedList => "15 MixedList",
            Cause::Syntax(_) => "16 Syntax",
            Cause::NotBoolean(_) => "17 NotBoolean",
            Cause::NotNumbers(_, _) => "18 NotNumbers",
            Cause::BadPath(_) => "19 BadPath",
            Cause::StarsInSegment => "20 StarsInSegment",
            Cause::MissingImport(_) => "21 MissingImport",
            Cause::ImportDepth => "22 ImportDepth",
            Cause::Reserved(_) => "23 Reserved",
            Cause::NoList(_) => "24 NoList",
            Cause::NoValue(_, _, _) => "25 NoValue",
            Cause::BadArgument(_) => "26 BadArgument",
            Cause::Overflow(_) => "27 Overflow",
            Cause::Memory => "Memory",
        }
    }

    fn push_details(&self, shown: &mut String) -> Result<(), NoMemory>
        ensures { OnOk result (string_bytes shown.new
            ≡ string_bytes shown.old ++ details_of self.now) }
    {
        match self {
            Cause::BadName(place)
            | Cause::Unclosed(place)
            | Cause::BadTransform(place)
            | Cause::NestedTransform(place)
            | Cause::Syntax(place) => push_number(shown, *place),
            Cause::MissingAttribute(text)
            | Cause::UnknownFunction(text)
            | Cause::NotBoolean(text)
            | Cause::BadPath(text)
            | Cause::MissingImport(text)
            | Cause::Reserved(text)
            | Cause::NoList(text)
            | Cause::BadArgument(text)
            | Cause::Overflow(text) => push_text(shown, text),
            Cause::BothAttributes(first, second) | Cause::NotNumbers(first, second) => {
                push_text(shown, first)?;
                push_text(shown, second)
            }
            Cause::NoValue(kind, ident, name) => {
                push_text(shown, kind)?;
                push_text(shown, ident)?;
                push_text(shown, name)
            }
            _ => Ok(()),
        }
    }
}

fn push_text(shown: &mut String, text: &Text) -> Result<(), NoMemory>
    ensures { OnOk result (string_bytes shown.new ≡ string_bytes shown.old ++ detail text.now) }
{
    shown.push(' ')?;
    Ok(shown.push_str(text.as_str())?)
}

fn push_number(shown: &mut String, number: u64) -> Result<(), NoMemory>
    ensures { OnOk result (string_bytes shown.new
        ≡ string_bytes shown.old ++ detail (decimal number)) }
{
    Ok(write!(shown, " {number}")?)
}
