ghost use Rattle.std.specs.Prelude.{◌≡◌, ◌<◌, not, length, IfOk, IfSome};
ghost use Rattle.std.specs.List.{position};
ghost use Rattle.std.specs.Str.{str_to_ascii_lowercase};
ghost use Rattle.msb_values.specs.Names.{is_letter, is_name_byte, is_target_byte, bad_place};
ghost use Rattle.msb_values.specs.Keys.{key_of};
ghost use Rattle.msb_values.specs.Kinds.{may_follow};

use crate::{Copied, NameFault, NoMemory, Text};
use std::alloc::{AllocError, Global};
use std::cmp::Ordering;
use std::hash::{Hash, Hasher};
use std::marker::Model;

/// The name of a property, an item type, a metadata, a task or a target.
///
/// Names are compared without case, so a name is held and printed in lower case. (MSBuild
/// properties; MSBuild targets.)
pub struct Name {
    key: Text,
}

// A drop that is written out is proved here alone.
impl Drop for Name {
    fn drop(self) {
        let Name { key: _ } = self;
    }
}

impl Model for Name {
    ghost use Rattle.std.specs.Prelude.{ℕ, List};

    ghost Value = { List ℕ };

    ghost view = { λ n. n.key };
}

impl Name {
    ghost use Rattle.msb_values.specs.ReadsNames.{ReadsName};

    /// Reads a name that is no target's: a letter or `_`, then letters, digits, `_` and `-`.
    pub fn read(alloc: Global, text: &str) -> Result<Name, NameFault>
        ensures { ReadsName is_name_byte text.now result }
    {
        match bad_name(text) {
            None => Ok(Name::lower(alloc, text)?),
            Some(at) => Err(NameFault::BadName(at)),
        }
    }

    /// Reads a target's name, which may also hold `.` and `:` after its first character.
    pub fn read_target(alloc: Global, text: &str) -> Result<Name, NameFault>
        ensures { ReadsName is_target_byte text.now result }
    {
        match bad_target_name(text) {
            None => Ok(Name::lower(alloc, text)?),
            Some(at) => Err(NameFault::BadName(at)),
        }
    }

    /// The name that a text is, as it is looked up; a text that is none names nothing. (MSBuild
    /// properties.)
    pub fn look_up(alloc: Global, text: &str) -> Result<Option<Name>, NoMemory>
        ensures { IfOk result (λ name. name ≡ key_of text.now) }
    {
        match Name::read(alloc, text) {
            Ok(name) => Ok(Some(name)),
            Err(NameFault::BadName(_)) => Ok(None),
            Err(NameFault::Memory) => Err(NoMemory),
        }
    }

    fn into_key(self) -> Text
        ensures { result ≡ self }
    {
        let Name { key } = self;
        key
    }

    /// The name in lower case.
    pub fn key(&self) -> &str
        ensures { result.now ≡ self.now }
    {
        self.key.as_str()
    }

    fn lower(alloc: Global, text: &str) -> Result<Name, NoMemory>
        ensures { IfOk result (λ n. n ≡ str_to_ascii_lowercase text.now) }
    {
        let key = Text::from(text.to_ascii_lowercase(alloc)?);
        Ok(Name {
            key: key.share(alloc)?,
        })
    }
}

/// The place of the first byte that a name which is no target's can't have there, or 0 for an empty
/// text.
pub fn bad_name(text: &str) -> Option<u64>
    ensures { result ≡ bad_place is_name_byte text.now }
{
    first_bad(text.as_bytes(), Kind::Plain)
}

/// The same of a target's name.
pub fn bad_target_name(text: &str) -> Option<u64>
    ensures { result ≡ bad_place is_target_byte text.now }
{
    first_bad(text.as_bytes(), Kind::Target)
}

fn is_ascii_letter(byte: u8) -> bool
    ensures { result ≡ is_letter byte }
{
    (b'A' <= byte && byte <= b'Z') || (b'a' <= byte && byte <= b'z') || byte == b'_'
}

/// Which bytes may follow the first one.
#[derive(Clone, Copy)]
enum Kind {
    Plain,
    Target,
}

impl Kind {
    fn may_follow(self, byte: u8) -> bool
        ensures { result ≡ may_follow self byte }
    {
        let plain = is_ascii_letter(byte) || (b'0' <= byte && byte <= b'9') || byte == b'-';
        match self {
            Kind::Plain => plain,
            Kind::Target => plain || byte == b'.' || byte == b':',
        }
    }
}

/// The place of the first byte that a name of this kind can't have there.
fn first_bad(text: &[u8], kind: Kind) -> Option<u64>
    ensures { result ≡ bad_place (may_follow kind) text.now }
{
    match text {
        [first, rest @ ..] if is_ascii_letter(*first) => match first_other(rest, kind) {
            Some(at) => Some(at as u64 + 1),
            None => None,
        },
        _ => Some(0),
    }
}

fn first_other(bytes: &[u8], kind: Kind) -> Option<usize>
    ensures value { result ≡ position (λ b. not (may_follow kind b)) bytes.now }
    ensures within { IfSome result (λ at. at < length bytes.now) }
{
    bytes.iter().position(|byte| !kind.may_follow(*byte))
}

impl From<Name> for Text {
    ghost from_gives = { λ n t. t ≡ n };

    fn from(name: Name) -> Text {
        name.into_key()
    }
}

impl Copied for Name {
    fn copy(&self) -> Result<Name, NoMemory> {
        Ok(self.clone()?)
    }
}

impl Clone for Name {
    ghost use Rattle.std.specs.Prelude.{◌≡◌};

    ghost is_clone = { λ a b. b ≡ a };

    fn clone(&self) -> Result<Name, AllocError> {
        Ok(Name {
            key: self.key.clone()?,
        })
    }
}

impl PartialEq for Name {
    ghost use Rattle.std.specs.Str.{bytes_eq};
    ghost use Rattle.std.proofs.Common.{rules};
    ghost use Rattle.std.specs.Cmp.Rules.{comparing};

    ghost eq = { bytes_eq };

    ghost laws = { Prim.search (comparing, rules) };

    fn eq(&self, other: &Name) -> bool {
        self.key == other.key
    }
}

impl Eq for Name {
    ghost use Rattle.std.proofs.Common.{rules};
    ghost use Rattle.std.specs.Cmp.Rules.{comparing};

    ghost laws = { Prim.search (comparing, rules) };
}

impl PartialOrd for Name {
    ghost use Rattle.std.specs.Prelude.{Some};
    ghost use Rattle.std.specs.Ordering.{nat_cmp};
    ghost use Rattle.std.specs.Cmp.Lexicographic.{slice_cmp};
    ghost use Rattle.std.proofs.Common.{rules};
    ghost use Rattle.std.specs.Cmp.Rules.{comparing};

    ghost partial_cmp = { λ a b. Some (slice_cmp nat_cmp a b) };

    ghost laws = { Prim.search (comparing, rules) };

    fn partial_cmp(&self, other: &Name) -> Option<Ordering> {
        Some(self.key.cmp(&other.key))
    }
}

impl Ord for Name {
    ghost use Rattle.std.specs.Ordering.{nat_cmp};
    ghost use Rattle.std.specs.Cmp.Lexicographic.{slice_cmp};
    ghost use Rattle.std.proofs.Common.{rules};
    ghost use Rattle.std.specs.Cmp.Rules.{comparing};

    ghost cmp = { slice_cmp nat_cmp };

    ghost total = { Prim.search (comparing, rules) };

    ghost matches_partial_cmp = { Prim.search (comparing, rules) };

    ghost matches_eq = { Prim.search (comparing, rules) };

    fn cmp(&self, other: &Name) -> Ordering {
        self.key.cmp(&other.key)
    }
}

impl Hash for Name {
    ghost use Rattle.std.specs.Hash as fed;
    ghost use Rattle.std.proofs.Common.{rules};
    ghost use Rattle.std.specs.Cmp.Rules.{hashing};

    ghost hash_input = { fed.str };

    ghost respects_eq = { Prim.search (hashing, rules) };

    fn hash<H: Hasher>(&self, state: &mut H) {
        self.key.hash(state);
    }
}
