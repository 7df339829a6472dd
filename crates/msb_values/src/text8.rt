ghost use Rattle.std.specs.Prelude.{◌≡◌, ◌==◌, ◌++◌, [], length, IfOk, OnOk, OnErr};

use crate::{Copied, NoMemory};
use std::alloc::Global;
use std::marker::Model;

/// Bytes, as a file has them.
pub struct Text8 {
    bytes: Vec<u8>,
}

// A drop that is written out is proved here alone.
impl Drop for Text8 {
    fn drop(self) {
        let Text8 { bytes: _ } = self;
    }
}

impl Model for Text8 {
    ghost use Rattle.std.specs.Prelude.{ℕ, List};

    ghost Value = { List ℕ };

    ghost view = { λ t. t.bytes.items };
}

impl Text8 {
    pub fn new(alloc: Global) -> Text8
        ensures { result ≡ [] }
    {
        Text8 {
            bytes: Vec::new(alloc),
        }
    }

    pub fn of(alloc: Global, bytes: &[u8]) -> Result<Text8, NoMemory>
        ensures { IfOk result (λ t. t ≡ bytes.now) }
    {
        Ok(Text8 {
            bytes: Vec::from_slice(alloc, bytes)?,
        })
    }

    pub fn as_bytes(&self) -> &[u8]
        ensures { result.now ≡ self.now }
    {
        &self.bytes
    }

    pub fn len(&self) -> usize
        ensures { result ≡ length self.now }
    {
        self.bytes.len()
    }

    pub fn is_empty(&self) -> bool
        ensures { result ≡ (length self.now == 0) }
    {
        self.bytes.is_empty()
    }

    /// Adds bytes at the end; where there is no memory, they stay as they were.
    pub fn push_bytes(&mut self, more: &[u8]) -> Result<(), NoMemory>
        ensures ok { OnOk result (self.new ≡ self.old ++ more.now) }
        ensures err { OnErr result (self.new ≡ self.old) }
    {
        self.bytes.extend_from_slice(more)?;
        Ok(())
    }
}

impl From<Vec<u8>> for Text8 {
    ghost from_gives = { λ v t. t ≡ v.items };

    fn from(bytes: Vec<u8>) -> Text8 {
        Text8 { bytes }
    }
}

impl Copied for Text8 {
    fn copy(&self) -> Result<Text8, NoMemory> {
        Ok(Text8 {
            bytes: self.bytes.clone()?,
        })
    }
}
