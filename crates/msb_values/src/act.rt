ghost use Rattle.std.specs.Prelude.{◌≡◌, option_copied};
ghost use Rattle.msb_values.specs.Acts.{act_path, act_bytes};

use crate::{Copied, NoMemory, Put, Text};

/// What is done to a path: a file is written there whole, or what stands there is removed. (Delete
/// task.)
pub enum Act {
    Write(Put),
    Remove(Text),
}

// A drop that is written out is proved here alone.
impl Drop for Act {
    fn drop(self) {
        match self {
            Act::Write(_) => {}
            Act::Remove(_) => {}
        }
    }
}

impl Act {
    /// The path that is written or removed.
    pub fn path(&self) -> &str
        ensures { result.now ≡ act_path self.now }
    {
        match self {
            Act::Write(put) => put.path.as_str(),
            Act::Remove(path) => path.as_str(),
        }
    }

    /// The bytes that the path then has, and none where it is removed.
    pub fn bytes(&self) -> Option<&[u8]>
        ensures { option_copied result ≡ act_bytes self.now }
    {
        match self {
            Act::Write(put) => Some(put.bytes.get().as_bytes()),
            Act::Remove(_) => None,
        }
    }
}

impl Copied for Act {
    fn copy(&self) -> Result<Act, NoMemory> {
        match self {
            Act::Write(put) => Ok(Act::Write(put.copy()?)),
            Act::Remove(path) => Ok(Act::Remove(path.copy()?)),
        }
    }
}
