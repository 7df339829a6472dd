use crate::{Copied, NoMemory, Shared, Text, Text8};

/// A file that is to be written whole: its path from the root of the store, and its bytes, which
/// copies share.
pub struct Put {
    pub path: Text,
    pub bytes: Shared<Text8>,
}

// A drop that is written out is proved here alone.
impl Drop for Put {
    fn drop(self) {
        let Put { path: _, bytes: _ } = self;
    }
}

impl Copied for Put {
    fn copy(&self) -> Result<Put, NoMemory> {
        Ok(Put {
            path: self.path.copy()?,
            bytes: self.bytes.copy()?,
        })
    }
}
