ghost use Rattle.std.specs.Prelude.{◌≡◌, None};

use file_store::{Sink, SinkError};
use std::io::{self, Write};

/// Standard output. It tells nothing.
#[derive(Drop)]
pub struct OutSink<'a, R: Print> {
    rt: &'a R,
    faults: u64,
}

impl<'a, R: Print> OutSink<'a, R> {
    pub fn new(rt: &'a R) -> OutSink<'a, R>
        ensures { result.faults ≡ 0 }
    {
        OutSink { rt, faults: 0 }
    }
}

impl<'a, R: Print> Sink for OutSink<'a, R> {
    ghost seen = { λ s. record { bytes = None; fault_count = s.faults } };

    fn write(&mut self, piece: &[u8]) -> Result<(), SinkError> {
        match print_all(self.rt, piece) {
            Ok(()) => Ok(()),
            Err(_) => {
                self.faults = self.faults.saturating_add(1);
                Err(SinkError::Failed)
            }
        }
    }

    fn faults(&self) -> u64 {
        self.faults
    }
}

fn print_all<R: Print>(rt: &R, piece: &[u8]) -> io::Result<()> {
    let mut writer = io::writer(rt);
    writer.write_all(piece)?;
    writer.flush()
}
