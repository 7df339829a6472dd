ghost use Rattle.std.specs.Prelude.{
  ◌≡◌,
  ◌≤◌,
  ◌↔◌,
  [],
  Some,
  Err,
  IfOk,
  IsErr,
  OnOk,
  OnErr,
  vec_capacity,
  vec_len,
  length,
  is_err,
  if◌then◌else◌,
};
ghost use Rattle.msb_laws.specs.Faults.{HasCause};
ghost use Rattle.msb_laws.specs.Gains.{Appends, AppendsFront};
ghost use Rattle.file_store.specs.declared.memory_sink.TheConstants.{ROOM};
ghost use Rattle.file_store.specs.declared.sink.SinkError.TheVariants.{Failed};

use crate::{Sink, SinkError};
use msb_values::NoMemory;
use std::alloc::Global;

/// How many bytes a sink in memory holds: 64 MiB.
pub const ROOM: usize = 64 << 20;

/// A sink in memory, which tells its bytes.
#[derive(Drop)]
pub struct MemSink {
    bytes: Vec<u8>,
    fail_at: Option<u64>,
    calls: u64,
    faults: u64,
    ghost room: { ROOM ≤ vec_capacity bytes },
    ghost fits: { vec_len bytes ≤ ROOM },
}

impl MemSink {
    ghost use Rattle.file_store.specs.MemorySink.{IsNewSink, bytes_in};

    /// A sink that holds no bytes yet. Its room is taken here. Its writes are numbered from 0, and
    /// the one of the number `fail_at` is to fail.
    pub fn new(alloc: Global, fail_at: Option<u64>) -> Result<MemSink, NoMemory>
        ensures { IfOk result (IsNewSink fail_at) }
    {
        Ok(MemSink {
            bytes: Vec::with_capacity(alloc, ROOM)?,
            fail_at,
            calls: 0,
            faults: 0,
        })
    }

    /// The bytes so far.
    pub fn bytes(&self) -> &[u8]
        ensures { result.now ≡ bytes_in self.now }
    {
        &self.bytes
    }
}

impl Sink for MemSink {
    ghost use Rattle.file_store.specs.MemorySink.{IsRefused, CountsWrite, bytes_in};

    ghost seen = { λ s. record { bytes = Some (bytes_in s); fault_count = s.faults } };

    /// It fails at its one number and where the piece doesn't fit, and nowhere else; it then takes
    /// nothing.
    fn write(&mut self, piece: &[u8]) -> Result<(), SinkError>
        ensures whole { OnOk result
            (Appends (Some (bytes_in self.old)) (Some (bytes_in self.new)) piece.now) }
        ensures part { OnErr result
            (AppendsFront (Some (bytes_in self.old)) (Some (bytes_in self.new)) piece.now) }
        ensures cause { HasCause Failed self.old.faults self.new.faults result }
        ensures refused { IsErr result ↔ IsRefused self.old piece.now }
        ensures nothing { OnErr result (bytes_in self.new ≡ bytes_in self.old) }
        ensures counts { CountsWrite (is_err result) self.old self.new }
    {
        let call = self.calls;
        self.calls = self.calls.saturating_add(1);
        if self.fail_at == Some(call)
            || piece.len() > ROOM - self.bytes.len()
            || self.bytes.extend_from_slice(piece).is_err()
        {
            self.faults = self.faults.saturating_add(1);
            return Err(SinkError::Failed);
        }
        Ok(())
    }

    fn faults(&self) -> u64 {
        self.faults
    }
}
