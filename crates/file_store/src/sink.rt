ghost use Rattle.std.specs.Prelude.{◌≡◌, OnOk, OnErr};
ghost use Rattle.msb_laws.specs.Faults.{HasCause};
ghost use Rattle.msb_laws.specs.Gains.{Appends, AppendsFront};
ghost use Rattle.file_store.specs.Seen.{SinkSeen};
ghost use Rattle.file_store.specs.declared.sink.SinkError.TheVariants.{Failed};

/// Why a sink has not taken a piece.
#[derive(Clone, Copy, Debug, PartialEq, Eq)]
pub enum SinkError {
    /// The sink failed, and has counted it.
    Failed,
}

/// What takes bytes. It may tell the bytes that it has taken.
pub trait Sink {
    /// The bytes, where the sink tells them, and how often it has failed.
    ghost seen: { Self → SinkSeen };

    /// Appends a piece: the whole of it, or where the sink fails a front of it.
    fn write(&mut self, piece: &[u8]) -> Result<(), SinkError>
        ensures whole { OnOk result
            (Appends (seen self.old).bytes (seen self.new).bytes piece.now) }
        ensures part { OnErr result
            (AppendsFront (seen self.old).bytes (seen self.new).bytes piece.now) }
        ensures cause { HasCause Failed (seen self.old).fault_count (seen self.new).fault_count
            result };

    /// How often it has failed, up to 2^64 - 1.
    fn faults(&self) -> u64
        ensures { result ≡ (seen self.now).fault_count };
}
