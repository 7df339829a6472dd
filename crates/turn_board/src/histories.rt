ghost use Rattle.std.specs.Prelude.{◌≡◌, List, length};

/// A state that knows what it was opened with, and all that was done with it since.
pub trait Histories: Drop {
    /// What stays the same over all turns. No value of it need be made.
    type World;

    /// One entry of a history. No value of it need be made.
    type Event;

    /// What the state was opened with.
    ghost world: { Self → Self.World };

    /// All that was done with the state, in order.
    ghost history: { Self → List Self.Event };

    /// The length of the history.
    fn events(&self) -> u64
        ensures { result ≡ length (history self.now) };
}
