ghost use Rattle.std.specs.Prelude.{◌≡◌, ℕ, List};
ghost use Rattle.msb_paths.specs.Presence.{is_there};

/// A view of files, as the function Exists of a condition asks it.
pub trait Present {
    /// The paths of the files that the object holds.
    ghost files: { Self → List (List ℕ) };

    /// Whether a file stands at a path or below it. Takes no memory.
    fn there(&self, path: &str) -> bool
        ensures { result ≡ is_there (files self.now) path.now };
}
