ghost use Rattle.std.specs.Prelude.{◌≡◌, ◌↔◌, true};

/// Which values may stand under a key, in a world.
pub trait Fits<K: Eq, V, W> {
    /// The value fits the key in the world.
    ghost fits: { W → K → V → Type 0 };

    // What fits a key fits the keys that are equal to it.
    ghost equal_keys: { (world : W) (one other : K) (value : V) → K.eq one other ≡ true →
        fits world one value ↔ fits world other value };
}
