ghost use Rattle.std.specs.Prelude.{◌≡◌};

/// What becomes of a key.
pub trait Change<K> {
    ghost changed: { Self → K → K };

    fn make(self, key: &mut K)
        ensures { key.new ≡ changed self key.old };
}
