ghost use Rattle.std.specs.Prelude.{◌≡◌, ℕ};

// A row with a weight.
pub trait Weighted {
    // What the row weighs.
    ghost weight: { Self → ℕ };

    fn weigh(&self) -> u32
        ensures answer { result ≡ weight self.now };
}
