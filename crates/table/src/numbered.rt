// What a row is to a table: it has a number, and figures that lie within their limits or not.
ghost use Rattle.std.specs.Prelude.{◌≡◌, ℕ, Bool};

pub trait Numbered: Copy {
    // The row's number.
    ghost number: { Self → ℕ };

    // Whether the row's figures lie within their limits.
    ghost sound: { Self → Bool };

    // The number, by which a table keeps the row.
    fn key(&self) -> u32
        ensures answer { result ≡ number self.now };
}
