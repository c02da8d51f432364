// A meter with what it reads.
ghost use Rattle.std.specs.Prelude.{nat_le};

use table::Numbered;

#[derive(Clone, Copy, PartialEq, Debug)]
pub struct Meter {
    pub number: u32,
    pub reading: u32,
}

impl Numbered for Meter {
    ghost number = { λ m. m.number };

    // A meter has four digits.
    ghost sound = { λ m. nat_le m.reading 9999 };

    fn key(&self) -> u32 {
        self.number
    }
}
