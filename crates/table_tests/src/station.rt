// A station with its load and the most that it can take.
ghost use Rattle.std.specs.Prelude.{nat_le};

use table::Numbered;

#[derive(Clone, Copy, PartialEq, Debug)]
pub struct Station {
    pub load: u16,
    pub most: u16,
    pub code: u32,
}

impl Numbered for Station {
    ghost number = { λ s. s.code };

    ghost sound = { λ s. nat_le s.load s.most };

    fn key(&self) -> u32 {
        self.code
    }
}
