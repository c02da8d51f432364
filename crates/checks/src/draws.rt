// Figures that look drawn, and are the same in every run: a linear congruential generator.
ghost use Rattle.std.specs.Prelude.{◌≡◌, ◌/◌, ◌^◌};
ghost use Rattle.checks.specs.Draws.{next_state};

#[derive(Drop)]
pub struct Draws {
    pub state: u64,
}

impl Draws {
    // The next draw: the upper bits of the state, since the lower ones repeat soon.
    pub fn draw(&mut self) -> u64
        ensures state { self.new.state ≡ next_state self.old.state }
        ensures answer { result ≡ self.new.state / 2 ^ 33 }
    {
        self.state = self
            .state
            .wrapping_mul(6_364_136_223_846_793_005)
            .wrapping_add(1_442_695_040_888_963_407);
        self.state >> 33
    }
}
