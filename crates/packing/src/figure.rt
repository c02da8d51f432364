// The figures of a feed.
ghost use Rattle.std.specs.Prelude.{◌<◌};

// A number that a word's 28 bits hold.
#[derive(Clone, Copy)]
pub struct Figure {
    pub value: u32,
    ghost within: { value < 268435456 },
}
