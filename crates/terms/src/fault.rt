// Where and why a feed ended before its last word.
ghost use Rattle.std.specs.Prelude.{◌≡◌};
ghost use Rattle.terms.specs.Refusals.{layer_number};

use crate::refusal::Refusal;

// What turned the feed down: its words, its groups, or the book.
#[derive(Clone, Copy, PartialEq, Eq, Debug)]
pub enum Layer {
    Words = 1,
    Groups = 2,
    Book = 3,
}

// The number that stands for a layer outside the program.
impl From<Layer> for u8 {
    ghost from_gives = { λ layer number. number ≡ layer_number layer };

    fn from(layer: Layer) -> u8 {
        layer as u8
    }
}

#[derive(Clone, Copy, PartialEq, Eq, Debug)]
pub struct Fault {
    pub refusal: Refusal,
    pub layer: Layer,
    // of the word, counted from 0
    pub index: usize,
}
