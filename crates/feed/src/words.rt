// Words of a feed: made of bytes, and what a word says.
ghost use Rattle.std.specs.Prelude.{◌≡◌, min, ◌++◌, length, take, drop};
ghost use Rattle.feed.specs.Words.{words_of, kind_of, value_of};

// Makes whole little-endian words of the bytes, as many as there is room for, and answers how many.
pub fn words_of(bytes: &[u8], words: &mut [u32]) -> usize
    ensures answer { result ≡ min (length (words_of bytes.now)) (length words.old) }
    ensures after { words.new ≡ take (length words.old) (words_of bytes.now) ++ drop result words.old }
{
    let (whole, _) = bytes.as_chunks();
    // no `zip` with the fours: nothing is known of the words after a loop over `iter_mut().zip(..)`, `after` stays open
    for (made, word) in words.iter_mut().enumerate() {
        let Some(four) = whole.get(made) else {
            return made;
        };
        *word = u32::from_le_bytes(*four);
    }
    words.len()
}

// The kind of a word, its top four bits.
pub(crate) fn kind_of(word: u32) -> u32
    ensures answer { result ≡ kind_of word }
{
    word >> 28
}

// The value of a word, its other 28 bits.
pub(crate) fn value_of(word: u32) -> u32
    ensures answer { result ≡ value_of word }
{
    word & 0xfff_ffff
}
