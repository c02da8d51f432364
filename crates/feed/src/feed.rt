// Feeding words to a book.
ghost use Rattle.std.specs.Prelude.{◌≡◌, ◌++◌};
ghost use Rattle.history.specs.Histories.{History, Lived};
ghost use Rattle.book.specs.View.{view};
ghost use Rattle.feed.specs.Feeding.{feeding};

use crate::groups::Group;
use book::book::Book;
use terms::fault::Fault;

// Makes the words' groups as calls of the book, in their order, and answers how many there were.
pub fn feed(book: &mut Book, words: &[u32]) -> Result<usize, Fault>
    ensures answer { result ≡ (feeding words.now (view book.old)).answer }
    ensures after { view book.new ≡ (feeding words.now (view book.old)).left }
    ensures history { (h : History) → Lived h (view book.old) → Lived ((feeding words.now (view book.old)).made ++ h) (view book.new) }
    ensures rests { ((view book.new).number ≡ (view book.old).number) × ((view book.new).drafted ≡ (view book.old).drafted) }
{
    let mut left = words;
    // counted by hand: slice patterns give no iterator, and one of groups would only hide `left` and the index
    let mut groups = 0;
    while let [head, rest @ ..] = left {
        let index = words.len() - left.len();
        let count = Group::read(index, *head, rest)?.make(book)?;
        left = &rest[count..];
        groups += 1;
    }
    Ok(groups)
}
