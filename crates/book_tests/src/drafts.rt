// Drafts that end: each is issued or dropped by a book that is known to take it.
ghost use Rattle.std.specs.Prelude.{◌≡◌, true};
ghost use Rattle.book_tests.specs.Open.{Takes, Rests};

use book::book::Book;
use book::draft::Draft;
use editions::edition::Edition;
use terms::refusal::Refusal;

// Issues a draft that the book takes. It and the next stay two: one over a closure would have to say for both what the
// closure answers and leaves.
pub(crate) fn issue_open(book: &mut Book, draft: Draft)
    requires open { Takes book.old draft }
{
    match book.issue(draft) {
        Ok(()) => {}
        Err(_) => unreachable(),
    }
}

// Drops a draft that the book takes.
pub(crate) fn drop_open(book: &mut Book, draft: Draft)
    requires open { Takes book.old draft }
{
    match book.drop(draft) {
        Ok(()) => {}
        Err(_) => unreachable(),
    }
}

// Takes a draft under an edition and drops it at once.
pub(crate) fn drop_under<E: Edition>(book: &mut Book, edition: &E) -> Result<(), Refusal> {
    let draft = book.draft(edition)?;
    drop_open(book, draft);
    Ok(())
}

// The refusal of a second draft while one is open.
pub(crate) fn second_draft<E: Edition>(book: &mut Book, edition: &E) -> Refusal
    requires open { book.old.drafted ≡ true }
    ensures rests { Rests book.old book.new }
{
    match book.draft(edition) {
        Ok(_) => unreachable(),
        Err(refusal) => refusal,
    }
}
