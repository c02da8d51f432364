// How long the text of a book's last statement can be.
ghost use Rattle.book.specs.View.{view};
ghost use Rattle.statement.specs.Output.{LengthAnswer};

use crate::statement::put_book;
use arrayvec::ArrayString;
use book::book::Book;
use terms::refusal::Refusal;

// A number of bytes in which the book's last statement fits, the lines not looked at.
pub fn length(book: &Book) -> Result<usize, Refusal>
    ensures answer { LengthAnswer (view book.now) result }
{
    if !book.issued() {
        return Err(Refusal::NothingIssued);
    }
    let mut first = ArrayString::<16>::new();
    put_book(&mut first, book.number());
    // five lines of at most 38 bytes to a QSE, and 42 for the last line
    Ok(first.len() + 5 * 38 * book.accounts().len() + 42)
}
