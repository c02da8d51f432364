// A statement issued at once, for callers that look at no draft.
ghost use Rattle.std.specs.Prelude.{◌≡◌};
ghost use Rattle.history.specs.Calls.{answer as answer_of, draft as draft_call};
ghost use Rattle.book.specs.View.{view, said};
ghost use Rattle.running.specs.Issued.{issued_under};

use book::book::Book;
use editions::edition::Edition;
use terms::refusal::Refusal;

// Takes a draft under an edition and issues it; it is refused where a draft is open.
pub fn issue_under<E: Edition>(book: &mut Book, edition: &E) -> Result<(), Refusal>
    ensures answer { said result ≡ answer_of (view book.old) (draft_call (E.Edition.meaning edition.now)) }
    ensures after { view book.new ≡ issued_under (E.Edition.meaning edition.now) (view book.old) }
{
    let draft = book.draft(edition)?;
    match book.issue(draft) {
        Ok(()) => Ok(()),
        // a draft just taken carries its book's number, and is open
        Err(_) => unreachable(),
    }
}
