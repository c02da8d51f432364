// The slots that a caller lends to its book.
ghost use Rattle.std.specs.Prelude.{◌≡◌, [], replicate};
ghost use Rattle.market.specs.Bare.{empty_row};
ghost use Rattle.history.specs.Calls.{opened as opened_state, new_account};
ghost use Rattle.history.specs.Histories.{Lived};
ghost use Rattle.book.specs.View.{view};

use book::book::Book;
use history::account::Account;
use market::resource::ResourceRow;

#[derive(Clone, Copy)]
pub struct Slots<const QSES: usize, const RESOURCES: usize> {
    pub qses: [Account; QSES],
    pub resources: [ResourceRow; RESOURCES],
}

impl<const QSES: usize, const RESOURCES: usize> Slots<QSES, RESOURCES> {
    // Slots that were never used.
    pub fn empty() -> Slots<QSES, RESOURCES>
        ensures qses { result.qses ≡ replicate QSES (new_account 0 0) }
        ensures resources { result.resources ≡ replicate RESOURCES empty_row }
    {
        Slots {
            qses: [Account::new(0, 0); QSES],
            resources: [ResourceRow::empty(); RESOURCES],
        }
    }

    // A book with this number and no rows, whatever lies in the slots.
    pub fn open(&mut self, number: u32) -> Book<'_>
        ensures answer { view result ≡ opened_state number QSES RESOURCES }
        ensures history { Lived [] (view result) }
    {
        Book::opened(number, &mut self.qses, &mut self.resources)
    }
}
