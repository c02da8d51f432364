// The calls that only look: what is billed to a QSE in a service, and what an open draft would add to it.
ghost use Rattle.std.specs.Prelude.{◌≡◌, true, IfOk};
ghost use Rattle.market.specs.Answers.{plainly};
ghost use Rattle.history.specs.Accounts.{account_sound};
ghost use Rattle.history.specs.Calls.{asked as asked_of, read as read_of, preview as preview_of};
ghost use Rattle.book.specs.View.{view, both, in_cents};

use crate::book::Book;
use crate::draft::Draft;
use admission::drafts::tested_draft;
use admission::letters::asked_service;
use history::account::Account;
use market::units::Cents;
use settlement::billing::difference;
use terms::refusal::Refusal;
use terms::service::Service;

impl Book<'_> {
    // The account of an enrolled QSE, and the service of a letter. Both are given raw, as to each call of the book.
    fn asked(&self, qse: u32, letter: char) -> Result<(Service, Account), Refusal>
        ensures answer { result ≡ asked_of (view self.now) qse letter both }
        ensures sound { IfOk result (λ x. account_sound x.1 ≡ true) }
    {
        let service = asked_service(qse, letter)?;
        match self.accounts.get(qse) {
            Some(account) => Ok((service, account)),
            None => Err(Refusal::NotEnrolled),
        }
    }

    // What the statements issued have billed to a QSE in the service of a letter: charge and credit.
    pub fn read(
        &self,
        qse: u32,
        letter: char,
    ) -> Result<(Cents<6_400_000_000_000>, Cents<6_400_000_000_000>), Refusal>
        ensures answer { plainly in_cents result ≡ read_of (view self.now) qse letter }
    {
        let (service, account) = self.asked(qse, letter)?;
        let (charge, credit) = account.billed.of(service);
        Ok((Cents { value: charge }, Cents { value: credit }))
    }

    // What the issue of the draft that carries this number would add: charge and credit.
    fn previewed(&self, carried: u32, qse: u32, letter: char) -> Result<(i64, i64), Refusal>
        ensures answer { result ≡ preview_of (view self.now) carried qse letter }
    {
        tested_draft(carried, self.number, self.drafted)?;
        let (service, account) = self.asked(qse, letter)?;
        let settled = account.settled.of(service);
        let billed = account.billed.of(service);
        Ok(difference(settled, billed))
    }

    // What the issue of this draft will add for a QSE in the service of a letter: charge and credit. The draft stays.
    pub fn preview(&self, draft: &Draft, qse: u32, letter: char) -> Result<(i64, i64), Refusal>
        ensures answer { result ≡ preview_of (view self.now) draft.now.book qse letter }
    {
        self.previewed(draft.book, qse, letter)
    }
}
