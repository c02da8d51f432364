// The calls that open a book, and that take, issue and drop its drafts.
ghost use Rattle.std.specs.Prelude.{◌≡◌, ◌≤◌, false, [], ◌∷◌, length, IfOk};
ghost use Rattle.table.specs.Rows.{AllSound};
ghost use Rattle.history.specs.Accounts.{account_kept};
ghost use Rattle.history.specs.Called.{Called};
ghost use Rattle.history.specs.Calls.{opened as opened_state, draft as draft_call, issue as issue_call, drop as drop_call};
ghost use Rattle.history.specs.Histories.{History, Lived};
ghost use Rattle.history.specs.Law.{LawAt};
ghost use Rattle.book.specs.View.{view, said, said_back, stated_back, HandsBack};

use crate::book::Book;
use crate::draft::Draft;
use admission::drafts::tested_draft;
use editions::edition::Edition;
use history::account::Account;
use market::prices::Prices;
use market::resource::ResourceRow;
use settlement::tables::{bill_table, settle_table};
use table::Table;
use terms::refusal::Refusal;

impl<'a> Book<'a> {
    // A book with this number and no rows; slots beyond 64 and 256 go unused.
    pub fn opened(
        number: u32,
        qses: &'a mut [Account],
        resources: &'a mut [ResourceRow],
    ) -> Book<'a>
        ensures answer { view result ≡ opened_state number (length qses.old) (length resources.old) }
        ensures history { Lived [] (view result) }
    {
        Book {
            number,
            accounts: Table::new(qses, 64),
            resources: Table::new(resources, 256),
            prices: Prices::none(),
            drafted: false,
            issued: false,
        }
    }

    // Settles the rows under an edition; the rows rest until the draft is issued or dropped.
    pub fn draft<E: Edition>(&mut self, edition: &E) -> Result<Draft, Refusal>
        ensures called { Called (view self.old) (draft_call (E.Edition.meaning edition.now)) (said result) (view self.new) }
        ensures carries { IfOk result (λ d. d.book ≡ self.old.number) }
        ensures unspent { IfOk result (λ d. d.spent ≡ false) }
    {
        if self.drafted {
            return Err(Refusal::DraftOpen);
        }
        let prices = self.prices;
        settle_table(edition, &prices, &mut self.accounts, &self.resources);
        self.drafted = true;
        Ok(Draft {
            book: self.number,
            spent: false,
        })
    }

    // Takes the draft; nothing is billed. Beside `issue` no twin: what they do once the draft is theirs differs.
    pub fn drop(&mut self, draft: Draft) -> Result<(), (Refusal, Draft)>
        ensures called { Called (view self.old) (drop_call draft.book) (said_back result) (view self.new) }
        ensures back { HandsBack draft result }
    {
        match tested_draft(draft.book, self.number, self.drafted) {
            Err(refusal) => Err((refusal, draft)),
            Ok(()) => {
                draft.spend();
                self.drafted = false; // and nothing is billed
                Ok(())
            }
        }
    }

    // Makes the statement of the draft and takes it: what was settled is billed.
    pub fn issue(&mut self, draft: Draft) -> Result<(), (Refusal, Draft)>
        ensures called { Called (view self.old) (issue_call draft.book) (stated_back result (view self.new)) (view self.new) }
        ensures back { HandsBack draft result }
        ensures law { (h : History) → Lived h (view self.old) → LawAt ((issue_call draft.book, stated_back result (view self.new)) ∷ h) }
    {
        match tested_draft(draft.book, self.number, self.drafted) {
            Err(refusal) => Err((refusal, draft)),
            Ok(()) => {
                draft.spend();
                bill_table(&mut self.accounts);
                self.drafted = false;
                self.issued = true;
                Ok(())
            }
        }
    }

    // The number that the book was opened with.
    pub fn number(&self) -> u32
        ensures answer { result ≡ (view self.now).number }
    {
        self.number
    }

    // Whether a statement was issued.
    pub fn issued(&self) -> bool
        ensures answer { result ≡ (view self.now).issued }
    {
        self.issued // an open draft alone is no statement
    }

    // The accounts in rising order of QSE number; each line is that of the last statement.
    pub fn accounts(&self) -> &[Account]
        ensures answer { result.now ≡ (view self.now).qses }
        ensures kept { AllSound account_kept result.now }
        ensures few { length result.now ≤ 64 }
    {
        self.accounts.as_slice()
    }
}
