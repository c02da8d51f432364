// The law over every history of calls on a book, on a contract.
ghost use Rattle.std.specs.Prelude.{◌≡◌, ℕ, ◌<◌, ◌⊎◌, pos, Some};
ghost use Rattle.terms.specs.declared.class.Class.{Class};
ghost use Rattle.market.specs.Shapes.{BareFigures};
ghost use Rattle.terms.specs.declared.service.Service.{Service};
ghost use Rattle.editions.specs.Meaning.{Meaning};
ghost use Rattle.history.specs.Calls.{State};
ghost use Rattle.history.specs.Histories.{History, Lived, last_issue, load_of, rows, billed_of};
ghost use Rattle.history.specs.Law.{Balanced, NoIssue, SomeLoad, NobodyCharged, BalanceLaw, PutUnder, SameQses, SamePrices, RowsMatch, SameBills, DistinctionLaw, EveryEdition, ReadLaw, StatementLaw};

// How many laws bind every book; they are its contract.
pub fn laws() -> u8
    ensures answer { result ≡ 5 }
    ensures balance { BalanceLaw }
    ensures distinction { DistinctionLaw }
    ensures editions { EveryEdition }
    ensures reading { ReadLaw }
    ensures statements { StatementLaw }
{
    5
}
