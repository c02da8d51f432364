// The book of one Operating Hour, over slots that its caller lends.
ghost use Rattle.std.specs.Prelude.{◌≤◌};
ghost use Rattle.history.specs.Accounts.{account_sound, account_kept};
ghost use Rattle.history.specs.Calls.{qse_of, resource_of};
ghost use Rattle.market.specs.Limits.{resource_sound};
ghost use Rattle.table.specs.Rows.{AllSound};
ghost use Rattle.table.specs.Tables.{Sound, rows, capacity};

use history::account::Account;
use market::prices::Prices;
use market::resource::ResourceRow;
use table::Table;

#[derive(Drop)]
pub struct Book<'a> {
    pub(crate) number: u32,
    pub(crate) accounts: Table<'a, Account>,
    pub(crate) resources: Table<'a, ResourceRow>,
    pub(crate) prices: Prices,
    // two flags and no enum of four stages, which would be no plainer: a call looks at one of them alone
    pub(crate) drafted: bool,
    pub(crate) issued: bool,
    // rows lie within the slots, rise in number and keep their limits
    ghost accounting: { Sound qse_of account_sound accounts },
    ghost resourcing: { Sound resource_of resource_sound resources },
    // and accounts have only what drafts settled and statements said
    ghost keeping: { AllSound account_kept (rows accounts) },
    // slots beyond 64 and 256 go unused
    ghost few_qses: { capacity accounts ≤ 64 },
    ghost few_resources: { capacity resources ≤ 256 },
}
