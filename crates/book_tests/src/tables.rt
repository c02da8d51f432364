// Accounts settled and billed without a book around them: in a table, and in slots.
use crate::sample::{CAPACITY, FAILED};
use checks::agree;
use editions::before_nprr1149::BeforeNprr1149;
use history::account::Account;
use market::prices::{Prices, ServicePrices};
use market::resource::ResourceRow;
use settlement::billing::bill;
use settlement::settling::settle;
use settlement::tables::{bill_table, settle_table};
use std::test::Fail;
use table::Table;
use terms::refusal::Refusal;
use terms::service::Service;

// The two QSEs of the sample hour. The first failed in Reg-Down.
fn qses() -> [Account; 2] {
    let mut failing = Account::new(10, 1);
    failing.row.quantities.set(Service::RegDown, FAILED);
    [failing, Account::new(20, 2)]
}

fn sample_prices() -> Result<Prices, Refusal> {
    let mut prices = Prices::none();
    prices
        .services
        .set(Service::RegDown, ServicePrices::try_from(&CAPACITY)?);
    Ok(prices)
}

// What is settled and what is billed in Reg-Down.
fn reg_down(account: &Account) -> [(u64, u64); 2] {
    let service = Service::RegDown;
    [account.settled.of(service), account.billed.of(service)]
}

const NOTHING: (u64, u64) = (0, 0);

const FIRST: (u64, u64) = (7_700, 2_566);

const SECOND: (u64, u64) = (0, 5_134);

#[test]
fn a_table_is_settled_and_billed(_rt: HostRuntime) -> Result<(), Fail> {
    let mut slots = [Account::new(0, 0); 3];
    let mut accounts = Table::new(&mut slots, 2);
    for account in qses() {
        agree(accounts.put(account), Ok(()), format_args!("a put"))?;
    }
    let mut resource_slots = [ResourceRow::empty(); 1];
    let resources = Table::new(&mut resource_slots, 1);
    settle_table(
        &BeforeNprr1149,
        &sample_prices()?,
        &mut accounts,
        &resources,
    );
    let settled = [[FIRST, NOTHING], [SECOND, NOTHING]];
    for (account, expected) in accounts.as_slice().iter().zip(settled) {
        agree(reg_down(account), expected, format_args!("settled"))?;
    }
    bill_table(&mut accounts);
    let billed = [[FIRST, FIRST], [SECOND, SECOND]];
    for (account, expected) in accounts.as_slice().iter().zip(billed) {
        agree(reg_down(account), expected, format_args!("billed"))?;
    }
    agree(accounts.len(), 2, format_args!("the rows"))
}

#[test]
fn slots_are_settled_and_billed_up_to_a_length(_rt: HostRuntime) -> Result<(), Fail> {
    let [first, second] = qses();
    let mut slots = [first, second, Account::new(30, 5)];
    settle(&BeforeNprr1149, &sample_prices()?, &mut slots, 2, &[]);
    bill(&mut slots, 1);
    let expected = [[FIRST, FIRST], [SECOND, NOTHING], [NOTHING, NOTHING]];
    for (account, expected) in slots.iter().zip(expected) {
        agree(reg_down(account), expected, format_args!("the slots"))?;
    }
    Ok(())
}
