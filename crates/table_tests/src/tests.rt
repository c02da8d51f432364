// What a table does on examples, over both kinds of row.
use crate::ledger::Ledger;
use crate::meter::Meter;
use crate::roll::Roll;
use crate::station::Station;
use table::{Absent, Full, Misplaced, Table};

fn meter(number: u32, reading: u32) -> Meter {
    Meter { number, reading }
}

fn station(code: u32, load: u16) -> Station {
    Station {
        load,
        most: 500,
        code,
    }
}

#[test]
fn rows_rise_whatever_the_order_of_entry(rt: HostRuntime) {
    let mut slots = [meter(0, 0); 4];
    let mut table = Table::new(&mut slots, 4);
    let put = [
        table.put(meter(30, 3)).is_ok(),
        table.put(meter(10, 1)).is_ok(),
        table.put(meter(20, 2)).is_ok(),
    ];
    assert_eq!(rt; put, [true, true, true]);
    assert_eq!(rt; [table.len(), table.free()], [3, 1]);
    assert_eq!(rt; [table.row(2), table.row(3)], [Some(meter(30, 3)), None]);
    assert_eq!(rt;
        table.as_slice(),
        [meter(10, 1), meter(20, 2), meter(30, 3)].as_slice()
    );
}

#[test]
fn a_number_is_found_where_it_stands(rt: HostRuntime) {
    let mut slots = [station(0, 0); 8];
    let mut table = Table::new(&mut slots, 8);
    for k in 0..7u32 {
        let _ = table.put(station(70 - 10 * k, 1));
    }
    assert_eq!(rt;
        [table.find(10), table.find(40), table.find(70)],
        [Some(0), Some(3), Some(6)]
    );
    assert_eq!(rt;
        [table.find(5), table.find(45), table.find(75)],
        [None, None, None]
    );
    assert_eq!(rt;
        [table.get(50), table.get(55)],
        [Some(station(50, 1)), None]
    );
}

#[test]
fn a_known_number_is_replaced_even_where_the_table_is_full(rt: HostRuntime) {
    let mut slots = [meter(0, 0); 2];
    let mut table = Table::new(&mut slots, 2);
    let put = [
        table.put(meter(1, 10)).is_ok(),
        table.put(meter(2, 20)).is_ok(),
        table.put(meter(3, 30)).is_ok(),
        table.put(meter(1, 11)).is_ok(),
    ];
    assert_eq!(rt; put, [true, true, false, true]);
    assert_eq!(rt; table.as_slice(), [meter(1, 11), meter(2, 20)].as_slice());
}

#[test]
fn slots_past_the_limit_go_unused(rt: HostRuntime) {
    let mut slots = [station(9, 9); 4];
    let mut table = Table::new(&mut slots, 2);
    let put = [
        table.put(station(2, 1)).is_ok(),
        table.put(station(1, 1)).is_ok(),
        table.put(station(3, 1)).is_ok(),
    ];
    assert_eq!(rt; put, [true, true, false]);
    assert_eq!(rt; table.free(), 0);
    assert_eq!(rt;
        slots,
        [station(1, 1), station(2, 1), station(9, 9), station(9, 9)]
    );
}

#[test]
fn a_struck_slot_serves_the_next_entry(rt: HostRuntime) {
    let mut slots = [meter(0, 0); 3];
    let mut table = Table::new(&mut slots, 3);
    let _ = table.put(meter(1, 1));
    let _ = table.put(meter(2, 2));
    let _ = table.put(meter(3, 3));
    let removed = [
        table.remove(4).is_ok(),
        table.remove(1).is_ok(),
        table.remove(1).is_ok(),
    ];
    assert_eq!(rt; removed, [false, true, false]);
    assert_eq!(rt; table.as_slice(), [meter(2, 2), meter(3, 3)].as_slice());
    assert!(rt; table.put(meter(1, 5)).is_ok());
    assert_eq!(rt;
        table.as_slice(),
        [meter(1, 5), meter(2, 2), meter(3, 3)].as_slice()
    );
}

#[test]
fn an_update_keeps_the_number(rt: HostRuntime) {
    let mut slots = [station(0, 0); 3];
    let mut table = Table::new(&mut slots, 3);
    let _ = table.put(station(7, 1));
    let _ = table.put(station(8, 1));
    let updated = [
        table.update(1, station(8, 2)).is_ok(),
        table.update(0, station(8, 3)).is_ok(),
        table.update(2, station(0, 3)).is_ok(),
    ];
    assert_eq!(rt; updated, [true, false, false]);
    assert_eq!(rt; table.as_slice(), [station(7, 1), station(8, 2)].as_slice());
}

#[test]
fn a_ledger_keeps_readings_of_four_digits(rt: HostRuntime) {
    let mut meters = [meter(0, 0); 2];
    let mut stations = [station(0, 0); 2];
    let mut ledger = Ledger::new(&mut meters, &mut stations, 1);
    let entered = [
        ledger.enter(meter(5, 10000)),
        ledger.enter(meter(5, 9999)),
        ledger.enter(meter(6, 1)),
    ];
    assert_eq!(rt; entered, [false, true, false]);
    assert_eq!(rt; ledger.meter(5), Some(meter(5, 9999)));
    assert_eq!(rt; [ledger.reset(5), ledger.reset(6)], [true, false]);
    assert_eq!(rt; ledger.meter(5), Some(meter(5, 0)));
    assert!(rt; ledger.withdraw(5).is_ok());
    assert_eq!(rt; ledger.meter(5), None);
}

#[test]
fn a_roll_keeps_its_order_whatever_its_meters_read(rt: HostRuntime) {
    let mut slots = [meter(0, 0); 3];
    let mut roll = Roll::new(&mut slots, 2);
    let entered = [
        roll.enter(meter(9, 12_345)),
        roll.enter(meter(4, 7)),
        roll.enter(meter(6, 1)),
    ];
    assert_eq!(rt; entered, [Ok(()), Ok(()), Err(Full)]);
    let corrected = [
        roll.correct(0, meter(4, 20_008)),
        roll.correct(1, meter(4, 1)),
    ];
    assert_eq!(rt; corrected, [Ok(()), Err(Misplaced)]);
    assert_eq!(rt;
        roll.meters.as_slice(),
        [meter(4, 20_008), meter(9, 12_345)].as_slice()
    );
    assert!(rt; roll.show());
    assert_eq!(rt;
        roll.meters.as_slice(),
        [meter(4, 8), meter(9, 2_345)].as_slice()
    );
    assert_eq!(rt; [roll.withdraw(9), roll.withdraw(9)], [Ok(()), Err(Absent)]);
    assert_eq!(rt; roll.meters.as_slice(), [meter(4, 8)].as_slice());
}
