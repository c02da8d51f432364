// What a ledger does with its meters.
ghost use Rattle.std.specs.Prelude.{◌≡◌, ◌&&◌, [], if◌then◌else◌, Some};
ghost use Rattle.table.specs.Rows.{found, known, fits, put, removed};
ghost use Rattle.table.specs.Tables.{rows, capacity};
ghost use Rattle.table_tests.specs.Kinds.{meter_number, meter_sound};

use crate::ledger::Ledger;
use crate::meter::Meter;
use crate::station::Station;
use table::{Absent, Table};

impl<'a> Ledger<'a> {
    // An empty ledger with room for at most `limit` of each kind.
    pub fn new(meters: &'a mut [Meter], stations: &'a mut [Station], limit: usize) -> Ledger<'a>
        ensures meters { rows result.meters ≡ [] }
        ensures stations { rows result.stations ≡ [] }
    {
        Ledger {
            meters: Table::new(meters, limit),
            stations: Table::new(stations, limit),
        }
    }

    // The meter of a number.
    pub fn meter(&self, number: u32) -> Option<Meter>
        ensures answer { result ≡ found meter_number number (rows self.now.meters) }
    {
        self.meters.get(number)
    }

    // Enters a meter whose reading has four digits, and says whether it did.
    pub fn enter(&mut self, meter: Meter) -> bool
        ensures answer { result ≡ (meter_sound meter && fits meter_number (capacity self.old.meters) meter.number (rows self.old.meters)) }
        ensures after { rows self.new.meters ≡ (if result then put meter_number meter (rows self.old.meters) else rows self.old.meters) }
        ensures stations { rows self.new.stations ≡ rows self.old.stations }
    {
        meter.reading <= 9999 && self.meters.put(meter).is_ok()
    }

    // Enters a meter, and then reads the meter of its number: itself, unless it was refused.
    pub fn enter_and_read(&mut self, meter: Meter) -> Option<Meter>
        ensures answer { result ≡ (if meter_sound meter && fits meter_number (capacity self.old.meters) meter.number (rows self.old.meters) then Some meter else found meter_number meter.number (rows self.old.meters)) }
    {
        let _ = self.enter(meter);
        self.meter(meter.number)
    }

    // Sets the meter of a number back to nothing, in place, and says whether there is one.
    pub fn reset(&mut self, number: u32) -> bool
        ensures answer { result ≡ known meter_number number (rows self.old.meters) }
        ensures after { rows self.new.meters ≡ (if result then put meter_number (record { number = number; reading = 0 }) (rows self.old.meters) else rows self.old.meters) }
    {
        let Some(place) = self.meters.find(number) else {
            return false;
        };
        let nothing = Meter { number, reading: 0 };
        self.meters.update(place, nothing).is_ok()
    }

    // Takes the meter of a number out.
    pub fn withdraw(&mut self, number: u32) -> Result<(), Absent>
        ensures after { rows self.new.meters ≡ removed meter_number number (rows self.old.meters) }
        ensures stations { rows self.new.stations ≡ rows self.old.stations }
    {
        self.meters.remove(number)
    }
}
