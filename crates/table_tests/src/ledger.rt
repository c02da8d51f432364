// Meters and stations in tables over the caller's slots.
ghost use Rattle.table.specs.Tables.{Sound};
ghost use Rattle.table_tests.specs.Kinds.{meter_number, meter_sound, station_number, station_sound};

use crate::meter::Meter;
use crate::station::Station;
use table::Table;

// Both tables keep their rows in order, and no row has a figure past its limit.
#[derive(Drop)]
pub struct Ledger<'a> {
    pub meters: Table<'a, Meter>,
    pub stations: Table<'a, Station>,
    ghost metered: { Sound meter_number meter_sound meters },
    ghost stationed: { Sound station_number station_sound stations },
}
