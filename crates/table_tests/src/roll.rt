// Meters in rising order of number, whatever they read: a roll keeps what a table keeps of its own, and no limit.
ghost use Rattle.std.specs.Prelude.{◌≡◌, ◌↔◌, IsTrue, [], map, if◌then◌else◌, Ok, Err};
ghost use Rattle.std.specs.List.{slice_get};
ghost use Rattle.table.specs.Rows.{AllSound, fits, known, holds, put, removed};
ghost use Rattle.table.specs.Tables.{InOrder, Sound, rows, capacity, full, absent, misplaced};
ghost use Rattle.table_tests.specs.Kinds.{meter_number, meter_sound};

use crate::meter::Meter;
use table::{Absent, Full, Misplaced, Revision, Table};

#[derive(Drop)]
pub(crate) struct Roll<'a> {
    pub(crate) meters: Table<'a, Meter>,
    ghost ordered: { InOrder meter_number meters },
}

// A meter of four digits goes on from 0 after 9999: what it has read altogether becomes what it shows.
struct Showing;

impl Revision<Meter> for Showing {
    // A sound meter shows what it reads.
    ghost revised = { λ _ _ m. m };

    fn revise(&self, _place: usize, meter: &mut Meter) {
        meter.reading %= 10000;
    }
}

// Whether every meter has four digits.
fn all_show(meters: &[Meter]) -> bool
    ensures answer { IsTrue result ↔ AllSound meter_sound meters.now }
{
    meters.iter().all(|meter| meter.reading <= 9999)
}

impl<'a> Roll<'a> {
    // An empty roll with room for at most `limit` meters.
    pub(crate) fn new(slots: &'a mut [Meter], limit: usize) -> Roll<'a>
        ensures after { rows result.meters ≡ [] }
    {
        Roll {
            meters: Table::new(slots, limit),
        }
    }

    // Enters a meter, whatever it reads.
    pub(crate) fn enter(&mut self, meter: Meter) -> Result<(), Full>
        ensures answer { result ≡ (if fits meter_number (capacity self.old.meters) meter.number (rows self.old.meters) then Ok tt else Err full) }
        ensures after { rows self.new.meters ≡ (if fits meter_number (capacity self.old.meters) meter.number (rows self.old.meters) then put meter_number meter (rows self.old.meters) else rows self.old.meters) }
    {
        self.meters.put(meter)
    }

    // Puts another reading of the meter at a place, whatever it is.
    pub(crate) fn correct(&mut self, place: usize, meter: Meter) -> Result<(), Misplaced>
        ensures answer { result ≡ (if holds meter_number meter.number (slice_get (rows self.old.meters) place) then Ok tt else Err misplaced) }
        ensures after { rows self.new.meters ≡ (if holds meter_number meter.number (slice_get (rows self.old.meters) place) then put meter_number meter (rows self.old.meters) else rows self.old.meters) }
    {
        self.meters.update(place, meter)
    }

    // Takes the meter of a number out.
    pub(crate) fn withdraw(&mut self, number: u32) -> Result<(), Absent>
        ensures answer { result ≡ (if known meter_number number (rows self.old.meters) then Ok tt else Err absent) }
        ensures after { rows self.new.meters ≡ removed meter_number number (rows self.old.meters) }
    {
        self.meters.remove(number)
    }

    // Makes of every meter what it shows, and says whether the roll is now a table of sound meters.
    pub(crate) fn show(&mut self) -> bool
        ensures numbers { map meter_number (rows self.new.meters) ≡ map meter_number (rows self.old.meters) }
        ensures sound { IsTrue result ↔ Sound meter_number meter_sound self.new.meters }
    {
        self.meters.revise(&Showing);
        all_show(self.meters.as_slice())
    }
}
