// A table of rows over the caller's slots. The first `len` slots hold the rows, in rising order of number;
// what the others hold is never read. No call asks anything of its caller: what holds only where the rows rise is
// promised under that premise, and a struct around the table keeps it as a fact of its own (`Sound`, or `InOrder` where
// figures may be any).
ghost use Rattle.std.specs.Prelude.{◌≡◌, ◌-◌, ◌≤◌, min, true, [], map, length, if◌then◌else◌, Some, None, Ok, Err, IfSome};
ghost use Rattle.std.specs.List.{slice_get};
ghost use Rattle.table.specs.Rows.{Rising, AllSound, found, known, rank, holds, fits, put, removed, revised};
ghost use Rattle.table.specs.Tables.{rows, capacity, InOrder, Sound, full, absent, misplaced};

use crate::numbered::Numbered;
use crate::revision::Revision;
use crate::slots::{insert, locate, revise_each, strike};
use thiserror::Error;

// Rows in rising order of number, in slots that the caller lends. A buffer with a length beside it, since a library
// here allocates nothing. The fields are public and the type keeps no invariant: who has rows in slots makes a table of
// them, and a narrower type would ask more of such a caller.
#[derive(Drop)]
pub struct Table<'a, R> {
    pub slots: &'a mut [R],
    pub len: usize,
}

// The number is new, and every usable slot holds a row.
#[derive(Clone, Copy, PartialEq, Eq, Debug, Error)]
#[error("every slot holds a row")]
pub struct Full;

// No row has the number.
#[derive(Clone, Copy, PartialEq, Eq, Debug, Error)]
#[error("no row has the number")]
pub struct Absent;

// The place holds no row of the number.
#[derive(Clone, Copy, PartialEq, Eq, Debug, Error)]
#[error("the place holds no row of the number")]
pub struct Misplaced;

impl<'a, R: Numbered> Table<'a, R> {
    // An empty table over the first `limit` of the caller's slots, or over all where there are fewer.
    pub fn new(slots: &'a mut [R], limit: usize) -> Table<'a, R>
        ensures after { rows result ≡ [] }
        ensures capacity { capacity result ≡ min limit (length slots.old) }
        ensures sound { Sound R.Numbered.number R.Numbered.sound result }
    {
        let usable = limit.min(slots.len());
        Table {
            slots: &mut slots[0..usable],
            len: 0,
        }
    }

    // The rows, in rising order of number.
    pub fn as_slice(&self) -> &[R]
        ensures answer { result.now ≡ rows self.now }
        ensures within { length result.now ≤ capacity self.now }
    {
        let used = self.len.min(self.slots.len());
        &self.slots[0..used]
    }

    // How many rows there are.
    pub fn len(&self) -> usize
        ensures answer { result ≡ length (rows self.now) }
        ensures within { result ≤ capacity self.now }
    {
        self.as_slice().len()
    }

    // How many more rows fit.
    pub fn free(&self) -> usize
        ensures answer { result ≡ capacity self.now - length (rows self.now) }
    {
        self.slots.len() - self.len()
    }

    // The place of the row of a number, if there is one.
    pub fn find(&self, number: u32) -> Option<usize>
        ensures answer { Rising R.Numbered.number (rows self.now) → result ≡ (if known R.Numbered.number number (rows self.now) then Some (rank R.Numbered.number number (rows self.now)) else None) }
        ensures there { Rising R.Numbered.number (rows self.now) → IfSome result (λ place. holds R.Numbered.number number (slice_get (rows self.now) place) ≡ true) }
    {
        locate(self.as_slice(), number).ok()
    }

    // The row at a place, if there is one.
    pub fn row(&self, place: usize) -> Option<R>
        ensures answer { result ≡ slice_get (rows self.now) place }
    {
        self.as_slice().get(place).copied()
    }

    // The row of a number, if there is one.
    pub fn get(&self, number: u32) -> Option<R>
        ensures answer { Rising R.Numbered.number (rows self.now) → result ≡ found R.Numbered.number number (rows self.now) }
    {
        let held = self.as_slice();
        let there = locate(held, number).ok()?;
        Some(held[there])
    }

    // Puts a row in its place, or in the place of the row of its number.
    // Refused exactly where the number is new and no usable slot is free; the rows are then as they were.
    pub fn put(&mut self, row: R) -> Result<(), Full>
        ensures answer { Rising R.Numbered.number (rows self.old) → result ≡ (if fits R.Numbered.number (capacity self.old) (R.Numbered.number row) (rows self.old) then Ok tt else Err full) }
        ensures after { Rising R.Numbered.number (rows self.old) → rows self.new ≡ (if fits R.Numbered.number (capacity self.old) (R.Numbered.number row) (rows self.old) then put R.Numbered.number row (rows self.old) else rows self.old) }
        ensures order { InOrder R.Numbered.number self.old → InOrder R.Numbered.number self.new }
        ensures sound { Sound R.Numbered.number R.Numbered.sound self.old → R.Numbered.sound row ≡ true → Sound R.Numbered.number R.Numbered.sound self.new }
        ensures capacity { capacity self.new ≡ capacity self.old }
    {
        let used = self.len();
        let most = self.slots.len();
        match locate(self.as_slice(), row.key()) {
            Ok(old) => self.slots[old] = row,
            Err(place) => {
                if used >= most {
                    return Err(Full);
                }
                insert(self.slots, used, place, row);
                self.len = used + 1;
            }
        }
        Ok(())
    }

    // Takes the row of a number out, and its slot serves the next entry.
    // Refused exactly where no row has the number; the rows are then as they were.
    pub fn remove(&mut self, number: u32) -> Result<(), Absent>
        ensures answer { Rising R.Numbered.number (rows self.old) → result ≡ (if known R.Numbered.number number (rows self.old) then Ok tt else Err absent) }
        ensures after { Rising R.Numbered.number (rows self.old) → rows self.new ≡ removed R.Numbered.number number (rows self.old) }
        ensures order { InOrder R.Numbered.number self.old → InOrder R.Numbered.number self.new }
        ensures sound { Sound R.Numbered.number R.Numbered.sound self.old → Sound R.Numbered.number R.Numbered.sound self.new }
        ensures capacity { capacity self.new ≡ capacity self.old }
    {
        let used = self.len();
        let Ok(place) = locate(self.as_slice(), number) else {
            return Err(Absent);
        };
        strike(self.slots, used, place);
        self.len = used - 1;
        Ok(())
    }

    // Puts another row of the same number at a place.
    // Refused exactly where the place holds no row of that number; the rows are then as they were.
    pub fn update(&mut self, place: usize, row: R) -> Result<(), Misplaced>
        ensures answer { result ≡ (if holds R.Numbered.number (R.Numbered.number row) (slice_get (rows self.old) place) then Ok tt else Err misplaced) }
        ensures after { Rising R.Numbered.number (rows self.old) → rows self.new ≡ (if holds R.Numbered.number (R.Numbered.number row) (slice_get (rows self.old) place) then put R.Numbered.number row (rows self.old) else rows self.old) }
        ensures order { InOrder R.Numbered.number self.old → InOrder R.Numbered.number self.new }
        ensures sound { Sound R.Numbered.number R.Numbered.sound self.old → R.Numbered.sound row ≡ true → Sound R.Numbered.number R.Numbered.sound self.new }
        ensures capacity { capacity self.new ≡ capacity self.old }
    {
        if place < self.len() && self.slots[place].key() == row.key() {
            self.slots[place] = row;
            Ok(())
        } else {
            Err(Misplaced)
        }
    }

    // Changes every row in place. Each keeps its number, and so its place.
    pub fn revise<V: Revision<R>>(&mut self, revision: &V)
        ensures after { AllSound R.Numbered.sound (rows self.old) → rows self.new ≡ revised (V.Revision.revised revision.now) 0 (rows self.old) }
        ensures numbers { map R.Numbered.number (rows self.new) ≡ map R.Numbered.number (rows self.old) }
        ensures order { InOrder R.Numbered.number self.old → InOrder R.Numbered.number self.new }
        ensures sound { InOrder R.Numbered.number self.old → AllSound R.Numbered.sound (rows self.new) → Sound R.Numbered.number R.Numbered.sound self.new }
        ensures capacity { capacity self.new ≡ capacity self.old }
    {
        let used = self.len();
        revise_each(revision, &mut self.slots[0..used]);
    }
}
