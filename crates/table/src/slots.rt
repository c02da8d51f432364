// What a table does with the slots that its caller lends: finds a number in them, makes and closes gaps, changes each row.
ghost use Rattle.std.specs.Prelude.{◌≡◌, ◌+◌, ◌-◌, ◌<◌, ◌≤◌, map, length, take, MatchResult};
ghost use Rattle.std.specs.List.{insert, remove};
ghost use Rattle.table.specs.Rows.{Rising, AllSound, located, revised};

use crate::numbered::Numbered;
use crate::revision::Revision;

// Where the row of a number stands, or else where it belongs.
// 256 rows take eight halvings, and then one look at the row that is left.
// By hand, since it is asked for each resource in each service, where an instruction counts: std's `binary_search_by_key`
// takes 99 there, `partition_point` 102, and this one 88 (by callgrind, mean of 10,000,000).
pub fn locate<R: Numbered>(held: &[R], number: u32) -> Result<usize, usize>
    ensures answer { Rising R.Numbered.number held.now → result ≡ located R.Numbered.number number held.now }
    ensures within { MatchResult result (λ i. i < length held.now) (λ i. i ≤ length held.now) }
{
    let mut left = held.len();
    if left == 0 {
        return Err(0);
    }
    let mut base = 0;
    while left > 1 {
        let half = left / 2;
        if held[base + half].key() <= number {
            base += half;
        }
        left -= half;
    }
    let key = held[base].key();
    if key == number {
        Ok(base)
    } else if key < number {
        Err(base + 1)
    } else {
        Err(base)
    }
}

// Puts a row at a place: each of the `used` rows from there on moves one slot up.
// The slots and how many of them are used, since the slots are lent: a vector would own them.
pub(crate) fn insert<R: Copy>(slots: &mut [R], used: usize, place: usize, row: R)
    requires place { place ≤ used }
    requires free { used < length slots.old }
    ensures after { take (used + 1) slots.new ≡ insert (take used slots.old) place row }
{
    slots.copy_within(place..used, place + 1);
    slots[place] = row;
}

// Takes the row at a place out: each of the `used` rows past it moves one slot down.
pub(crate) fn strike<R: Copy>(slots: &mut [R], used: usize, place: usize)
    requires place { place < used }
    requires within { used ≤ length slots.old }
    ensures after { take (used - 1) slots.new ≡ remove (take used slots.old) place }
{
    slots.copy_within(place + 1..used, place);
}

// Changes each row in place.
pub fn revise_each<R: Numbered, V: Revision<R>>(revision: &V, rows: &mut [R])
    ensures after { AllSound R.Numbered.sound rows.old → rows.new ≡ revised (V.Revision.revised revision.now) 0 rows.old }
    ensures numbers { map R.Numbered.number rows.new ≡ map R.Numbered.number rows.old }
{
    for (place, row) in rows.iter_mut().enumerate() {
        revision.revise(place, row);
    }
}
