// What a row of a table becomes where all rows change in place.
ghost use Rattle.std.specs.Prelude.{◌≡◌, ℕ, true};

use crate::numbered::Numbered;

// A change of rows that leaves each its number, and so its place.
pub trait Revision<R: Numbered> {
    // What a sound row at a place becomes.
    ghost revised: { Self → ℕ → R → R };

    fn revise(&self, place: usize, row: &mut R)
        ensures after { R.Numbered.sound row.old ≡ true → row.new ≡ revised self.now place row.old }
        ensures number { R.Numbered.number row.new ≡ R.Numbered.number row.old };
}
