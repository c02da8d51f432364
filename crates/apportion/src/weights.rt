ghost use Rattle.std.specs.Prelude.{◌≡◌, map};
ghost use Rattle.apportion.specs.Shares.{summed};

use crate::weighted::Weighted;

// The sum of the rows' weights, or `None` where it is 2^64 or more.
pub fn whole<R: Weighted>(rows: &[R]) -> Option<u64>
    ensures answer { result ≡ summed (map R.Weighted.weight rows.now) }
{
    rows.iter()
        .try_fold(0, |sum: u64, row| sum.checked_add(row.weigh() as u64))
}
