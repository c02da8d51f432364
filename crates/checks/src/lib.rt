// What tests share. Helpers of a test have no handle to assert by: they answer a failure where a check does not hold.
#![tactic(auto)]

ghost use Rattle.std.specs.Prelude.{◌≡◌, is_ok};

pub mod draws;
pub mod fingerprint;

use std::fmt::{Debug, Display};
use std::test::Fail;

// That something holds; where it does not, the text says what is wrong.
pub fn holds<D: Display + Drop>(condition: bool, wrong: D) -> Result<(), Fail>
    ensures answer { is_ok result ≡ condition }
{
    if condition {
        Ok(())
    } else {
        Err(Fail::new(wrong))
    }
}

// That two values are the same; where they differ, the failure shows both under this name.
pub fn agree<T: Debug + PartialEq + Drop, D: Display + Drop>(
    found: T,
    expected: T,
    name: D,
) -> Result<(), Fail>
    ensures answer { is_ok result ≡ T.eq found expected }
{
    if found == expected {
        Ok(())
    } else {
        Err(Fail::new(format_args!("{name}: {found:?}, not {expected:?}")))
    }
}
