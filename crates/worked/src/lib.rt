// Figures that were worked by hand, held against the definitions by one proof.
#![tactic(auto)]

ghost use Rattle.std.specs.Prelude.{◌≡◌, length};
ghost use Rattle.worked.specs.Figures.{table, TableStands};

// How many figures were worked by hand; its contract says that the definitions answer every one of them.
pub fn worked_figures() -> u8
    ensures answer { result ≡ length table }
    ensures stands { TableStands }
{
    12
}
