// The numbers by which QSEs and resources are known: 1 to 999,999.
// Two types, so that neither passes for the other. One generic type of a kind would be no plainer: beside a ghost field
// `Clone` is not derived for a type parameter ("derive-over-ghost-field"), so its copying would be written by hand.
ghost use Rattle.std.specs.Prelude.{◌≤◌};

#[derive(Clone, Copy)]
pub struct QseNumber {
    pub value: u32,
    ghost low: { 1 ≤ value },
    ghost high: { value ≤ 999999 },
}

#[derive(Clone, Copy)]
pub struct ResourceNumber {
    pub value: u32,
    ghost low: { 1 ≤ value },
    ghost high: { value ≤ 999999 },
}
