// A QSE's load in MWh: charges are credited by it.
use apportion::Weighted;

#[derive(Clone, Copy)]
pub struct Load {
    pub mwh: u32,
}

impl Weighted for Load {
    ghost weight = { λ load. load.mwh };

    fn weigh(&self) -> u32 {
        self.mwh
    }
}
