// Figures that several tests start from.
use market::quantities::BareQuantities;
use market::units::SignedTenths;
use std::test::Fail;

// Ten zeros, written out: a constant calls no function, and the tables of the tests are constants.
pub const NO_QUANTITIES: BareQuantities = BareQuantities {
    dasa: 0,
    rtsa: 0,
    trs: 0,
    rtpc: 0,
    pc: 0,
    ruc: 0,
    trp: 0,
    fq: 0,
    rfq: 0,
    inf: 0,
};

// The counted sum of this many tenths: what 256 resources can add up to, and no more.
pub fn counted_sum(tenths: i32) -> Result<SignedTenths<768_000>, Fail> {
    if tenths < -768_000 || tenths > 768_000 {
        return Err(Fail::new("no 256 resources count so much"));
    }
    Ok(SignedTenths { value: tenths })
}
