// Much in one number: two fingerprints that differ tell that something differs.
ghost use Rattle.std.specs.Prelude.{◌≡◌};
ghost use Rattle.checks.specs.Fingerprint.{mixed};

// Where nothing was mixed in yet.
pub const UNMIXED: u64 = 14_695_981_039_346_656_037;

// One more word in a fingerprint.
pub fn mixed(print: u64, word: u64) -> u64
    ensures answer { result ≡ mixed print word }
{
    (print ^ word).wrapping_mul(1_099_511_628_211)
}
