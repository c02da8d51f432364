// A finished text handed over.
ghost use Rattle.std.specs.Prelude.{◌≡◌};
ghost use Rattle.statement.specs.Output.{fitted, overlaid};

use terms::refusal::Refusal;

// Copies a text to the start of an output, or says that it is too short.
pub(crate) fn handed(text: &str, out: &mut [u8]) -> Result<usize, Refusal>
    ensures answer { result ≡ fitted text.now out.old }
    ensures after { out.new ≡ overlaid text.now out.old }
{
    let end = text.len();
    if out.len() < end {
        return Err(Refusal::OutputTooShort);
    }
    out[..end].copy_from_slice(text.as_bytes());
    Ok(end)
}
