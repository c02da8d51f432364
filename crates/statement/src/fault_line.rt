// A fault as one line of text.
ghost use Rattle.std.specs.Prelude.{◌≡◌};
ghost use Rattle.statement.specs.Output.{fitted, overlaid};
ghost use Rattle.statement.specs.Text.{fault_text};

use crate::output::handed;
use arrayvec::ArrayString;
use itoa::Buffer;
use terms::fault::Fault;
use terms::refusal::Refusal;

// Writes a fault's line at the start of the output, and answers how many bytes it has.
pub fn fault_line(fault: &Fault, out: &mut [u8]) -> Result<usize, Refusal>
    ensures answer { result ≡ fitted (fault_text fault.now) out.old }
    ensures after { out.new ≡ overlaid (fault_text fault.now) out.old }
{
    let mut digits = Buffer::new();
    let mut line = ArrayString::<35>::new();
    line.push_str("fault ");
    line.push_str(digits.format(u8::from(fault.refusal)));
    line.push_str(" ");
    line.push_str(digits.format(u8::from(fault.layer)));
    line.push_str(" ");
    line.push_str(digits.format(fault.index));
    line.push_str("\n");
    handed(&line, out)
}
