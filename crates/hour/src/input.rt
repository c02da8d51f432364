// What the program is given on standard input.
ghost use Rattle.std.specs.Prelude.{◌≤◌, length, IfOk};

use std::io;
use std::io::{Error, ErrorKind, Read};

// One read, made again where a signal interrupts it; counted, so that it ends.
fn read_again<R: Read>(input: &mut R, bytes: &mut [u8]) -> io::Result<usize>
    ensures within { IfOk result (λ n. n ≤ length bytes.new) }
{
    for _ in 0..u64::MAX {
        match input.read(bytes) {
            Err(error) if error.kind() == ErrorKind::Interrupted => {}
            answer => return answer,
        }
    }
    Err(Error::from(ErrorKind::Interrupted))
}

// Reads until the bytes are full or the input ends, and no byte more; answers those that were read. The library has no call
// for it: `read_exact` does not say how many came before the end, and `read_to_end` allocates.
pub(crate) fn read_input<'a, R: Read>(input: &mut R, bytes: &'a mut [u8]) -> io::Result<&'a [u8]>
    ensures within { IfOk result (λ read. length read.now ≤ length bytes.old) }
{
    let mut done = 0;
    while done < bytes.len() {
        match read_again(input, &mut bytes[done..])? {
            0 => break,
            count => done += count,
        }
    }
    Ok(&bytes[..done])
}
