// Reads the words of an hour from standard input, feeds them to a book, issues a statement under each edition and
// prints it; a feed with a fault prints the fault's line instead.
#![tactic(auto)]

mod failure;
mod input;
mod statements;

use failure::Failure;
use feed::feed::feed;
use feed::words::words_of;
use input::read_input;
use running::slots::Slots;
use statement::fault_line::fault_line;
use statements::print_statements;
use std::io::Write;

// The most that is read.
const MOST_WORDS: usize = 16_384;

const MOST_BYTES: usize = 4 * MOST_WORDS;

fn main(rt: HostRuntime) -> Result<(), Failure> {
    let mut room = [0; MOST_BYTES];
    let bytes = read_input(&mut rt.stdin(), &mut room)?;
    let mut words = [0; MOST_WORDS];
    // a number beside the words, as what makes them and what writes a text answer how much they made
    let count = words_of(bytes, &mut words);
    let mut slots = Slots::<64, 256>::empty();
    let mut book = slots.open(7);
    match feed(&mut book, &words[..count]) {
        Ok(_) => print_statements(&mut rt.stdout(), &mut book),
        Err(fault) => {
            let mut line = [0u8; 35];
            let end = fault_line(&fault, &mut line)?;
            rt.stdout().write_all(&line[..end])?;
            Ok(())
        }
    }
}
