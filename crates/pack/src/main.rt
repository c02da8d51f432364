// Packs a feed: reads its text form on standard input and writes its words on standard output, four bytes to a word,
// the least first. Words are written only once every line was read, so a damaged text never becomes half a feed.
#![tactic(auto)]

mod text;

use std::io::{Read, Write};
use std::process::ExitCode;
use text::packed_text;

fn run(rt: &HostRuntime) -> anyhow::Result<()> {
    let mut text = String::new(rt.alloc());
    rt.stdin().read_to_string(&mut text)?;
    let bytes = packed_text(rt.alloc(), &text)?;
    rt.stdout().write_all(&bytes)?;
    Ok(())
}

fn main(rt: HostRuntime) -> anyhow::Result<ExitCode> {
    if let Err(wrong) = run(&rt) {
        eprintln!(rt; "{wrong}")?;
        return Ok(ExitCode::FAILURE);
    }
    Ok(ExitCode::SUCCESS)
}
