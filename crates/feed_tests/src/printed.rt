// What an hour prints of a feed.
use book::book::Book;
use checks::fingerprint::{UNMIXED, mixed};
use editions::before_nprr1149::BeforeNprr1149;
use editions::edition::Edition;
use editions::nprr1149::Nprr1149;
use editions::nprr1196::Nprr1196;
use feed::feed::feed;
use running::issuing::issue_under;
use statement::fault_line::fault_line;
use statement::statement::text;
use std::test::Fail;

// Puts the text of a statement under an edition at the head of the output, and answers what is left of it.
pub(crate) fn add_statement<'a, E: Edition>(
    book: &mut Book,
    edition: &E,
    out: &'a mut [u8],
) -> Result<&'a mut [u8], Fail> {
    issue_under(book, edition)?;
    let count = text(book, out)?;
    Ok(out.get_mut(count..).ok_or("no room left")?)
}

// The statements under the three editions, or the fault; answers how many bytes were printed.
pub(crate) fn printed(book: &mut Book, words: &[u32], out: &mut [u8]) -> Result<usize, Fail> {
    match feed(book, words) {
        Err(fault) => Ok(fault_line(&fault, out)?),
        Ok(_) => {
            let room = out.len();
            let rest = add_statement(book, &BeforeNprr1149, out)?;
            let rest = add_statement(book, &Nprr1149, rest)?;
            let rest = add_statement(book, &Nprr1196, rest)?;
            Ok(room.saturating_sub(rest.len()))
        }
    }
}

// A fingerprint of bytes.
pub(crate) fn fingerprint(bytes: &[u8]) -> u64 {
    bytes
        .iter()
        .fold(UNMIXED, |print, byte| mixed(print, u64::from(*byte)))
}
