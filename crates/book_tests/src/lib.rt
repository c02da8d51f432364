#![tactic(auto)]

// Tests of the hour book from outside, in a crate of their own so that the book is proved once.
#[cfg(test)]
mod corrected_price;
#[cfg(test)]
mod drafts;
#[cfg(test)]
mod full_book;
#[cfg(test)]
mod no_loads;
#[cfg(test)]
mod preview;
#[cfg(test)]
mod refused_calls;
#[cfg(test)]
mod sample;
#[cfg(test)]
mod settings;
#[cfg(test)]
mod shown;
#[cfg(test)]
mod tables;
#[cfg(test)]
mod two_books;
#[cfg(test)]
mod worked_hour;
