#![tactic(auto)]

// Tests from the first word to the last byte: feeds, statements' texts and faults' lines.
#[cfg(test)]
mod feeds;
#[cfg(test)]
mod full_feed;
#[cfg(test)]
mod longest;
#[cfg(test)]
mod outputs;
#[cfg(test)]
mod printed;
#[cfg(test)]
mod restated;
#[cfg(test)]
mod stages;
