#![tactic(auto)]

// Tests of the libraries from outside, in a crate of their own so that a library is proved once.
#[cfg(test)]
mod apportion_refuses;
#[cfg(test)]
mod largest_figures;
#[cfg(test)]
mod limits;
#[cfg(test)]
mod load;
#[cfg(test)]
mod many_hours;
#[cfg(test)]
mod uniform;
#[cfg(test)]
mod worked_figures;
