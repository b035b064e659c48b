//! Tests of listings and of what changes between stacks, over filters that are worked by hand; of files of names; and
//! of numbers with blanks.
#![tactic(auto)]

#[cfg(test)]
mod blanks;
#[cfg(test)]
mod differences;
#[cfg(test)]
mod joining;
#[cfg(test)]
mod limits;
#[cfg(test)]
mod listings;
#[cfg(test)]
mod names;
#[cfg(test)]
mod profiles;
#[cfg(test)]
mod sets;
