//! Tests of the libraries of one exploration without threads: pieces, books, and what is asked.
#![tactic(auto)]

#[cfg(test)]
mod books;
#[cfg(test)]
mod chains;
#[cfg(test)]
mod exploring;
#[cfg(test)]
mod facts;
#[cfg(test)]
mod names;
#[cfg(test)]
mod questions;
#[cfg(test)]
mod regions;
#[cfg(test)]
mod scripts;
