//! Tests of workers: explorations and sweeps by any number of them, benches and boards.
#![tactic(auto)]

#[cfg(test)]
mod alone;
#[cfg(test)]
mod board;
#[cfg(test)]
mod kit;
#[cfg(test)]
mod shared;
#[cfg(test)]
mod stealing;
#[cfg(test)]
mod watch;
#[cfg(test)]
mod workers;
