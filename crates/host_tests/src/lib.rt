//! The tests of the program over a host in memory, which tells what its names hold: what no script
//! can show.
#![tactic(auto)]

#[cfg(test)]
mod image;
#[cfg(test)]
mod runs;
#[cfg(test)]
mod shelf;
