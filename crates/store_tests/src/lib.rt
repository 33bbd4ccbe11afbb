//! The tests of a database in memory and of a store of full-text rows, by the names that they
//! offer: what no script can show.
#![tactic(auto)]

#[cfg(test)]
mod adopting;
#[cfg(test)]
mod damaged;
#[cfg(test)]
mod expected;
#[cfg(test)]
mod groups;
#[cfg(test)]
mod ram;
#[cfg(test)]
mod rows;
#[cfg(test)]
mod steps;
#[cfg(test)]
mod trials;
