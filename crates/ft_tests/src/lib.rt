//! The tests of full-text tables, by the names that they offer: what no script can show.
#![tactic(auto)]

#[cfg(test)]
mod changes;
#[cfg(test)]
mod commands;
#[cfg(test)]
mod deeds;
#[cfg(test)]
mod files;
#[cfg(test)]
mod stops;
