//! The tests of tokens, MATCH queries and walks, by the names that `ft_query` offers: what no
//! script can show.
#![tactic(auto)]

#[cfg(test)]
mod expected;
#[cfg(test)]
mod parser;
#[cfg(test)]
mod text;
#[cfg(test)]
mod walk;
#[cfg(test)]
mod words;
