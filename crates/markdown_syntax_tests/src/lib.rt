//! Tests of what no clause says of chains of inline items, through parsers: of items made by hand their HTML or their
//! events, what a callback is asked, counts of work. A module for each topic.
#![tactic(auto)]

#[cfg(test)]
mod chains;
#[cfg(test)]
mod definitions;
#[cfg(test)]
mod grown;
#[cfg(test)]
mod links;
#[cfg(test)]
mod pairing;
#[cfg(test)]
mod references;
#[cfg(test)]
mod rows;
#[cfg(test)]
mod runs;
#[cfg(test)]
mod spans;
#[cfg(test)]
mod tables;
#[cfg(test)]
mod walks;
#[cfg(test)]
mod wikilinks;
