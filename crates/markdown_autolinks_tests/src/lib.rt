//! Tests of bare addresses, against a second reading of the rule.
#![tactic(auto)]

#[cfg(test)]
mod addresses;
#[cfg(test)]
mod table;
