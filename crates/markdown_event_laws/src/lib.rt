//! Laws of the events of texts: they are nested, the tables among them are whole and hold their parts alone, list items
//! stand in lists, and no heading in another. There is no code that runs.
#![tactic(auto)]

pub mod laws;
