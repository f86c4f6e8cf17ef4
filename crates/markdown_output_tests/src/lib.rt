//! Tests of what no clause says of events, and of the HTML and the outlines that are made of them: a module for each
//! topic. They are in a crate of their own, so that no library is proved a second time with its tests.
#![tactic(auto)]

#[cfg(test)]
mod block_events;
#[cfg(test)]
mod escapes;
#[cfg(test)]
mod events;
#[cfg(test)]
mod extended;
#[cfg(test)]
mod html;
#[cfg(test)]
mod merged;
#[cfg(test)]
mod merges;
#[cfg(test)]
mod messages;
#[cfg(test)]
mod outline_lines;
#[cfg(test)]
mod outlines;
#[cfg(test)]
mod page_parts;
#[cfg(test)]
mod parser;
#[cfg(test)]
mod program;
#[cfg(test)]
mod random_texts;
#[cfg(test)]
mod runs;
#[cfg(test)]
mod safe;
#[cfg(test)]
mod safe_ids;
#[cfg(test)]
mod safe_rules;
#[cfg(test)]
mod safe_texts;
#[cfg(test)]
mod signs;
#[cfg(test)]
mod whole_runs;
