//! Tests of the scanners: the examples of CommonMark that one scan decides, and the bounds. A module for each topic.
#![tactic(auto)]

#[cfg(test)]
mod autolink;
#[cfg(test)]
mod destination;
#[cfg(test)]
mod email;
#[cfg(test)]
mod entity;
#[cfg(test)]
mod html_tag;
#[cfg(test)]
mod label;
#[cfg(test)]
mod line_start;
#[cfg(test)]
mod named_entity;
#[cfg(test)]
mod raw_html;
#[cfg(test)]
mod unescape;
#[cfg(test)]
mod wikilink_pipe;
