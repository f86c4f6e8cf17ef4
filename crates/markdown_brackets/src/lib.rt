//! What closing brackets become: the tails of inline links, labels and the forms of references, look-ups, footnotes,
//! the bodies of wikilinks, the waiting openers, and the decision, which reads a tree.
#![tactic(auto)]

pub mod block_rules;
pub mod bracket_reader;
mod byte_at;
pub mod chain_openers;
pub mod closing_bracket;
pub mod decision;
pub mod finish;
pub mod footnote;
pub mod items_after;
mod items_ahead;
pub mod laws;
pub mod link_tail;
pub mod link_title;
pub mod look_up;
pub mod openers;
pub mod reference;
pub mod separator;
pub mod spent_ends;
mod title_text;
mod tries;
pub mod waiting;
pub mod wikilink;
pub mod wikilink_nodes;
