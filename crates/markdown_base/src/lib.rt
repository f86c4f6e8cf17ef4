//! The types that every layer of the inline engine uses: texts, events, items, options and the tree of items. The
//! definitions that contracts cite, here and in higher crates, are in `specs/`.
#![tactic(auto)]

pub mod block_parts;
pub mod byte_tests;
mod copies;
pub mod cow_str;
pub mod event;
pub mod fault;
pub mod index;
pub mod inline_str;
pub mod item;
pub mod node;
pub mod options;
mod stored_node;
pub mod syntax;
pub mod tag;
pub mod tree;
