//! A Markdown parser with the names of pulldown-cmark: events with their source ranges, text merge and HTML. A caller
//! names this crate alone, in `crates.txt`, in code and in clauses; the code is in the crates that it uses.
#![tactic(auto)]

pub mod rendering;

/// Block results: a text with its tree of items and the parts that they refer to, passed in and checked, or made from a
/// text.
pub mod blocks {
    pub use markdown_base::block_parts::{BlockParts, HeadingAttributes, LinkDef};
    pub use markdown_base::index::{AlignmentIndex, CowIndex, HeadingIndex, LinkIndex};
    pub use markdown_base::item::{Item, ItemBody};
    pub use markdown_base::node::Node;
    pub use markdown_base::tree::Tree;
    pub use markdown_blocks::Blocks;
}

/// Link reference definitions and footnotes, the parts that items refer to by number, and callbacks for broken links.
pub mod defs {
    pub use markdown_base::block_parts::{BlockParts, HeadingAttributes, LinkDef};
    pub use markdown_defs::{
        Absence, Allocations, BoxedCallback, BrokenLink, BrokenLinkCallback, Closure,
        DefaultBrokenLinkCallback, FootnoteDef, FootnoteDefs, RefDefs, RefDefsIter,
    };
}

/// The parser, its events with their source ranges, and the counts of its work.
pub mod walk {
    pub use markdown_document::work::Work;
    pub use markdown_inline::runs::{gather, gather_offsets};
    pub use markdown_inline::walk::{OffsetIter, Parser};
}

/// Iterators that merge neighbouring texts.
pub mod merge {
    pub use markdown_out::merge::{TextMergeStream, TextMergeWithOffset};
}

/// The HTML of events, and of texts.
pub mod html {
    pub use crate::rendering::to_html;
    pub use markdown_out::html::{HtmlRules, push_html, push_html_by};
    pub use markdown_render::{merged_html, render, render_source};
}

/// Safe HTML of untrusted input: events made safe by rules, and the HTML of a text's.
pub mod safe {
    pub use crate::rendering::to_safe_html;
    pub use markdown_safe::{
        Images, Safe, SafeRules, SafeWithOffset, is_page_part, safe_event, safe_html,
        safe_html_source, safe_html_with,
    };
}

/// The full reading: CommonMark but for what DIFFERENCES names, and the extensions. `Parser::new_extended` and
/// `Blocks::of_extended` read so, and these calls of a text.
pub mod extended {
    pub use markdown_render::render_extended;
    pub use markdown_safe::safe_html_extended;
}

/// Tables of headings, of events with their source ranges and of block results.
pub mod outline {
    pub use markdown_outline::{Entry, outline, outline_of, outline_source};
}

/// Laws of the definitions that the contracts cite: functions without code, each called for its clause.
pub mod laws {
    pub use markdown_defs::laws::{
        a_key_finds_the_first_match, a_name_finds_what_matches, matching_keys_agree,
        matching_names_agree, names_are_tested_by_matching,
    };
    pub use markdown_inline::laws::{
        document_asks_once_for_each_bracket, events_are_balanced, look_ups_expand_to_few_bytes,
        no_link_starts_in_a_link, questions_of_one_chain_end_apart, reading_goes_part_by_part,
        reading_is_that_of_the_tree, reading_of_blocks_is_that_of_the_text,
        reading_of_blocks_is_that_of_their_tree, references_expand_to_few_bytes,
        resolving_makes_no_block, slices_of_blocks_are_in_place, walk_reads_what_is_defined,
    };
    pub use markdown_out::laws::{
        a_mapped_iterator_can_be_merged, a_mapped_iterator_stays_ended, a_stream_can_be_merged,
        a_stream_gives_the_merge, a_stream_with_offsets_can_be_merged,
        a_stream_with_offsets_gives_the_merge, an_image_has_the_html_of_its_parts,
        html_of_a_merge_is_that_of_the_merged_events, merged_texts_are_no_neighbours,
        merging_keeps_the_html, merging_twice_is_merging_once,
    };
    pub use markdown_outline::laws::{
        headings_of_texts_are_apart, merging_keeps_the_outline,
        outline_of_a_merge_is_that_of_the_events,
    };
    pub use markdown_render::laws::html_of_a_parser_is_that_of_its_reading;
    pub use markdown_render::merged::{offsets_can_be_merged, parsers_can_be_merged};
    pub use markdown_safe::laws::{
        each_less_than_begins_a_tag, html_of_a_safe_iterator_is_safe,
        html_of_nested_events_is_a_tree, html_of_page_parts_is_placed, html_of_safe_events_is_safe,
        page_parts_pass_each_test, safe_events_nest_no_deeper, safe_html_of_texts_is_safe,
    };
}

pub use defs::{
    BoxedCallback, BrokenLink, BrokenLinkCallback, Closure, DefaultBrokenLinkCallback, LinkDef,
    RefDefs,
};
pub use markdown_base::cow_str::CowStr;
pub use markdown_base::event::Event;
pub use markdown_base::fault::Fault;
pub use markdown_base::inline_str::{InlineStr, StringTooLongError};
pub use markdown_base::options::Options;
pub use markdown_base::syntax::Syntax;
pub use markdown_base::tag::{
    Alignment, BlockQuoteKind, CodeBlockKind, HeadingLevel, InvalidHeadingLevel, LinkType,
    MetadataBlockKind, Tag, TagEnd,
};
pub use merge::{TextMergeStream, TextMergeWithOffset};
pub use walk::{OffsetIter, Parser, Work};
