//! The promises by name, each with whether it holds, or with None if an allocation failed for what it needs.
use crate::tables::{Call, answers_again};
use crate::texts::Place;
use crate::{events, lists, tables, texts, trees};
use std::alloc::Global;

/// Tries each promise, and returns it by name with whether it holds.
pub fn all(alloc: Global) -> [(&'static str, Option<bool>); 23] {
    [
        (
            "a slice is copied without memory",
            texts::copies_a_text(alloc, Place::Slice),
        ),
        (
            "a slice is freed from its source or gone",
            texts::frees_a_text(alloc, Place::Slice),
        ),
        (
            "a text on the heap is copied whole or stays",
            texts::copies_a_text(alloc, Place::Heap),
        ),
        (
            "a text on the heap is freed from its source without memory",
            texts::frees_a_text(alloc, Place::Heap),
        ),
        ("a refused append leaves the tree", trees::appends(alloc)),
        ("a refused push leaves the tree", trees::pushes(alloc)),
        (
            "a good tree is never refused for its rules",
            Some(trees::checks(alloc)),
        ),
        (
            "the merged events are a beginning, and then an error ends them",
            Some(lists::merges(alloc)),
        ),
        (
            "the merged ranges are a beginning, and then an error ends them",
            Some(lists::merges_with_ranges(alloc)),
        ),
        (
            "the old text stands, and then a beginning of the HTML of any events",
            lists::renders_mixed_events(alloc),
        ),
        (
            "a look-up finds its definition, also after a refusal",
            answers_again(alloc, Call::LookUp),
        ),
        (
            "a footnote is found, also after a refusal",
            answers_again(alloc, Call::Contains),
        ),
        (
            "uses are found, also after a refusal",
            answers_again(alloc, Call::LookUpUses),
        ),
        ("a use is counted once or not at all", tables::counts(alloc)),
        (
            "a text is put in or nothing is",
            answers_again(alloc, Call::PutText),
        ),
        (
            "a link is put in or nothing is",
            answers_again(alloc, Call::PutLink),
        ),
        (
            "alignments are put in or nothing is",
            answers_again(alloc, Call::PutAlignments),
        ),
        (
            "attributes are put in or nothing is",
            answers_again(alloc, Call::PutAttributes),
        ),
        (
            "a definition is copied whole or stays",
            texts::copies_a_definition(alloc),
        ),
        (
            "a definition is freed from its source or gone",
            texts::frees_a_definition(alloc),
        ),
        (
            "a broken link is freed from its source or gone",
            Some(texts::frees_a_broken_link(alloc)),
        ),
        (
            "an event is copied whole or stays",
            events::stand(alloc, false),
        ),
        (
            "an event is freed from its source or gone",
            events::stand(alloc, true),
        ),
    ]
}
