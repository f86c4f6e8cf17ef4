//! Look-ups of link definitions by their labels, and of footnotes by their names.
use crate::labels::{LabelKind, first_labels};
use markdown_base::cow_str::CowStr;
use markdown_defs::Allocations;
use markdown_test_helpers::parts::{link_to, no_parts};
use std::alloc::Global;

/// Returns allocations with definitions of these labels and footnotes of these names.
fn allocations_of(
    alloc: Global,
    labels: Vec<String>,
    names: Vec<String>,
) -> Option<Allocations<'static>> {
    let mut definitions = Vec::new(alloc);
    for label in labels {
        definitions.push((CowStr::from(label), link_to("/u"))).ok()?;
    }
    let mut footnotes = Vec::new(alloc);
    for name in names {
        footnotes.push(CowStr::from(name)).ok()?;
    }
    let mut parts = no_parts(alloc);
    parts.definitions = definitions;
    parts.footnotes = footnotes;
    Allocations::new(alloc, parts).ok()
}

/// Returns how many of `size` definitions are found by their labels.
pub fn find_all(alloc: Global, kind: LabelKind, size: usize) -> Option<usize> {
    let held = allocations_of(alloc, first_labels(alloc, kind, size)?, Vec::new(alloc))?;
    let mut count = 0usize;
    for number in 0..size {
        let key = kind.label(alloc, number)?;
        if held.refdefs.get(key.as_str()).ok()?.is_some() {
            count = count.saturating_add(1);
        }
    }
    Some(count)
}

/// Returns how many of `size` footnotes are found by their names, when a use of each is counted.
pub fn use_all(alloc: Global, kind: LabelKind, size: usize) -> Option<usize> {
    let mut held = allocations_of(alloc, Vec::new(alloc), first_labels(alloc, kind, size)?)?;
    let mut count = 0usize;
    for number in 0..size {
        let name = kind.label(alloc, number)?;
        if held.footdefs.count_use(name.as_str()).ok()? {
            count = count.saturating_add(1);
        }
    }
    Some(count)
}
