//! The tasks by their names.
use crate::labels::LabelKind;
use crate::scans::{self, Beginning};
use crate::{events, look_ups};
use std::alloc::Global;

/// Returns the task that a line names, and its size.
pub fn task_and_size(line: &str) -> Option<(&str, usize)> {
    let (task, size) = line.split_once(' ')?;
    match size.parse::<usize>() {
        Ok(size) => Some((task, size)),
        Err(_) => None,
    }
}

/// Returns the result of a task of this size, or None where there is no such task, or an allocation failed.
pub fn run(alloc: Global, task: &str, size: usize) -> Option<usize> {
    match task {
        "render" => events::rendered_bytes(alloc, size),
        "footnotes" => events::footnote_bytes(alloc, LabelKind::Numbers, size),
        "long-footnotes" => events::footnote_bytes(alloc, LabelKind::Long, size),
        "chosen-footnotes" => events::footnote_bytes(alloc, LabelKind::Chosen, size),
        "merge" => events::merged_bytes(alloc, size),
        "look-ups" => look_ups::find_all(alloc, LabelKind::Numbers, size),
        "long-look-ups" => look_ups::find_all(alloc, LabelKind::Long, size),
        "chosen-look-ups" => look_ups::find_all(alloc, LabelKind::Chosen, size),
        "uses" => look_ups::use_all(alloc, LabelKind::Numbers, size),
        "long-uses" => look_ups::use_all(alloc, LabelKind::Long, size),
        "chosen-uses" => look_ups::use_all(alloc, LabelKind::Chosen, size),
        "comments" => scans::scan_all(alloc, Beginning::Comment, size),
        "cdata-sections" => scans::scan_all(alloc, Beginning::CdataSection, size),
        "declarations" => scans::scan_all(alloc, Beginning::Declaration, size),
        "instructions" => scans::scan_all(alloc, Beginning::Instruction, size),
        "tags" => scans::scan_all(alloc, Beginning::Tag, size),
        "labels" => scans::scan_all(alloc, Beginning::Label, size),
        "entities" => scans::scan_all(alloc, Beginning::Entity, size),
        _ => None,
    }
}
