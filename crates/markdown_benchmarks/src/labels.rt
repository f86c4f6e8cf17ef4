//! Labels of definitions and names of footnotes, by their numbers; some of them are chosen to have the same hash.
use std::alloc::Global;

/// A kind of labels of definitions, or of names of footnotes.
#[derive(Clone, Copy, Drop)]
pub enum LabelKind {
    /// The numbers in digits.
    Numbers,
    /// 24 bytes that all of them share, and then the number in eight digits.
    Long,
    /// The same, but the shared bytes are chosen so that all of them have the same hash by the hash function of the
    /// standard library, which has no secret: in its second step their bytes 16 to 24 cancel the hash so far, so
    /// that the product is 0, whatever the digits are.
    Chosen,
}

impl LabelKind {
    /// Returns the label of a number.
    pub fn label(self, alloc: Global, number: usize) -> Option<String> {
        let label = match self {
            LabelKind::Numbers => number.to_string(alloc),
            LabelKind::Long => format!(in alloc; "footnote06342484abcdefgh{number:08}"),
            LabelKind::Chosen => format!(in alloc; "footnote06342484uv5h5n5p{number:08}"),
        };
        label.ok()
    }
}

/// Returns the first `size` labels.
pub fn first_labels(alloc: Global, kind: LabelKind, size: usize) -> Option<Vec<String>> {
    let mut labels = Vec::new(alloc);
    for number in 0..size {
        labels.push(kind.label(alloc, number)?).ok()?;
    }
    Some(labels)
}
