//! Scans at each offset of a text where they may begin, and where nothing is found.
use markdown_raw_html::html_tag::scan_html_tag;
use markdown_raw_html::raw_html::RawHtmlScanner;
use markdown_scan::entity::{EntityNames, scan_entity};
use markdown_scan::label::scan_link_label;
use markdown_scan::line_rule::NoPrefix;
use std::alloc::Global;

/// Markup that begins and does not end.
#[derive(Clone, Copy, Drop)]
pub enum Beginning {
    Comment,
    CdataSection,
    Declaration,
    Instruction,
    Tag,
    Label,
    Entity,
}

impl Beginning {
    fn text(self) -> &'static str {
        match self {
            Beginning::Comment => "<!--",
            Beginning::CdataSection => "<![CDATA[",
            Beginning::Declaration => "<!A",
            Beginning::Instruction => "<?",
            Beginning::Tag => "<a \"",
            Beginning::Label => "[",
            Beginning::Entity => "&#",
        }
    }

    /// Returns it, repeated `times` times.
    pub fn repeat(self, alloc: Global, times: usize) -> Option<String> {
        let mut all = String::new(alloc);
        for _ in 0..times {
            all.push_str(self.text()).ok()?;
        }
        Some(all)
    }
}

/// Returns whether something is found whose first byte is at `at`.
fn is_found(
    alloc: Global,
    scanner: &mut RawHtmlScanner<'_>,
    text: &str,
    beginning: Beginning,
    at: usize,
) -> bool {
    let Some(rest) = text.get(at..) else {
        return false;
    };
    let inside = at.saturating_add(2);
    if inside > scanner.text.len() {
        return false;
    }
    match beginning {
        Beginning::Comment => scanner.scan_comment(inside).is_some(),
        Beginning::CdataSection => scanner.scan_cdata_section(inside).is_some(),
        Beginning::Declaration => scanner.scan_declaration(inside).is_some(),
        Beginning::Instruction => scanner.scan_processing_instruction(inside).is_some(),
        Beginning::Tag => match scan_html_tag(alloc, rest, 0, &NoPrefix) {
            Ok(found) => found.is_some(),
            Err(_) => false,
        },
        Beginning::Label => match scan_link_label(alloc, rest, &NoPrefix, false) {
            Ok(found) => found.is_some(),
            Err(_) => false,
        },
        Beginning::Entity => scan_entity(rest.as_bytes(), EntityNames::Basic).is_some(),
    }
}

/// Returns how many are found in `times` beginnings.
pub fn scan_all(alloc: Global, beginning: Beginning, times: usize) -> Option<usize> {
    let text = beginning.repeat(alloc, times)?;
    let mut scanner = RawHtmlScanner::new(text.as_str().as_bytes());
    let mut count = 0usize;
    let mut at = 0usize;
    for _ in 0..times {
        if is_found(alloc, &mut scanner, text.as_str(), beginning, at) {
            count = count.saturating_add(1);
        }
        at = at.saturating_add(beginning.text().len());
    }
    Some(count)
}
