//! Container prefixes: the beginning of a line on which a chain continues that belongs to the blocks above the chain.
ghost use Rattle.std.specs.Prelude.{◌≡◌, ◌≤◌, length, take, IsTrue};
ghost use Rattle.std.specs.List.{list_all};
ghost use Rattle.std.specs.Char.{is_ascii};
ghost use Rattle.markdown_base.specs.Syntax.{gfm_footnotes};
ghost use Rattle.markdown_spans.specs.ContainerPrefix.{has_prefix};

use markdown_base::item::{Item, ItemBody};
use markdown_document::chain_place::ChainPlace;
use markdown_scan::container_parts::take_part;
use markdown_scan::line_rule::LineRule;
use markdown_scan::line_start::LineStart;

/// The containers that a chain is in.
#[derive(Drop)]
pub struct ContainerPrefix<'t> {
    /// The outermost first. A block that has no part in a line's beginning may be among them.
    pub containers: &'t [Item],
    /// Whether footnotes are enabled, in GitHub's style.
    pub gfm_footnotes: bool,
}

/// Returns whether a block has a part in the beginning of each line inside it.
pub fn has_prefix(block: ItemBody, gfm_footnotes: bool) -> bool
    ensures { result ≡ has_prefix gfm_footnotes block }
{
    match block {
        ItemBody::BlockQuote(_) => true,
        ItemBody::ListItem(_) => true,
        ItemBody::DefinitionListDefinition(_) => true,
        ItemBody::FootnoteDefinition(_) => gfm_footnotes,
        _ => false,
    }
}

impl<'t> ContainerPrefix<'t> {
    ghost use Rattle.markdown_spans.specs.PrefixView.{length_by};

    /// Returns the prefixes of the lines of a chain at a place.
    pub fn new(place: &ChainPlace<'_, 't>) -> ContainerPrefix<'t>
        ensures containers { result.containers.now ≡ place.now.containers.now }
        ensures footnotes { result.gfm_footnotes ≡ gfm_footnotes place.now.syntax }
    {
        ContainerPrefix {
            containers: place.containers,
            gfm_footnotes: place.syntax.gfm_footnotes(),
        }
    }

    /// Returns the length in bytes of the prefix at the beginning of `rest`, which follows a line ending. The prefix is
    /// ASCII. Upstream: `scan_containers`.
    pub fn length_of(&self, rest: &[u8]) -> usize
        ensures value { result ≡ length_by self.now rest.now }
        ensures within { result ≤ length rest.now }
        ensures ascii { IsTrue (list_all is_ascii (take result rest.now)) }
    {
        let mut line = LineStart::new(rest);
        'containers: for container in self.containers {
            let scanned = line.bytes_scanned();
            // of the end of a line no container takes a byte, however many there are
            if line.is_at_eol() {
                return scanned;
            }
            if !take_part(&mut line, container.body, self.gfm_footnotes) {
                return scanned;
            }
        }
        line.bytes_scanned()
    }
}

impl<'t> LineRule for ContainerPrefix<'t> {
    ghost use Rattle.std.specs.Prelude.{Some};
    ghost use Rattle.markdown_spans.specs.PrefixView.{length_by};

    ghost skipped = { λ prefix rest. Some (length_by prefix rest) };

    fn skip(&self, rest: &[u8]) -> Option<usize> {
        Some(self.length_of(rest))
    }
}
