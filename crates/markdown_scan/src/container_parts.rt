//! What a container takes of a line (CommonMark 5.1, 5.2, and footnote definitions).
ghost use Rattle.std.specs.Prelude.{◌≡◌, None, Some, if◌then◌else◌};
ghost use Rattle.markdown_scan.specs.ContainerParts.{past_indent, past_part, past_quote};
ghost use Rattle.markdown_scan.specs.LineView.{line_left};

use crate::line_start::LineStart;
use markdown_base::item::ItemBody;

/// Reads a block quote's part, and returns whether it was there.
#[inline(always)]
fn take_quote(line: &mut LineStart<'_>) -> bool
    ensures { (if result then Some (line_left line.new) else None)
        ≡ past_quote (line_left line.old) }
{
    line.scan_space_upto(4) < 4 && line.scan_blockquote_marker()
}

/// Reads the part of an item whose content is indented by `indent` columns, and returns whether it was there.
#[inline(always)]
fn take_indent(line: &mut LineStart<'_>, indent: usize) -> bool
    ensures { (if result then Some (line_left line.new) else None)
        ≡ past_indent indent (line_left line.old) }
{
    line.scan_space_upto(indent) == indent || line.is_at_eol()
}

/// Reads a block's part of a line, and returns whether it was there; a block that is no container has none, and nothing
/// is read. `gfm_footnotes` is whether footnotes are in GitHub's style. Where the part is missing, some of the line's
/// space may have been read.
// inlined: the block pass calls it for each container in each line
#[inline(always)]
pub fn take_part(line: &mut LineStart<'_>, block: ItemBody, gfm_footnotes: bool) -> bool
    ensures part { (if result then Some (line_left line.new) else None)
        ≡ past_part gfm_footnotes block (line_left line.old) }
{
    match block {
        ItemBody::BlockQuote(_) => take_quote(line),
        ItemBody::ListItem(indent) => take_indent(line, indent),
        ItemBody::DefinitionListDefinition(indent) => take_indent(line, indent),
        ItemBody::FootnoteDefinition(_) if gfm_footnotes => take_indent(line, 4),
        _ => true,
    }
}
