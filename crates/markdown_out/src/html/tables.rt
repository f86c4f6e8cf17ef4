//! The Starts of tables and of their cells.
ghost use Rattle.std.specs.Prelude.{◌≡◌, ◌++◌, None, OnOk, OnErr};
ghost use Rattle.std.specs.Option.{option_copied};
ghost use Rattle.markdown_base.specs.Event.{start as start_event, table, table_cell};
ghost use Rattle.markdown_out.specs.ByteLists.{joined};
ghost use Rattle.markdown_out.specs.StringAppends.{Appends, AppendsPart};
ghost use Rattle.markdown_out.specs.TagHtml.{cell_style, start_parts};

use super::pieces::put;
use super::{Piece, Writer};
use markdown_base::tag::Alignment;
use std::alloc::AllocError;

/// Returns the rest of a cell's tag: its alignment, by the attribute `align` or by its style, and the `>`.
fn style_of(align: bool, alignment: Option<&Alignment>) -> &'static str
    ensures { result.now ≡ cell_style align (option_copied alignment.entry) }
{
    match alignment {
        Some(Alignment::Left) if align => " align=\"left\">",
        Some(Alignment::Center) if align => " align=\"center\">",
        Some(Alignment::Right) if align => " align=\"right\">",
        Some(Alignment::Left) => " style=\"text-align: left\">",
        Some(Alignment::Center) => " style=\"text-align: center\">",
        Some(Alignment::Right) => " style=\"text-align: right\">",
        _ => ">",
    }
}

impl<'a> Writer<'a> {
    ghost use Rattle.markdown_out.specs.Writer.{view, view_after, after_bytes};

    /// Appends the Start of a table outside images, and keeps the alignments of its columns.
    pub(super) fn table(
        &mut self,
        s: &mut String,
        alignments: Vec<Alignment>,
    ) -> Result<(), AllocError>
        requires { self.old.image ≡ None }
        ensures ok { OnOk result (Appends s.old s.new (joined (start_parts (view self.old)
            (table alignments.items)))) }
        ensures told { OnOk result (view self.new ≡ view_after (view self.old)
            (start_event (table alignments.items))) }
        ensures err { OnErr result (AppendsPart s.old s.new (joined (start_parts (view self.old)
            (table alignments.items)))) }
    {
        self.alignments = alignments;
        self.raw(s, "<table>")
    }

    /// Returns the tag of a cell, in two parts: its name, which depends on whether the cell belongs to a head, and the
    /// rest, which depends on its column.
    fn cell_start(&self) -> (&'static str, &'static str)
        ensures { result.0.now ++ result.1.now ≡ joined (start_parts (view self.now) table_cell) }
    {
        let name = if self.in_head { "<th" } else { "<td" };
        (
            name,
            style_of(
                self.rules.align,
                self.alignments.as_slice().get(self.column),
            ),
        )
    }

    /// Appends the Start of a cell.
    pub(super) fn cell(&mut self, s: &mut String) -> Result<(), AllocError>
        ensures ok { OnOk result (Appends s.old s.new
            (joined (start_parts (view self.old) table_cell))) }
        ensures state { OnOk result (self.new ≡ after_bytes self.old
            (joined (start_parts (view self.old) table_cell))) }
        ensures err { OnErr result (AppendsPart s.old s.new
            (joined (start_parts (view self.old) table_cell))) }
    {
        let (name, style) = self.cell_start();
        put(s, &mut self.fresh, &[Piece::Raw(name), Piece::Raw(style)])
    }
}
