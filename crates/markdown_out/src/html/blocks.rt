//! The Starts of block quotes, code blocks and lists.
ghost use Rattle.std.specs.Prelude.{◌≡◌, OnOk, OnErr};
ghost use Rattle.markdown_base.specs.Event.{code_block_view, block_quote, list};
ghost use Rattle.markdown_out.specs.ByteLists.{fresh_after_bytes, joined};
ghost use Rattle.markdown_out.specs.StringAppends.{Appends, AppendsPart};
ghost use Rattle.markdown_out.specs.TagHtml.{start_parts, quote_class};
ghost use Rattle.markdown_out.specs.TagHtml.{language, code_block_parts, numbered_list_parts};

use super::pieces::{line_break, put};
use super::{Piece, Writer};
use itoa::Buffer;
use markdown_base::tag::{BlockQuoteKind, CodeBlockKind};
use std::alloc::AllocError;

/// Returns the class attribute of a block quote, with the space before it; without a kind, nothing.
fn class_of(kind: Option<BlockQuoteKind>) -> &'static str
    ensures { result.now ≡ quote_class kind }
{
    match kind {
        None => "",
        Some(BlockQuoteKind::Note) => " class=\"markdown-alert-note\"",
        Some(BlockQuoteKind::Tip) => " class=\"markdown-alert-tip\"",
        Some(BlockQuoteKind::Important) => " class=\"markdown-alert-important\"",
        Some(BlockQuoteKind::Warning) => " class=\"markdown-alert-warning\"",
        Some(BlockQuoteKind::Caution) => " class=\"markdown-alert-caution\"",
    }
}

/// Returns the language of an info string: the text before its first space.
fn language_of(info: &str) -> &str
    ensures { result.now ≡ language info.now }
{
    match info.split_once(' ') {
        Some((name, _)) => name,
        None => info,
    }
}

/// Appends the Start of a code block, with a class for its language where that is not empty.
fn put_code_block(s: &mut String, fresh: &mut bool, name: &str) -> Result<(), AllocError>
    ensures ok { OnOk result (Appends s.old s.new (joined (code_block_parts fresh.old name.now))) }
    ensures fresh { OnOk result (fresh.new ≡ fresh_after_bytes fresh.old
        (joined (code_block_parts fresh.old name.now))) }
    ensures err { OnErr result (AppendsPart s.old s.new
        (joined (code_block_parts fresh.old name.now))) }
{
    let first = line_break(*fresh);
    if name.is_empty() {
        return put(s, fresh, &[Piece::Raw(first), Piece::Raw("<pre><code>")]);
    }
    put(
        s,
        fresh,
        &[
            Piece::Raw(first),
            Piece::Raw("<pre><code class=\"language-"),
            Piece::Attribute(name),
            Piece::Raw("\">"),
        ],
    )
}

/// Appends the Start of an ordered list whose first number is not 1.
fn put_numbered_list(s: &mut String, fresh: &mut bool, digits: &str) -> Result<(), AllocError>
    ensures ok { OnOk result (Appends s.old s.new
        (joined (numbered_list_parts fresh.old digits.now))) }
    ensures fresh { OnOk result (fresh.new ≡ fresh_after_bytes fresh.old
        (joined (numbered_list_parts fresh.old digits.now))) }
    ensures err { OnErr result (AppendsPart s.old s.new
        (joined (numbered_list_parts fresh.old digits.now))) }
{
    let first = line_break(*fresh);
    put(
        s,
        fresh,
        &[
            Piece::Raw(first),
            Piece::Raw("<ol start=\""),
            Piece::Raw(digits),
            Piece::Raw("\">\n"),
        ],
    )
}

impl<'a> Writer<'a> {
    ghost use Rattle.markdown_out.specs.Writer.{view, after_bytes};

    /// Appends the Start of a block quote.
    pub(super) fn block_quote(
        &mut self,
        s: &mut String,
        kind: Option<BlockQuoteKind>,
    ) -> Result<(), AllocError>
        ensures ok { OnOk result (Appends s.old s.new (joined (start_parts (view self.old)
            (block_quote kind)))) }
        ensures state { OnOk result (self.new ≡ after_bytes self.old
            (joined (start_parts (view self.old) (block_quote kind)))) }
        ensures err { OnErr result (AppendsPart s.old s.new (joined (start_parts (view self.old)
            (block_quote kind)))) }
    {
        let first = line_break(self.fresh);
        let class = class_of(kind);
        put(
            s,
            &mut self.fresh,
            &[
                Piece::Raw(first),
                Piece::Raw("<blockquote"),
                Piece::Raw(class),
                Piece::Raw(">\n"),
            ],
        )
    }

    /// Appends the Start of a code block.
    pub(super) fn code_block(
        &mut self,
        s: &mut String,
        kind: &CodeBlockKind<'_>,
    ) -> Result<(), AllocError>
        ensures ok { OnOk result (Appends s.old s.new (joined (start_parts (view self.old)
            (code_block_view kind.now)))) }
        ensures state { OnOk result (self.new ≡ after_bytes self.old
            (joined (start_parts (view self.old) (code_block_view kind.now)))) }
        ensures err { OnErr result (AppendsPart s.old s.new (joined (start_parts (view self.old)
            (code_block_view kind.now)))) }
    {
        match kind {
            CodeBlockKind::Indented => put_code_block(s, &mut self.fresh, ""),
            CodeBlockKind::Fenced(info) => {
                let name = language_of(info.as_str());
                put_code_block(s, &mut self.fresh, name)
            }
        }
    }

    /// Appends the Start of a list: an ordered one, where there is a first number.
    pub(super) fn list(&mut self, s: &mut String, first: Option<u64>) -> Result<(), AllocError>
        ensures ok { OnOk result (Appends s.old s.new (joined (start_parts (view self.old)
            (list first)))) }
        ensures state { OnOk result (self.new ≡ after_bytes self.old
            (joined (start_parts (view self.old) (list first)))) }
        ensures err { OnErr result (AppendsPart s.old s.new (joined (start_parts (view self.old)
            (list first)))) }
    {
        let line = line_break(self.fresh);
        let Some(number) = first else {
            return put(
                s,
                &mut self.fresh,
                &[Piece::Raw(line), Piece::Raw("<ul>\n")],
            );
        };
        if number == 1 {
            return put(
                s,
                &mut self.fresh,
                &[Piece::Raw(line), Piece::Raw("<ol>\n")],
            );
        }
        let mut digits = Buffer::new();
        put_numbered_list(s, &mut self.fresh, digits.format(number))
    }
}
