//! The parts of a block result other than its tree.
ghost use Rattle.std.specs.Prelude.{◌≡◌, IfOk, IfErr, IsOk};
ghost use Rattle.markdown_base.specs.BlockParts.{definition_view};
ghost use Rattle.markdown_base.specs.StoredTexts.{HasShortTexts, IsBorrowed, IsBoxed};
ghost use Rattle.markdown_base.specs.CopiedTexts.{KeepsSlices, texts_of_definition};
ghost use Rattle.markdown_base.specs.declared.fault.Fault.{Fault};

use crate::copies::{clone_optional, static_optional};
use crate::cow_str::CowStr;
use crate::fault::Fault;
use crate::tag::Alignment;
use std::alloc::Global;
use std::ops::Range;

/// A link reference definition (CommonMark 4.7).
#[derive(Debug, Drop)]
pub struct LinkDef<'a> {
    /// The destination of its links.
    pub dest: CowStr<'a>,
    /// The title of its links, if it has one.
    pub title: Option<CowStr<'a>>,
    /// The definition's source range in bytes, from its `[` to its end.
    pub span: Range<usize>,
}

impl<'a> LinkDef<'a> {
    /// Returns a copy of the definition. Slices of the source are copied as slices, and only boxed texts of more than
    /// 22 bytes allocate memory. The only error is `Fault::Memory`.
    pub fn try_clone(&self, alloc: Global) -> Result<LinkDef<'a>, Fault>
        ensures same { IfOk result (λ copy. definition_view copy ≡ definition_view self.now) }
        ensures slices { IfOk result
            (λ copy. KeepsSlices (texts_of_definition self.now) (texts_of_definition copy)) }
        ensures short { HasShortTexts IsBoxed self.now → IsOk result }
        ensures refused { IfErr result (λ fault. fault ≡ Fault.Memory) }
    {
        let dest = self.dest.try_clone(alloc)?;
        let title = clone_optional(&self.title, alloc)?;
        Ok(LinkDef {
            dest,
            title,
            span: self.span.start..self.span.end,
        })
    }

    /// Returns the same definition without borrowing from the source. Only slices of more than 22 bytes allocate
    /// memory. The only error is `Fault::Memory`, in which case the definition is dropped.
    pub fn into_static(self, alloc: Global) -> Result<LinkDef<'static>, Fault>
        ensures same { IfOk result (λ made. definition_view made ≡ definition_view self.entry) }
        ensures short { HasShortTexts IsBorrowed self.entry → IsOk result }
        ensures refused { IfErr result (λ fault. fault ≡ Fault.Memory) }
    {
        let dest = self.dest.into_static(alloc)?;
        let title = static_optional(self.title, alloc)?;
        Ok(LinkDef {
            dest,
            title,
            span: self.span,
        })
    }
}

/// The attributes in braces after a heading.
#[derive(Debug, Drop)]
pub struct HeadingAttributes<'a> {
    /// The id, without its `#`, if there is one.
    pub id: Option<CowStr<'a>>,
    /// The classes, each without its `.`.
    pub classes: Vec<CowStr<'a>>,
    /// Names, each with its value if it has one.
    pub attrs: Vec<(CowStr<'a>, Option<CowStr<'a>>)>,
}

/// The parts that the items of a tree refer to by number, and the definitions.
#[derive(Debug, Drop)]
pub struct BlockParts<'a> {
    /// Link labels with their reference definitions, in the order of the source.
    pub definitions: Vec<(CowStr<'a>, LinkDef<'a>)>,
    /// The names of the defined footnotes.
    pub footnotes: Vec<CowStr<'a>>,
    /// The texts, by `CowIndex`.
    pub cows: Vec<CowStr<'a>>,
    /// The alignments of tables, by `AlignmentIndex`.
    pub alignments: Vec<Vec<Alignment>>,
    /// The attributes of headings, by `HeadingIndex`.
    pub headings: Vec<HeadingAttributes<'a>>,
}
