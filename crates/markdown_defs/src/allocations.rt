//! The parts that the items of a block result refer to by number, including those that are added while chains are
//! resolved.
ghost use Rattle.std.specs.Prelude.{◌≡◌, ◌+◌, ◌-◌, IfErr, IfOk, OnErr, length, slice_index_or};
ghost use Rattle.markdown_base.specs.declared.fault.Fault.{Fault};
ghost use Rattle.markdown_defs.specs.AllocationCalls.{HasAlignment, HasCow, HasHeading, HasLink};
ghost use Rattle.markdown_defs.specs.AllocationCalls.{HoldsParts, LeavesEmptyAlignment};
ghost use Rattle.markdown_defs.specs.AllocationCalls.{LeavesEmptyCow, LeavesEmptyLink};
ghost use Rattle.markdown_defs.specs.AllocationCalls.{with_alignment, with_cow, with_heading};
ghost use Rattle.markdown_defs.specs.AllocationCalls.{with_link};

use super::definitions::RefDefs;
use super::footnotes::FootnoteDefs;
use markdown_base::block_parts::{BlockParts, HeadingAttributes};
use markdown_base::cow_str::CowStr;
use markdown_base::fault::Fault;
use markdown_base::index::{AlignmentIndex, CowIndex, HeadingIndex, LinkIndex};
use markdown_base::tag::{Alignment, LinkType};
use std::alloc::Global;
use std::marker::Model;
use std::mem;
use std::ops::Index;

/// The texts, links, alignments and attributes that items refer to by number, and the definitions and footnotes, which
/// are looked up by labels and names.
#[derive(Drop)]
pub struct Allocations<'a> {
    pub refdefs: RefDefs<'a>,
    pub footdefs: FootnoteDefs,
    cows: Vec<CowStr<'a>>,
    links: Vec<(LinkType, CowStr<'a>, CowStr<'a>, CowStr<'a>)>,
    alignments: Vec<Vec<Alignment>>,
    headings: Vec<HeadingAttributes<'a>>,
}

impl<'a> Model for Allocations<'a> {
    ghost use Rattle.std.specs.Coded.{codes};
    ghost use Rattle.markdown_defs.specs.contracts.footnotes.FootnoteDefs as footnotes;
    ghost use Rattle.markdown_defs.specs.Allocations.{Allocated};

    ghost Value = { Allocated };

    ghost coded = { Prim.hlevel (codes, footnotes.the_row.coded) };

    ghost view = { λ a. record {
      refdefs = a.refdefs;
      footdefs = a.footdefs;
      cows = a.cows.items;
      links = a.links.items;
      alignments = a.alignments.items;
      headings = a.headings.items;
    } };
}

impl<'a> Allocations<'a> {
    /// Returns the parts of a block result, without any links. The only error is `Fault::Memory`, in which case the
    /// parts are dropped.
    pub fn new(alloc: Global, parts: BlockParts<'a>) -> Result<Allocations<'a>, Fault>
        ensures holds { IfOk result (HoldsParts parts.entry) }
        ensures refused { IfErr result (λ fault. fault ≡ Fault.Memory) }
    {
        let BlockParts {
            definitions,
            footnotes,
            cows,
            alignments,
            headings,
        } = parts;
        Ok(Allocations {
            refdefs: RefDefs::new(alloc, definitions)?,
            footdefs: FootnoteDefs::new(alloc, footnotes)?,
            cows,
            links: Vec::new(alloc),
            alignments,
            headings,
        })
    }

    /// Adds a text and returns its number. The only error is `Fault::Memory`, in which case nothing has changed and the
    /// text is dropped.
    pub fn allocate_cow(&mut self, cow: CowStr<'a>) -> Result<CowIndex, Fault>
        ensures number { IfOk result (λ ix. ix.0 ≡ length self.old.cows) }
        ensures put { IfOk result (λ _. self.new ≡ with_cow self.old cow.entry) }
        ensures refused { IfErr result (λ fault. fault ≡ Fault.Memory) }
        ensures unchanged { OnErr result (self.new ≡ self.old) }
    {
        let ix = CowIndex::of(self.cows.len())?;
        self.cows.push(cow)?;
        Ok(ix)
    }

    /// Adds a link and returns its number. The only error is `Fault::Memory`, in which case nothing has changed and the
    /// texts are dropped.
    // inlined: the three texts would otherwise be moved twice
    #[inline(always)]
    pub fn allocate_link(
        &mut self,
        ty: LinkType,
        url: CowStr<'a>,
        title: CowStr<'a>,
        id: CowStr<'a>,
    ) -> Result<LinkIndex, Fault>
        ensures number { IfOk result (λ ix. ix.0 ≡ length self.old.links) }
        ensures put { IfOk result (λ _.
            self.new ≡ with_link self.old (ty, url.entry, title.entry, id.entry)) }
        ensures refused { IfErr result (λ fault. fault ≡ Fault.Memory) }
        ensures unchanged { OnErr result (self.new ≡ self.old) }
    {
        let ix = self.links.len();
        self.links.push((ty, url, title, id))?;
        Ok(LinkIndex(ix))
    }

    /// Adds the alignments of a table and returns their number. The only error is `Fault::Memory`, in which case
    /// nothing has changed and the alignments are dropped.
    pub fn allocate_alignment(&mut self, alignment: Vec<Alignment>) -> Result<AlignmentIndex, Fault>
        ensures number { IfOk result (λ ix. ix.0 ≡ length self.old.alignments) }
        ensures put { IfOk result (λ _. self.new ≡ with_alignment self.old alignment) }
        ensures refused { IfErr result (λ fault. fault ≡ Fault.Memory) }
        ensures unchanged { OnErr result (self.new ≡ self.old) }
    {
        let ix = self.alignments.len();
        self.alignments.push(alignment)?;
        Ok(AlignmentIndex(ix))
    }

    /// Adds the attributes of a heading and returns their number, counted from 1. The only error is `Fault::Memory`, in
    /// which case nothing has changed and the attributes are dropped.
    pub fn allocate_heading(
        &mut self,
        heading: HeadingAttributes<'a>,
    ) -> Result<HeadingIndex, Fault>
        ensures number { IfOk result (λ ix. ix.0 ≡ length self.old.headings + 1) }
        ensures put { IfOk result (λ _. self.new ≡ with_heading self.old heading.entry) }
        ensures refused { IfErr result (λ fault. fault ≡ Fault.Memory) }
        ensures unchanged { OnErr result (self.new ≡ self.old) }
    {
        let ix = HeadingIndex::of(self.headings.len() + 1)?;
        self.headings.push(heading)?;
        Ok(ix)
    }

    /// Takes a text out and returns it; an empty text takes its place. Allocates no memory.
    pub fn take_cow(&mut self, ix: CowIndex) -> CowStr<'a>
        requires { HasCow self.old ix }
        ensures taken { result ≡ slice_index_or self.old.cows ix.0 result }
        ensures left { LeavesEmptyCow self.old self.new ix }
    {
        mem::replace(&mut self.cows[ix.0 as usize], CowStr::Borrowed(""))
    }

    /// Takes a link out and returns its type, destination, title and id; `ShortcutUnknown` with three empty texts takes
    /// its place. Allocates no memory.
    pub fn take_link(&mut self, ix: LinkIndex) -> (LinkType, CowStr<'a>, CowStr<'a>, CowStr<'a>)
        requires { HasLink self.old ix }
        ensures taken { result ≡ slice_index_or self.old.links ix.0 result }
        ensures left { LeavesEmptyLink self.old self.new ix }
    {
        let empty = (
            LinkType::ShortcutUnknown,
            CowStr::Borrowed(""),
            CowStr::Borrowed(""),
            CowStr::Borrowed(""),
        );
        mem::replace(&mut self.links[ix.0], empty)
    }

    /// Takes a table's alignments out and returns them; an empty list takes their place. Allocates no memory.
    pub fn take_alignment(&mut self, ix: AlignmentIndex) -> Vec<Alignment>
        requires { HasAlignment self.old ix }
        ensures taken { result ≡ slice_index_or self.old.alignments ix.0 result }
        ensures left { LeavesEmptyAlignment self.old self.new ix }
    {
        let empty = Vec::new(*self.alignments.allocator());
        mem::replace(&mut self.alignments[ix.0], empty)
    }
}

/// Returns the text of an assigned number.
impl<'a> Index<CowIndex> for Allocations<'a> {
    type Output = CowStr<'a>;

    ghost can_index = { HasCow };

    ghost index_gives = { λ held ix cow. cow ≡ slice_index_or held.cows ix.0 cow };

    fn index(&self, ix: CowIndex) -> &CowStr<'a> {
        &self.cows[ix.0 as usize]
    }
}

/// Returns the type, destination, title and id of the link of an assigned number.
impl<'a> Index<LinkIndex> for Allocations<'a> {
    type Output = (LinkType, CowStr<'a>, CowStr<'a>, CowStr<'a>);

    ghost can_index = { HasLink };

    ghost index_gives = { λ held ix link. link ≡ slice_index_or held.links ix.0 link };

    fn index(&self, ix: LinkIndex) -> &(LinkType, CowStr<'a>, CowStr<'a>, CowStr<'a>) {
        &self.links[ix.0]
    }
}

/// Returns the alignments of an assigned number.
impl<'a> Index<AlignmentIndex> for Allocations<'a> {
    type Output = Vec<Alignment>;

    ghost can_index = { HasAlignment };

    ghost index_gives = { λ held ix alignment.
        alignment ≡ slice_index_or held.alignments ix.0 alignment };

    fn index(&self, ix: AlignmentIndex) -> &Vec<Alignment> {
        &self.alignments[ix.0]
    }
}

/// Returns the attributes of an assigned number, counted from 1.
impl<'a> Index<HeadingIndex> for Allocations<'a> {
    type Output = HeadingAttributes<'a>;

    ghost can_index = { HasHeading };

    ghost index_gives = { λ held ix heading.
        heading ≡ slice_index_or held.headings (ix.0 - 1) heading };

    fn index(&self, ix: HeadingIndex) -> &HeadingAttributes<'a> {
        &self.headings[ix.0 as usize - 1]
    }
}
