//! Well-formed block results: a text with its tree of items, and the parts that the items refer to.
ghost use Rattle.std.specs.Prelude.{◌≡◌, ◌≢◌, IfOk, IfErr};
ghost use Rattle.markdown_base.specs.ArenaForest.{numbers_below};
ghost use Rattle.markdown_base.specs.Forest.{preorder};
ghost use Rattle.markdown_base.specs.declared.fault.Fault.{Fault};
ghost use Rattle.markdown_base.specs.OneWay.{IsWellFormed-prop};
ghost use Rattle.markdown_base.specs.Source.{source_as};
ghost use Rattle.markdown_base.specs.Syntax.{full_syntax, profile_syntax};
ghost use Rattle.markdown_base.specs.WellFormed.{IsWellFormed};

use super::reach::reached_once;
use super::rules::is_well_formed;
use markdown_base::block_parts::BlockParts;
use markdown_base::fault::Fault;
use markdown_base::item::Item;
use markdown_base::options::Options;
use markdown_base::syntax::Syntax;
use markdown_base::tree::Tree;
use std::alloc::Global;
use std::fmt;

/// A well-formed block result: a text with what is read of it, its tree of items, and the parts that the items refer to.
/// What is read also decides how a parser resolves its chains of inline items.
#[derive(Drop)]
pub struct Blocks<'a> {
    text: &'a str,
    /// As the caller gave them.
    options: Options,
    /// What is read of the text.
    syntax: Syntax,
    tree: Tree<Item>,
    parts: BlockParts<'a>,
    pub ghost well_formed: { IsWellFormed text.now tree.nodes parts } by { IsWellFormed-prop
        text.now tree.nodes parts },
}

impl<'a> Blocks<'a> {
    ghost use Rattle.markdown_blocks.specs.Blocks.{text_of_blocks, block_options, block_source, block_arena, block_parts};
    ghost use Rattle.markdown_blocks.specs.Blocks.{IsBlocksOf};

    /// Returns the block result that is passed in, for the port's profile, if it is well formed: if it keeps nine rules.
    ///
    /// 1. Reached once: the tree below the root is finite, and no node is reached twice.
    /// 2. Ranges lie in: each range lies in the text, and its ends are character boundaries.
    /// 3. Inline in order: of two neighbours that are both inline, the first precedes the second, in the text and by
    ///    its number.
    /// 4. Chains are kept: inline items and thematic breaks have no children; a chain with an open item has only inline
    ///    items, and is not directly below the root.
    /// 5. Nothing resolved: no item is what an open item becomes.
    /// 6. Markup is there: the ranges of brackets, quotes, dollars, backticks and `<` are exactly their markup.
    /// 7. Runs are whole: a delimiter run of n characters is n neighbours that touch, with consecutive numbers and the
    ///    same flags, and the counts n, n - 1, .., 1; between two runs of one character there is another item.
    /// 8. Parts are named: each number by which an item refers to a part is that of a part; no text and no list of
    ///    alignments is referred to twice.
    /// 9. Blocks are settled: there is no root and no undecided block in the tree, and no tight paragraph directly in
    ///    another.
    ///
    /// Time and memory are linear in the number of nodes, however deep the tree is.
    ///
    /// # Errors
    ///
    /// `Fault::Blocks` where it is not well formed, and `Fault::Memory` if an allocation fails; the tree and
    /// the parts are then dropped.
    pub fn checked(
        alloc: Global,
        text: &'a str,
        options: Options,
        tree: Tree<Item>,
        parts: BlockParts<'a>,
    ) -> Result<Blocks<'a>, Fault>
        ensures holds { IfOk result (λ b.
            (block_source b ≡ source_as (profile_syntax options) text.now)
            × (block_options b ≡ options)
            × (block_arena b ≡ tree) × (block_parts b ≡ parts.entry)) }
        ensures rules { IfOk result (λ b.
            IsWellFormed (text_of_blocks b) (block_arena b).nodes (block_parts b)) }

        ensures refused { IfErr result (λ fault.
            fault ≡ Fault.Blocks → IsWellFormed text.now tree.nodes parts.entry → ⊥) }
        ensures faults { IfErr result (λ fault. fault ≢ Fault.Depth) }
    {
        match reached_once(alloc, &tree)? {
            None => Err(Fault::Blocks),
            Some(order) => {
                if is_well_formed(alloc, text, &tree, &parts, &order)? {
                    Ok(Blocks {
                        text,
                        options,
                        syntax: Syntax::profile(options),
                        tree,
                        parts,
                    })
                } else {
                    Err(Fault::Blocks)
                }
            }
        }
    }

    /// Returns the block result that is passed in, for the full reading, if it is well formed, as `checked` tests it.
    ///
    /// # Errors
    ///
    /// As those of `checked`.
    pub fn checked_extended(
        alloc: Global,
        text: &'a str,
        options: Options,
        tree: Tree<Item>,
        parts: BlockParts<'a>,
    ) -> Result<Blocks<'a>, Fault>
        ensures holds { IfOk result (λ b.
            (block_source b ≡ source_as (full_syntax options) text.now)
            × (block_options b ≡ options)
            × (block_arena b ≡ tree) × (block_parts b ≡ parts.entry)) }
        ensures rules { IfOk result (λ b.
            IsWellFormed (text_of_blocks b) (block_arena b).nodes (block_parts b)) }

        ensures refused { IfErr result (λ fault.
            fault ≡ Fault.Blocks → IsWellFormed text.now tree.nodes parts.entry → ⊥) }
        ensures faults { IfErr result (λ fault. fault ≢ Fault.Depth) }
    {
        let checked = Blocks::checked(alloc, text, options, tree, parts)?;
        let (text, options, tree, parts) = checked.into_parts();
        Ok(Blocks {
            text,
            options,
            syntax: Syntax::full(options),
            tree,
            parts,
        })
    }

    /// Returns what is read of the text.
    pub fn syntax(&self) -> Syntax
        ensures { result ≡ (block_source self.now).syntax }
    {
        self.syntax
    }

    /// Returns the tree of items.
    pub fn tree(&self) -> &Tree<Item>
        ensures { result.now ≡ block_arena self.now }
    {
        &self.tree
    }

    /// Returns the parts that the items refer to.
    pub fn parts(&self) -> &BlockParts<'a>
        ensures { result.now ≡ block_parts self.now }
    {
        &self.parts
    }

    /// Returns the numbers of the nodes below the root, in preorder.
    ///
    /// # Errors
    ///
    /// `Fault::Memory` if an allocation fails.
    pub fn preorder(&self, alloc: Global) -> Result<Vec<usize>, Fault>
        ensures order { IfOk result (λ order.
            order.items ≡ preorder (numbers_below (block_arena self.now).nodes)) }
        ensures refused { IfErr result (λ fault. fault ≡ Fault.Memory) }
    {
        match reached_once(alloc, &self.tree)? {
            Some(order) => Ok(order),
            // (a well-formed tree is reached once)
            None => Err(Fault::Memory),
        }
    }

    /// Returns the text, the options, the tree and the parts. Allocates nothing.
    pub fn into_parts(self) -> (&'a str, Options, Tree<Item>, BlockParts<'a>)
        ensures parts { (result.0.now ≡ text_of_blocks self.entry)
            × (result.1 ≡ block_options self.entry)
            × (result.2 ≡ block_arena self.entry) × (result.3 ≡ block_parts self.entry) }
        ensures rules { IsWellFormed result.0.now result.2.nodes result.3 }
    {
        (self.text, self.options, self.tree, self.parts)
    }

    /// Returns the block result of a text, by the port's profile: the one that the rules of blocks give (CommonMark,
    /// chapters 4 and 5, and footnotes). It is well formed, covers the text, and has inline items alone in its headings.
    ///
    /// # Errors
    ///
    /// `Fault::Memory` if an allocation fails.
    pub fn of_text(alloc: Global, text: &'a str, options: Options) -> Result<Blocks<'a>, Fault>
        ensures blocks { IfOk result (IsBlocksOf (source_as (profile_syntax options) text.now)) }
        ensures options { IfOk result (λ b. block_options b ≡ options) }
        ensures refused { IfErr result (λ fault. fault ≡ Fault.Memory) }
    {
        Blocks::of_source(alloc, text, options, Syntax::profile(options))
    }

    /// Returns the block result of a text, by the full reading: the same is true of it.
    ///
    /// # Errors
    ///
    /// `Fault::Memory` if an allocation fails.
    pub fn of_extended(alloc: Global, text: &'a str, options: Options) -> Result<Blocks<'a>, Fault>
        ensures blocks { IfOk result (IsBlocksOf (source_as (full_syntax options) text.now)) }
        ensures options { IfOk result (λ b. block_options b ≡ options) }
        ensures refused { IfErr result (λ fault. fault ≡ Fault.Memory) }
    {
        Blocks::of_source(alloc, text, options, Syntax::full(options))
    }

    /// Returns the block result of a text of which `syntax` is read: the same is true of it. `options` are kept for
    /// `into_parts`, and decide nothing.
    ///
    /// # Errors
    ///
    /// `Fault::Memory` if an allocation fails.
    pub fn of_source(
        alloc: Global,
        text: &'a str,
        options: Options,
        syntax: Syntax,
    ) -> Result<Blocks<'a>, Fault>
        ensures blocks { IfOk result (IsBlocksOf (source_as syntax text.now)) }
        ensures options { IfOk result (λ b. block_options b ≡ options) }
        ensures refused { IfErr result (λ fault. fault ≡ Fault.Memory) }
    {
        // well formed by the contract of the block pass, so that nothing is left to check
        let (tree, parts) = markdown_plain::blocks(alloc, text, syntax)?;
        Ok(Blocks {
            text,
            options,
            syntax,
            tree,
            parts,
        })
    }
}

/// Leaves out the tree and its parts, which may be as long as the text.
impl<'a> fmt::Debug for Blocks<'a> {
    fn fmt<W: fmt::Write>(&self, f: &mut fmt::Formatter<W>) -> fmt::Result {
        f.debug_struct("Blocks")
            .field("text", &self.text)
            .field("options", &self.options)
            .finish_non_exhaustive()
    }
}
