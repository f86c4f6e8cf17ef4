//! Laws of readings, as a reader of documents would state them: functions without code.
ghost use Rattle.std.specs.Prelude.{ℕ, ⊤};
ghost use Rattle.markdown_inline.specs.Balanced.{BalancedLaw};
ghost use Rattle.markdown_inline.specs.LimitLaw.{LimitLaw, LookUpLaw};
ghost use Rattle.markdown_inline.specs.NoLinkInLinkEvents.{NoLinkInLinkLaw};
ghost use Rattle.markdown_inline.specs.QuestionLaws.{DocumentCountLaw, DocumentEndsLaw};
ghost use Rattle.markdown_inline.specs.ReadingLaw.{ReadingLaw};
ghost use Rattle.markdown_inline.specs.TextLaw.{TextLaw};
ghost use Rattle.markdown_inline.specs.ResolvedShapes.{ShapesLaw};
ghost use Rattle.markdown_inline.specs.SlicesOfTree.{BlockSlicesLaw};
ghost use Rattle.markdown_inline.specs.TreeReading.{BlockTreeLaw, SplitLaw, TreeLaw};

/// States that the events of a whole document are balanced: each End is the `to_end` of its Start, with the same range.
pub fn events_are_balanced()
    ensures { BalancedLaw }
{}

/// States that in the events of a whole document, a link whose Start is within another link has type Autolink
/// (CommonMark 6.3).
pub fn no_link_starts_in_a_link()
    ensures { NoLinkInLinkLaw }
{}

/// States that the destinations and titles that look-ups of link labels found, for all links and images of a whole
/// document but the last, together have fewer bytes than the greater of the text's length in bytes and 100,000.
pub fn references_expand_to_few_bytes()
    ensures { LimitLaw }
{}

/// States the same for all that look-ups found, even where pairing leaves out the event of the link or the image.
pub fn look_ups_expand_to_few_bytes()
    ensures { LookUpLaw }
{}

/// States that the events of a document are those of its resolved tree, in preorder, and its questions are those of
/// resolving the tree; what comes after the tree is read with what is known then.
pub fn reading_is_that_of_the_tree()
    ensures { TreeLaw }
{}

/// States the same for each block result.
pub fn reading_of_blocks_is_that_of_their_tree()
    ensures { BlockTreeLaw }
{}

/// States that a document can be read in parts: its first trees, and then the others, with the limit and the answers
/// that the first trees left.
pub fn reading_goes_part_by_part()
    ensures { SplitLaw }
{}

/// States that resolving a chain makes no heading and no block: what is made has one of a few shapes, and all other
/// shapes come from the chain.
pub fn resolving_makes_no_block()
    ensures { ShapesLaw ℕ × ShapesLaw ⊤ }
{}

/// States that chains of children may be paired when the walk reaches them: what is read is the same as where all of
/// them are paired at once.
pub fn walk_reads_what_is_defined()
    ensures { ReadingLaw }
{}

/// States that over a whole document the callback gets at most one question for each `]` item, and none at a limit of
/// 0.
pub fn document_asks_once_for_each_bracket()
    ensures { DocumentCountLaw }
{}

/// States that no two questions of one chain of a well-formed block result end at the same byte offset.
pub fn questions_of_one_chain_end_apart()
    ensures { DocumentEndsLaw }
{}

/// States that in the tree of a block result, in which each chain is resolved, the texts of code and of math, the
/// destinations of autolinks and the names of wikilinks that are slices are slices within the ranges of their own items:
/// all but those of the first item that a wikilink shows after its pipe.
pub fn slices_of_blocks_are_in_place()
    ensures { BlockSlicesLaw }
{}

/// States that each block result of a text has the reading that is defined of the text: what is read is a function of the
/// text, of what is read of it, and of the callback's answers.
pub fn reading_of_blocks_is_that_of_the_text()
    ensures { TextLaw }
{}
