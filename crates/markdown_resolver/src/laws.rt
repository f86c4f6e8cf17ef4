//! The laws of what a chain is resolved to, each a function without code: for nodes annotated with the numbers of an
//! arena's nodes, and for nodes without notes, as in a document's tree.
ghost use Rattle.std.specs.Prelude.{ℕ, ⊤};
ghost use Rattle.markdown_resolver.specs.ChainQuestions.{ChainCountLaw, ChainEndsLaw, DocumentLineLaw};
ghost use Rattle.markdown_resolver.specs.Laws.{QuietLaw, OrderLaw, ClosedChainLaw, BeginLaw, AnswerLaw, WeightLaw, NoteLaw};
ghost use Rattle.markdown_resolver.specs.Laws.{DocumentLaw, WholeLaw};
ghost use Rattle.markdown_resolver.specs.NestedChains.{DocumentNestLaw};
ghost use Rattle.markdown_resolver.specs.SlicesInPlace.{DocumentSlicesLaw};

/// States that resolving a chain in which only delimiter runs and quotation marks are open asks nothing, and only pairs
/// them.
pub fn quiet_chain_asks_nothing()
    ensures { QuietLaw ℕ × QuietLaw ⊤ }
{}

/// States that the chains of children may be paired before the chain that contains them or after it.
pub fn order_of_chains_is_free()
    ensures { OrderLaw ℕ × OrderLaw ⊤ }
{}

/// States that no item of a resolved chain is open.
pub fn resolved_chain_is_closed()
    ensures { ClosedChainLaw ℕ × ClosedChainLaw ⊤ }
{}

/// States that a chain whose first item is open begins with an event once it is resolved.
pub fn resolved_chain_begins()
    ensures { BeginLaw ℕ × BeginLaw ⊤ }
{}

/// States that answers that no question uses are passed on.
pub fn later_answers_are_handed_on()
    ensures { AnswerLaw ℕ × AnswerLaw ⊤ }
{}

/// States that resolving makes no chain heavier.
pub fn resolved_chain_is_no_heavier()
    ensures { WeightLaw ℕ × WeightLaw ⊤ }
{}

/// States that the result does not depend on the numbers of nodes.
pub fn notes_say_nothing()
    ensures { NoteLaw ℕ ⊤ }
{}

/// States that the delimiter runs of a well-formed block result are whole where its items are read as nodes.
pub fn runs_of_documents_are_whole()
    ensures { DocumentLaw }
{}

/// States that pass one breaks no delimiter run.
pub fn runs_stay_whole()
    ensures { WholeLaw ℕ × WholeLaw ⊤ }
{}

/// States that resolving a chain asks at most one question for each of its `]`, and none at a limit of 0.
pub fn each_bracket_asks_once_at_most()
    ensures { ChainCountLaw ℕ × ChainCountLaw ⊤ }
{}

/// States that no two questions of a chain end at the same byte offset, where its items are in order and cover their
/// markup.
pub fn questions_of_a_chain_end_apart()
    ensures { ChainEndsLaw ℕ × ChainEndsLaw ⊤ }
{}

/// States that the items of each chain of a well-formed block result are in order and cover their markup.
pub fn chains_of_documents_stand_in_line()
    ensures { DocumentLineLaw }
{}

/// States that in each chain of a well-formed block result, and in each chain of children that pass one makes of it, any
/// two pairs are nested or disjoint.
pub fn pairs_of_each_chain_nest()
    ensures { DocumentNestLaw }
{}

/// States that in each chain of a well-formed block result, once it is resolved, the texts of code and of math, the
/// destinations of autolinks and the names of wikilinks are slices within their own trees' ranges where their origins say
/// that they are slices: all but those of the first tree that a wikilink shows after its pipe.
pub fn slices_of_each_chain_are_in_place()
    ensures { DocumentSlicesLaw }
{}
