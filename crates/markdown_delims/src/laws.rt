//! Laws of pairing, as functions without code: what each ensures is proved.
ghost use Rattle.std.specs.Prelude.{ℕ, ⊤};
ghost use Rattle.markdown_delims.specs.JoinedRuns.{JoinedLaw};
ghost use Rattle.markdown_delims.specs.NestedPairs.{NestLaw};
ghost use Rattle.markdown_delims.specs.PairingLaws.{PairingClosedLaw, PairingOrderLaw, JoinsLaw, MissesNoneLaw, NoneMissedLaw};
ghost use Rattle.markdown_delims.specs.PairingLaws.{KeepsLaw, PairingBeginsLaw, PairingWeightLaw, PairingNoteLaw};

/// States that pairing leaves nothing of its chain open.
pub fn pairing_leaves_nothing_open()
    ensures { PairingClosedLaw ℕ × PairingClosedLaw ⊤ }
{}

/// States that a chain and the chains below it may be resolved in either order.
pub fn order_of_chains_is_free()
    ensures { PairingOrderLaw ℕ × PairingOrderLaw ⊤ }
{}

/// States that a closer pairs only with a run with which it may pair.
pub fn pairs_join_what_may_pair()
    ensures { JoinsLaw ℕ × JoinsLaw ⊤ }
{}

/// States that no open run that is not dropped may pair with a closer whose search finds nothing.
pub fn closer_misses_none()
    ensures { MissesNoneLaw ℕ × MissesNoneLaw ⊤ }
{}

/// States that, if the trees of a chain lie one after the other, any two pairs are nested or disjoint.
pub fn pairs_nest_or_lie_apart()
    ensures { NestLaw ℕ × NestLaw ⊤ }
{}

/// States that each pair goes from a character of an opener to a character of a closer, and that the two may pair.
pub fn each_pair_joins_runs()
    ensures { JoinedLaw ℕ × JoinedLaw ⊤ }
{}

/// States that no pair is missed: of two runs of `*` or `_` in a chain that may pair, the earlier one as the opener,
/// some pair encloses the characters of one that remain as text, and not those of the other.
pub fn none_is_missed()
    ensures { NoneMissedLaw ℕ × NoneMissedLaw ⊤ }
{}

/// States that each node that is made has the block of a node of the chain, and is not open.
pub fn pairing_keeps_blocks()
    ensures { KeepsLaw ℕ × KeepsLaw ⊤ }
{}

/// States that a chain whose first tree reads as more than what is below it begins with an event once it is paired.
pub fn paired_chain_begins()
    ensures { PairingBeginsLaw ℕ × PairingBeginsLaw ⊤ }
{}

/// States that pairing does not increase the weight of a chain.
pub fn paired_chain_is_no_heavier()
    ensures { PairingWeightLaw ℕ × PairingWeightLaw ⊤ }
{}

/// States that pairing does not depend on the numbers of nodes.
pub fn notes_say_nothing()
    ensures { PairingNoteLaw ℕ ⊤ }
{}
