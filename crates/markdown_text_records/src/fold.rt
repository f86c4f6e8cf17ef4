//! The case folding of link labels, by which definitions are looked up.
ghost use Rattle.std.specs.Prelude.{◌≡◌, IfErr, IfOk, string_bytes};
ghost use Rattle.markdown_defs.specs.Folding.{folded_text};

use caseless::default_case_fold_str;
use markdown_base::fault::Fault;
use std::alloc::Global;

/// Returns the full case folding of a link label: two labels match if and only if theirs are equal (CommonMark 4.7, except
/// that white space is not collapsed). The only error is `Fault::Memory`.
pub fn fold_label(alloc: Global, label: &str) -> Result<String, Fault>
    ensures folded { IfOk result (λ folded. string_bytes folded ≡ folded_text label.now) }
    ensures refused { IfErr result (λ fault. fault ≡ Fault.Memory) }
{
    Ok(default_case_fold_str(alloc, label)?)
}
