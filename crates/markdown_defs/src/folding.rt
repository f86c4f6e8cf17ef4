//! Case folding of labels and names, as look-ups compare them.
ghost use Rattle.std.specs.Prelude.{◌≡◌, IfErr, IfOk, string_bytes};
ghost use Rattle.std.specs.List.{list_all};
ghost use Rattle.markdown_base.specs.declared.fault.Fault.{Fault};
ghost use Rattle.markdown_defs.specs.Folding.{folded_text};
ghost use Rattle.markdown_defs.specs.FoldedBytes.{is_folded_byte};

use caseless::default_case_fold_str;
use markdown_base::fault::Fault;
use std::alloc::Global;

/// Returns whether a byte is ASCII and no capital: case folding leaves it as it is.
#[inline(always)]
fn is_folded(byte: u8) -> bool
    ensures { result ≡ is_folded_byte byte }
{
    (byte < 0x80) & !((byte >= b'A') & (byte <= b'Z'))
}

/// Returns whether all bytes are ASCII and none is a capital: then the text is its own case folding.
// the loop has no exit and reads no table, so that several bytes are tested at once
#[inline(always)]
fn are_folded(bytes: &[u8]) -> bool
    ensures { result ≡ list_all is_folded_byte bytes.now }
{
    let mut folded = true;
    for byte in bytes {
        folded &= is_folded(*byte);
    }
    folded
}

/// Returns the text with full case folding. The only error is `Fault::Memory`.
#[tactic(auto, using(crate::proofs::FoldedBytesLemmas::folded_itself), unfolding(crate::specs::Folding::case_folding))]
pub fn fold(alloc: Global, text: &str) -> Result<String, Fault>
    ensures folded { IfOk result (λ folded. string_bytes folded ≡ folded_text text.now) }
    ensures refused { IfErr result (λ fault. fault ≡ Fault.Memory) }
{
    // most labels and names are copied, without looking up each character
    if are_folded(text.as_bytes()) {
        return Ok(String::from_str(alloc, text)?);
    }
    Ok(default_case_fold_str(alloc, text)?)
}
