//! `heading_anchor`: the anchor of a heading.
ghost use Rattle.std.specs.Prelude.{◌≡◌, ◌++◌, IfOk, IfErr, OnOk, string_bytes};
ghost use Rattle.markdown_base.specs.declared.fault.Fault.{Fault};
ghost use Rattle.markdown_heading_ids.specs.Anchors.{anchor_part, heading_anchor};

use crate::category::is_kept_in_anchor;
use markdown_base::fault::Fault;
use std::alloc::Global;

/// Appends what a character of the text in lower case becomes: `-` for a space, and nothing for one that is not kept.
fn push_anchor_part(anchor: &mut String, c: char) -> Result<(), Fault>
    ensures ok { OnOk result (string_bytes anchor.new ≡ string_bytes anchor.old ++ anchor_part c) }
    ensures refused { IfErr result (λ fault. fault ≡ Fault.Memory) }
{
    if c == ' ' {
        return Ok(anchor.push_str("-")?);
    }
    if is_kept_in_anchor(c) {
        anchor.push(c)?;
    }
    Ok(())
}

/// Returns the anchor of a heading with this text, without a number: the text in lower case, with a hyphen for each
/// space, and of the other characters the hyphens and those of words.
///
/// # Errors
///
/// `Memory` if an allocation fails.
pub fn heading_anchor(alloc: Global, words: &str) -> Result<String, Fault>
    ensures anchor { IfOk result (λ anchor. string_bytes anchor ≡ heading_anchor words.now) }
    ensures refused { IfErr result (λ fault. fault ≡ Fault.Memory) }
{
    let lower = words.to_lowercase(alloc)?;
    let mut anchor = String::new(alloc);
    for c in lower.as_str().chars() {
        push_anchor_part(&mut anchor, c)?;
    }
    Ok(anchor)
}
