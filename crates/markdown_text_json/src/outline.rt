//! The headings of a text as JSON.
ghost use Rattle.std.specs.Prelude.{◌≡◌, IfOk, IfErr, string_bytes};
ghost use Rattle.markdown_base.specs.Source.{source_as};
ghost use Rattle.markdown_base.specs.Syntax.{full_syntax, profile_syntax};
ghost use Rattle.markdown_text_json.specs.OutlineJson.{outline_json_of_text};

use crate::outline_lines::push_outline;
use markdown_base::fault::Fault;
use markdown_base::options::Options;
use markdown_base::syntax::Syntax;
use markdown_outline::outline_source;
use std::alloc::Global;

/// Returns a line of JSON for each heading of a text, by the port's profile, as `outline_json_source` does.
pub fn outline_json(alloc: Global, text: &str, options: Options) -> Result<String, Fault>
    ensures json { IfOk result (λ json.
        string_bytes json ≡ outline_json_of_text (source_as (profile_syntax options) text.now)) }
    ensures refused { IfErr result (λ fault. fault ≡ Fault.Memory) }
{
    outline_json_source(alloc, text, Syntax::profile(options))
}

/// Returns a line of JSON for each heading of a text, by the full reading, as `outline_json_source` does.
pub fn outline_json_extended(alloc: Global, text: &str, options: Options) -> Result<String, Fault>
    ensures json { IfOk result (λ json.
        string_bytes json ≡ outline_json_of_text (source_as (full_syntax options) text.now)) }
    ensures refused { IfErr result (λ fault. fault ≡ Fault.Memory) }
{
    outline_json_source(alloc, text, Syntax::full(options))
}

/// Returns a line of JSON for each heading of a text of which `syntax` is read: its level, its text without markup, and its
/// range of byte offsets in the text. There is no callback: a link label without a reference definition stays text.
///
/// # Errors
///
/// `Memory` if an allocation fails; there is no other error.
pub fn outline_json_source(alloc: Global, text: &str, syntax: Syntax) -> Result<String, Fault>
    ensures json { IfOk result (λ json.
        string_bytes json ≡ outline_json_of_text (source_as syntax text.now)) }
    ensures refused { IfErr result (λ fault. fault ≡ Fault.Memory) }
{
    let entries = outline_source(alloc, text, syntax)?;
    let mut json = String::new(alloc);
    push_outline(&mut json, entries.as_slice())?;
    Ok(json)
}
