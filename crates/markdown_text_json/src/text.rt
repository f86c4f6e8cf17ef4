//! The events of a text as JSON.
ghost use Rattle.std.specs.Prelude.{◌≡◌, IfOk, IfErr, string_bytes};
ghost use Rattle.markdown_base.specs.Source.{source_as};
ghost use Rattle.markdown_base.specs.Syntax.{full_syntax, profile_syntax};
ghost use Rattle.markdown_text_json.specs.TextJson.{json_of_text};

use markdown_base::fault::Fault;
use markdown_base::options::Options;
use markdown_base::syntax::Syntax;
use markdown_defs::DefaultBrokenLinkCallback;
use markdown_inline::walk::Parser;
use markdown_json::push_json;
use std::alloc::Global;

/// Returns a line of JSON for each event of a text, by the port's profile, as `text_json_source` does.
pub fn text_json(alloc: Global, text: &str, options: Options) -> Result<String, Fault>
    ensures json { IfOk result (λ json.
        string_bytes json ≡ json_of_text (source_as (profile_syntax options) text.now)) }
    ensures refused { IfErr result (λ fault. fault ≡ Fault.Memory) }
{
    text_json_source(alloc, text, Syntax::profile(options))
}

/// Returns a line of JSON for each event of a text, by the full reading, as `text_json_source` does.
pub fn text_json_extended(alloc: Global, text: &str, options: Options) -> Result<String, Fault>
    ensures json { IfOk result (λ json.
        string_bytes json ≡ json_of_text (source_as (full_syntax options) text.now)) }
    ensures refused { IfErr result (λ fault. fault ≡ Fault.Memory) }
{
    text_json_source(alloc, text, Syntax::full(options))
}

/// Returns a line of JSON for each event of a text of which `syntax` is read, with its range of byte offsets in the
/// text. There is no callback: a link label without a reference definition stays text.
///
/// # Errors
///
/// `Memory` if an allocation fails; there is no other error.
pub fn text_json_source(alloc: Global, text: &str, syntax: Syntax) -> Result<String, Fault>
    ensures json { IfOk result (λ json.
        string_bytes json ≡ json_of_text (source_as syntax text.now)) }
    ensures refused { IfErr result (λ fault. fault ≡ Fault.Memory) }
{
    let mut json = String::new(alloc);
    let nobody = None::<DefaultBrokenLinkCallback>;
    let parser = Parser::of_source(alloc, text, syntax, nobody)?;
    push_json(alloc, &mut json, parser.into_offset_iter())?;
    Ok(json)
}
