//! Rendering a text: the HTML of what a new parser of it returns.
ghost use Rattle.std.specs.Prelude.{◌≡◌, ◌⊎◌, IfOk, IfErr, IfSome, None, string_bytes};
ghost use Rattle.markdown_base.specs.Source.{source_as};
ghost use Rattle.markdown_base.specs.Syntax.{full_syntax, profile_syntax};
ghost use Rattle.markdown_render.specs.HtmlOfText.{IsTextTooDeep, html_of_text};
ghost use Rattle.markdown_render.specs.Rendering.{Renders};
ghost use Rattle.markdown_render.specs.RenderingFor.{IsHtmlFor, IsTooDeepFor};

use crate::laws::html_of_a_parser_is_that_of_its_reading;
use crate::pushed::push_items;
use markdown_base::fault::Fault;
use markdown_base::options::Options;
use markdown_base::syntax::Syntax;
use markdown_defs::BrokenLinkCallback;
use markdown_inline::walk::Parser;
use std::alloc::Global;

/// Returns the HTML of a text, by the port's profile, as `render_source` does.
pub fn render<'input, F: BrokenLinkCallback<'input>>(
    alloc: Global,
    text: &'input str,
    options: Options,
    callback: Option<F>,
) -> Result<String, Fault>
    requires { IfSome callback F.can_ask }
    ensures html { IfOk result (λ html. IsHtmlFor F.answers callback
        (source_as (profile_syntax options) text.entry.now) (string_bytes html)) }
    ensures alone { callback ≡ None → Renders html_of_text IsTextTooDeep
        (source_as (profile_syntax options) text.entry.now) result }
    ensures faults { IfErr result (λ fault. (fault ≡ Fault.Memory) ⊎ ((fault ≡ Fault.Depth)
        × IsTooDeepFor F.answers callback (source_as (profile_syntax options) text.entry.now))) }
{
    render_source(alloc, text, Syntax::profile(options), callback)
}

/// Returns the HTML of a text, by the full reading, as `render_source` does.
pub fn render_extended<'input, F: BrokenLinkCallback<'input>>(
    alloc: Global,
    text: &'input str,
    options: Options,
    callback: Option<F>,
) -> Result<String, Fault>
    requires { IfSome callback F.can_ask }
    ensures html { IfOk result (λ html. IsHtmlFor F.answers callback
        (source_as (full_syntax options) text.entry.now) (string_bytes html)) }
    ensures alone { callback ≡ None → Renders html_of_text IsTextTooDeep
        (source_as (full_syntax options) text.entry.now) result }
    ensures faults { IfErr result (λ fault. (fault ≡ Fault.Memory) ⊎ ((fault ≡ Fault.Depth)
        × IsTooDeepFor F.answers callback (source_as (full_syntax options) text.entry.now))) }
{
    render_source(alloc, text, Syntax::full(options), callback)
}

/// Returns the HTML of a text of which `syntax` is read. The callback, where there is one, is called for each link label
/// that has no definition; without one the HTML is a function of the text and of what is read of it.
///
/// # Errors
///
/// `Memory` if an allocation fails, and `Depth` where more than 2^64 - 1 Starts are open in one image.
pub fn render_source<'input, F: BrokenLinkCallback<'input>>(
    alloc: Global,
    text: &'input str,
    syntax: Syntax,
    callback: Option<F>,
) -> Result<String, Fault>
    requires { IfSome callback F.can_ask }
    ensures html { IfOk result (λ html.
        IsHtmlFor F.answers callback (source_as syntax text.entry.now) (string_bytes html)) }
    ensures alone { callback ≡ None → Renders html_of_text IsTextTooDeep
        (source_as syntax text.entry.now) result }
    ensures faults { IfErr result (λ fault. (fault ≡ Fault.Memory) ⊎ ((fault ≡ Fault.Depth)
        × IsTooDeepFor F.answers callback (source_as syntax text.entry.now))) }
{
    let mut html = String::new(alloc);
    let parser = Parser::of_source(alloc, text, syntax, callback)?;
    html_of_a_parser_is_that_of_its_reading(&parser);
    push_items(alloc, &mut html, parser)?;
    Ok(html)
}
