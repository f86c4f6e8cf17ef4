//! Rendering a text safely: the HTML of the safe events of its reading.
ghost use Rattle.std.specs.Prelude.{◌≡◌, ◌⊎◌, IfOk, IfErr, IfSome, None, string_bytes};
ghost use Rattle.markdown_base.specs.Source.{source_as};
ghost use Rattle.markdown_base.specs.Syntax.{full_syntax, profile_syntax};
ghost use Rattle.markdown_render.specs.Rendering.{Renders};
ghost use Rattle.markdown_safe.specs.SafeHtml.{IsSafeHtml};
ghost use Rattle.markdown_safe.specs.SafeRendering.{IsSafeHtmlFor, IsSafeTextTooDeep, IsSafeTooDeepFor};
ghost use Rattle.markdown_safe.specs.SafeRendering.{safe_html_of_text};
ghost use Rattle.markdown_safe.specs.SafeRules.{default_rules, rules_view};

use crate::adapter::Safe;
use crate::rules::SafeRules;
use markdown_base::fault::Fault;
use markdown_base::options::Options;
use markdown_base::syntax::Syntax;
use markdown_defs::BrokenLinkCallback;
use markdown_inline::walk::Parser;
use markdown_render::pushed::push_items_by;
use std::alloc::Global;

/// Returns safe HTML of a text, by the port's profile, as `safe_html_source` does.
pub fn safe_html<'input, F: BrokenLinkCallback<'input>>(
    alloc: Global,
    text: &'input str,
    options: Options,
    callback: Option<F>,
) -> Result<String, Fault>
    requires { IfSome callback F.can_ask }
    ensures safe { IfOk result (λ html. IsSafeHtml (string_bytes html)) }
    ensures html { IfOk result (λ html. IsSafeHtmlFor default_rules F.answers callback
        (source_as (profile_syntax options) text.entry.now) (string_bytes html)) }
    ensures alone { callback ≡ None → Renders (safe_html_of_text default_rules)
        (IsSafeTextTooDeep default_rules)
        (source_as (profile_syntax options) text.entry.now) result }
    ensures faults { IfErr result (λ fault. (fault ≡ Fault.Memory)
        ⊎ ((fault ≡ Fault.Depth) × IsSafeTooDeepFor default_rules F.answers callback
        (source_as (profile_syntax options) text.entry.now))) }
{
    safe_html_source(alloc, text, Syntax::profile(options), callback)
}

/// Returns safe HTML of a text, by the full reading, as `safe_html_source` does.
pub fn safe_html_extended<'input, F: BrokenLinkCallback<'input>>(
    alloc: Global,
    text: &'input str,
    options: Options,
    callback: Option<F>,
) -> Result<String, Fault>
    requires { IfSome callback F.can_ask }
    ensures safe { IfOk result (λ html. IsSafeHtml (string_bytes html)) }
    ensures html { IfOk result (λ html. IsSafeHtmlFor default_rules F.answers callback
        (source_as (full_syntax options) text.entry.now) (string_bytes html)) }
    ensures alone { callback ≡ None → Renders (safe_html_of_text default_rules)
        (IsSafeTextTooDeep default_rules) (source_as (full_syntax options) text.entry.now) result }
    ensures faults { IfErr result (λ fault. (fault ≡ Fault.Memory) ⊎ ((fault ≡ Fault.Depth)
        × IsSafeTooDeepFor default_rules F.answers callback
        (source_as (full_syntax options) text.entry.now))) }
{
    safe_html_source(alloc, text, Syntax::full(options), callback)
}

/// Returns safe HTML of a text of which `syntax` is read, by the rules of a caller who chooses nothing, as `safe_html_with`
/// does.
pub fn safe_html_source<'input, F: BrokenLinkCallback<'input>>(
    alloc: Global,
    text: &'input str,
    syntax: Syntax,
    callback: Option<F>,
) -> Result<String, Fault>
    requires { IfSome callback F.can_ask }
    ensures safe { IfOk result (λ html. IsSafeHtml (string_bytes html)) }
    ensures html { IfOk result (λ html. IsSafeHtmlFor default_rules F.answers callback
        (source_as syntax text.entry.now) (string_bytes html)) }
    ensures alone { callback ≡ None → Renders (safe_html_of_text default_rules)
        (IsSafeTextTooDeep default_rules) (source_as syntax text.entry.now) result }
    ensures faults { IfErr result (λ fault. (fault ≡ Fault.Memory) ⊎ ((fault ≡ Fault.Depth)
        × IsSafeTooDeepFor default_rules F.answers callback
        (source_as syntax text.entry.now))) }
{
    safe_html_with(alloc, text, syntax, SafeRules::new(), callback)
}

/// Returns safe HTML of a text of which `syntax` is read, by rules. The callback, where there is one, is called for each
/// link label that has no definition; what it answers is made safe too. Without one the HTML is a function of the text, of
/// what is read of it, and of the rules.
///
/// # Errors
///
/// `Memory` if an allocation fails, and `Depth` where more than 2^64 - 1 Starts are open in one image.
pub fn safe_html_with<'input, F: BrokenLinkCallback<'input>>(
    alloc: Global,
    text: &'input str,
    syntax: Syntax,
    rules: SafeRules<'input>,
    callback: Option<F>,
) -> Result<String, Fault>
    requires { IfSome callback F.can_ask }
    ensures safe { IfOk result (λ html. IsSafeHtml (string_bytes html)) }
    ensures html { IfOk result (λ html. IsSafeHtmlFor (rules_view rules.entry) F.answers callback
        (source_as syntax text.entry.now) (string_bytes html)) }
    ensures alone { callback ≡ None → Renders (safe_html_of_text (rules_view rules.entry))
        (IsSafeTextTooDeep (rules_view rules.entry)) (source_as syntax text.entry.now) result }
    ensures faults { IfErr result (λ fault. (fault ≡ Fault.Memory) ⊎ ((fault ≡ Fault.Depth)
        × IsSafeTooDeepFor (rules_view rules.entry) F.answers callback
        (source_as syntax text.entry.now))) }
{
    let mut html = String::new(alloc);
    let parser = Parser::of_source(alloc, text, syntax, callback)?;
    let safe = Safe::with_rules(alloc, parser, rules);
    push_items_by(alloc, &mut html, safe, rules.html())?;
    Ok(html)
}
