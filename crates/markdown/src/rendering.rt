//! Texts to HTML in one call, without a callback.
ghost use Rattle.markdown_base.specs.Source.{source_as};
ghost use Rattle.markdown_base.specs.Syntax.{full_syntax};
ghost use Rattle.markdown.specs.Correct.{Correct, CorrectAndSafe};

use markdown_base::fault::Fault;
use markdown_base::options::Options;
use markdown_defs::DefaultBrokenLinkCallback;
use markdown_render::render_extended;
use markdown_safe::safe_html_extended;
use std::alloc::Global;

/// Returns the HTML of a text, by the full reading with these extensions. Raw HTML and destinations come through as they
/// are written: for untrusted input there is `to_safe_html`.
///
/// # Errors
///
/// `Memory` if an allocation fails, and `Depth` where more than 2^64 - 1 Starts are open in one image.
pub fn to_html(alloc: Global, text: &str, options: Options) -> Result<String, Fault>
    ensures { Correct (source_as (full_syntax options) text.entry.now) result }
{
    render_extended(alloc, text, options, None::<DefaultBrokenLinkCallback>)
}

/// Returns safe HTML of a text, by the full reading with these extensions: text, and tags and attributes of a fixed table,
/// whose elements stand where a browser leaves them. `safe::safe_html_with` takes rules besides.
///
/// # Errors
///
/// `Memory` if an allocation fails, and `Depth` where more than 2^64 - 1 Starts are open in one image.
pub fn to_safe_html(alloc: Global, text: &str, options: Options) -> Result<String, Fault>
    ensures { CorrectAndSafe (source_as (full_syntax options) text.entry.now) result }
{
    safe_html_extended(alloc, text, options, None::<DefaultBrokenLinkCallback>)
}
