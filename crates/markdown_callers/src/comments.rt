//! Comments of strangers: each is safe HTML in an element of the page's own.
ghost use Rattle.std.specs.Prelude.{IfOk, string_bytes};
ghost use Rattle.markdown_callers.specs.Comments.{IsComment};

use markdown::safe::safe_html;
use markdown::{DefaultBrokenLinkCallback, Fault, Options};
use std::alloc::Global;

/// Returns the HTML of a comment, in a `div`.
///
/// # Errors
///
/// `Memory` if an allocation fails, and `Depth` as `safe_html` returns it.
pub fn comment_html(alloc: Global, text: &str, options: Options) -> Result<String, Fault>
    ensures { IfOk result (λ html. IsComment (string_bytes html)) }
{
    let mut html = String::new(alloc);
    html.push_str("<div class=\"comment\">\n")?;
    let inside = safe_html(alloc, text, options, None::<DefaultBrokenLinkCallback>)?;
    html.push_str(inside.as_str())?;
    html.push_str("</div>\n")?;
    Ok(html)
}
