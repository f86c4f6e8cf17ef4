//! The smallest page: what is written of its text is proved byte by byte.
ghost use Rattle.std.specs.Prelude.{◌≡◌, IfOk, codes, string_bytes};

use markdown::html::render;
use markdown::{DefaultBrokenLinkCallback, Fault, Options};
use std::alloc::Global;

/// Returns the HTML of the text `hello world`.
///
/// # Errors
///
/// `Memory` if an allocation fails, and `Depth` as `render` returns it.
pub fn hello_page(alloc: Global) -> Result<String, Fault>
    ensures { IfOk result (λ html. string_bytes html ≡ codes "<p>hello world</p>\n") }
{
    render(
        alloc,
        "hello world",
        Options::empty(),
        None::<DefaultBrokenLinkCallback>,
    )
}
