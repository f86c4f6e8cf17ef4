//! Laws of the definitions that this crate's contracts cite. Each is a function without code, whose clause states the law.
ghost use Rattle.std.specs.Prelude.{◌≡◌, ℕ, List, true};
ghost use Rattle.markdown_page.specs.EscapedText.{stays_inside};
ghost use Rattle.markdown_page.specs.PageHtml.{html_escaped};

/// States that an escaped text ends no element and no attribute in quotes: it has no `<`, `>` or `"`, and no `&` but those of
/// `&lt;`, `&gt;`, `&amp;` and `&quot;`.
pub fn an_escaped_text_stays_inside()
    ensures { (text : List ℕ) → stays_inside (html_escaped text) ≡ true }
{}
