//! The rules by which the HTML of events is written.
ghost use Rattle.std.specs.Prelude.{◌≡◌};
ghost use Rattle.markdown_out.specs.HtmlRules.{upstream_rules};

/// What the HTML of links and cells has beside, or in place of, what pulldown-cmark writes.
#[derive(Clone, Copy, Debug, PartialEq, Eq, Drop)]
pub struct HtmlRules {
    /// Whether the alignment of a cell is its attribute `align`, as GitHub writes it, and not its `style`, which has
    /// no effect under a strict content policy.
    pub align: bool,
    /// Whether a link that leads to another site has `rel="nofollow ugc noopener"`.
    pub rel: bool,
}

impl HtmlRules {
    /// Returns the rules by which pulldown-cmark writes HTML: neither choice is made.
    pub fn upstream() -> HtmlRules
        ensures { result ≡ upstream_rules }
    {
        HtmlRules {
            align: false,
            rel: false,
        }
    }
}
