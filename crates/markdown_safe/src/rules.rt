//! What a caller chooses of safe HTML.
ghost use Rattle.std.specs.Prelude.{◌≡◌};
ghost use Rattle.markdown_safe.specs.SafeRules.{default_rules, html_rules, rules_view};

use markdown_out::HtmlRules;

/// What becomes of the images of a text.
#[derive(Clone, Copy, Debug, PartialEq, Eq, Drop)]
pub enum Images {
    /// They are images, which a browser loads from where the text says: so it can learn who reads it.
    Shown,
    /// They are links to what they would show, whose text is their alt text.
    Links,
    /// Only their alt text stays.
    Text,
}

/// What a caller chooses of safe HTML.
#[derive(Clone, Copy, Debug, Drop)]
pub struct SafeRules<'p> {
    /// What follows `user-content-` in the ids of headings and footnotes, and in links to them. Texts that stand on one page
    /// need different prefixes, of which none begins with another, as `17-` and `18-`.
    pub prefix: &'p str,
    /// What becomes of images.
    pub images: Images,
    /// Whether a link that leads to another site has `rel="nofollow ugc noopener"`: it tells search engines that the page
    /// does not vouch for it.
    pub rel: bool,
    /// The number of tags that may stand in one another. What is nested deeper loses its tags; its text stays.
    pub nesting: usize,
}

impl SafeRules<'static> {
    /// Returns the rules of a caller who chooses nothing: no further prefix, images are shown, links that lead to other
    /// sites have a `rel`, and 128 tags may stand in one another.
    pub fn new() -> Self
        ensures { rules_view result ≡ default_rules }
    {
        SafeRules {
            prefix: "",
            images: Images::Shown,
            rel: true,
            nesting: 128,
        }
    }
}

impl<'p> SafeRules<'p> {
    /// Returns the rules by which `push_html_by` writes the HTML of events that are made safe.
    pub fn html(&self) -> HtmlRules
        ensures { result ≡ html_rules (rules_view self.now) }
    {
        HtmlRules {
            align: true,
            rel: self.rel,
        }
    }
}
