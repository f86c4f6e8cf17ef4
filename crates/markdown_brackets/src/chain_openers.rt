//! The openers of a chain: those of brackets and those of wikilinks, and what is left of them after a finished link,
//! image, wikilink or footnote reference.
ghost use Rattle.std.specs.Prelude.{◌≡◌, []};
ghost use Rattle.markdown_brackets.specs.Openers.{before, waiting_before_link, waiting_before_wikilink};

use crate::openers::{Opener, OpenerStack};
use std::alloc::Global;

/// The waiting openers of a chain. An opener `[[` waits on both stacks.
#[derive(Drop)]
pub struct ChainOpeners {
    /// For links, images and footnote references.
    pub brackets: OpenerStack,
    /// For wikilinks: those that a `[` follows.
    pub wikilinks: OpenerStack,
}

impl ChainOpeners {
    /// Returns empty stacks.
    pub fn new(alloc: Global) -> ChainOpeners
        ensures brackets { result.brackets ≡ [] }
        ensures wikilinks { result.wikilinks ≡ [] }
    {
        ChainOpeners {
            brackets: OpenerStack::new(alloc),
            wikilinks: OpenerStack::new(alloc),
        }
    }

    /// Removes all openers, before the next chain.
    pub fn clear(&mut self)
        ensures brackets { self.new.brackets ≡ [] }
        ensures wikilinks { self.new.wikilinks ≡ [] }
    {
        self.brackets.clear();
        self.wikilinks.clear();
    }

    /// Removes this opener and all later ones, after a link or an image was found from it on. After a link, but not
    /// after an image, no earlier `[` can become a link.
    pub fn finish_link(&mut self, opener: Opener)
        ensures brackets { self.new.brackets ≡ waiting_before_link opener self.old.brackets }
        ensures wikilinks { self.new.wikilinks ≡ waiting_before_link opener self.old.wikilinks }
    {
        self.brackets.drop_from(opener.node);
        self.wikilinks.drop_from(opener.node);
        if !opener.is_image {
            self.brackets.disable_brackets();
            self.wikilinks.disable_brackets();
        }
    }

    /// Removes the opener with this node number and all later ones, after a wikilink was found from it on, as a link or
    /// as an image. No earlier `[` can become a link, and no earlier opener can become a wikilink.
    pub fn finish_wikilink(&mut self, node: usize)
        ensures brackets { self.new.brackets ≡ waiting_before_wikilink node self.old.brackets }
        ensures wikilinks { self.new.wikilinks ≡ [] }
    {
        self.brackets.drop_from(node);
        self.brackets.disable_brackets();
        self.wikilinks.clear();
    }

    /// Removes the opener with this node number and all later ones, after a footnote reference was found from it on. No
    /// earlier opener can become a link or an image.
    pub fn finish_footnote(&mut self, node: usize)
        ensures brackets { self.new.brackets ≡ [] }
        ensures wikilinks { self.new.wikilinks ≡ before node self.old.wikilinks }
    {
        self.brackets.clear();
        self.close_wikilink(node);
    }

    /// Removes the wikilink openers from this node number on, for example one whose second bracket became a link or a
    /// footnote reference.
    pub fn close_wikilink(&mut self, node: usize)
        ensures brackets { self.new.brackets ≡ self.old.brackets }
        ensures wikilinks { self.new.wikilinks ≡ before node self.old.wikilinks }
    {
        self.wikilinks.drop_from(node);
    }
}
