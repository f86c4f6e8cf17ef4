//! Nodes as a tree stores them: a link has four bytes, a quarter of an `Option<usize>`.
ghost use Rattle.std.specs.Prelude.{◌≡◌, ◌<◌, IfSome};
ghost use Rattle.markdown_base.specs.ArenaBounds.{node_limit};
ghost use Rattle.markdown_base.specs.StoredNodes.{target_of};

/// A link to a node, stored as the node's number plus one; 0 leads to no node.
#[derive(Clone, Copy, Drop)]
pub struct NodeLink {
    past: u32,
}

impl NodeLink {
    /// Returns the link to a node, or to none.
    pub fn to(target: Option<usize>) -> NodeLink
        requires { IfSome target (λ ix. ix < node_limit) }
        ensures { target_of result ≡ target }
    {
        match target {
            Some(ix) => NodeLink {
                past: ix as u32 + 1,
            },
            None => NodeLink { past: 0 },
        }
    }

    /// Returns the number of the node that the link leads to, if any.
    pub fn target(self) -> Option<usize>
        ensures { result ≡ target_of self }
    {
        match self.past {
            0 => None,
            past => Some(past as usize - 1),
        }
    }
}

/// An item with the links to its first child and to its next sibling.
#[derive(Drop)]
pub struct StoredNode<T> {
    pub item: T,
    pub child: NodeLink,
    pub next: NodeLink,
}
