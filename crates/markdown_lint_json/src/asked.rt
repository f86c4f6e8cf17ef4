//! `Asked`, a callback that keeps what it is asked.
ghost use Rattle.std.specs.Prelude.{◌≡◌, [], false, map, IfOk, IfErr};
ghost use Rattle.markdown_defs.specs.CallbackViews.{question_of};

use markdown_base::cow_str::CowStr;
use markdown_base::fault::Fault;
use markdown_defs::{BrokenLink, BrokenLinkCallback};
use std::alloc::Global;

/// A callback that answers None to each question, and keeps the questions.
#[derive(Drop)]
pub(crate) struct Asked<'a> {
    pub links: Vec<BrokenLink<'a>>,
    /// Whether an allocation was refused, so that a question was not kept.
    pub is_refused: bool,
}

impl<'a> Asked<'a> {
    /// Returns a callback that was asked nothing.
    pub fn nothing(alloc: Global) -> Asked<'a>
        ensures links { result.links.items ≡ [] }
        ensures kept { result.is_refused ≡ false }
    {
        Asked {
            links: Vec::new(alloc),
            is_refused: false,
        }
    }

    /// Returns the questions, in order.
    ///
    /// # Errors
    ///
    /// `Memory` if a question was not kept.
    pub fn links(self) -> Result<Vec<BrokenLink<'a>>, Fault>
        ensures links { IfOk result (λ links. (self.entry.is_refused ≡ false)
            × (links ≡ self.entry.links)) }
        ensures refused { IfErr result (λ fault. fault ≡ Fault.Memory) }
    {
        if self.is_refused {
            return Err(Fault::Memory);
        }
        Ok(self.links)
    }
}

impl<'a> BrokenLinkCallback<'a> for Asked<'a> {
    ghost use Rattle.markdown_lint_json.specs.AskedLinks.{Keeps};

    ghost can_ask = { λ _. Unit {0} };

    ghost answers = { Keeps };

    fn handle_broken_link(&mut self, link: BrokenLink<'a>) -> Option<(CowStr<'a>, CowStr<'a>)> {
        if self.links.push(link).is_err() {
            self.is_refused = true;
        }
        None
    }
}
