//! Callbacks for references whose link label is not defined.
ghost use Rattle.std.specs.Prelude.{◌≡◌, ◌≤◌, length, IfOk, IfErr, IsOk, Option};
ghost use Rattle.markdown_base.specs.CowText.{text_of};
ghost use Rattle.markdown_base.specs.StoredTexts.{IsBorrowed};
ghost use Rattle.markdown_base.specs.Questions.{Question, Answer};
ghost use Rattle.markdown_base.specs.declared.fault.Fault.{Fault};
ghost use Rattle.markdown_defs.specs.CallbackViews.{question_of, answer_of};

use markdown_base::cow_str::CowStr;
use markdown_base::fault::Fault;
use markdown_base::tag::LinkType;
use std::alloc::Global;
use std::ops::Range;

/// A reference whose link label is not defined.
#[derive(Debug, Drop)]
pub struct BrokenLink<'a> {
    /// The source range of the reference, in bytes.
    pub span: Range<usize>,
    /// How it is written: `Reference`, `Collapsed` or `Shortcut`.
    pub link_type: LinkType,
    /// The link label.
    pub reference: CowStr<'a>,
}

impl<'a> BrokenLink<'a> {
    /// Returns the same broken link without borrowing from the source. Only a slice of more than 22 bytes allocates
    /// memory. The only error is `Fault::Memory`, in which case the broken link is dropped.
    pub fn into_static(self, alloc: Global) -> Result<BrokenLink<'static>, Fault>
        ensures same { IfOk result (λ made. question_of made ≡ question_of self.entry) }
        ensures short { (IsBorrowed self.entry.reference
            → length (text_of self.entry.reference) ≤ 22)
            → IsOk result }
        ensures refused { IfErr result (λ fault. fault ≡ Fault.Memory) }
    {
        let reference = self.reference.into_static(alloc)?;
        Ok(BrokenLink {
            span: self.span,
            link_type: self.link_type,
            reference,
        })
    }
}

/// A callback for broken links. Contracts describe it by a relation of its old state, a question, its answer and its
/// new state.
///
/// ```
/// fn page<'a>(link: BrokenLink<'a>) -> Option<(CowStr<'a>, CowStr<'a>)> {
///     Some((link.reference, CowStr::from("")))
/// }
///
/// let callback = Some(Closure::new(page));
/// let parser = Parser::new_with_broken_link_callback(alloc, "[a]", Options::empty(), callback)?;
/// ```
pub trait BrokenLinkCallback<'input>: Drop {
    /// The states in which it may be called.
    ghost can_ask: { Self → Type 0 };

    /// In the first state it may return this answer to this question, and then be in the second state.
    ghost answers: { Self → Question → Option Answer → Self → Type 0 };

    /// Returns the destination and the title of a broken link, or `None` if it is not to become a link.
    fn handle_broken_link(
        &mut self,
        link: BrokenLink<'input>,
    ) -> Option<(CowStr<'input>, CowStr<'input>)>
        requires { can_ask self.old }
        ensures again { can_ask self.new }
        ensures answered { answers self.old (question_of link.entry) (answer_of result) self.new };
}

/// A callback that returns `None` and keeps its state.
#[derive(Debug, Drop)]
pub struct DefaultBrokenLinkCallback;

impl<'input> BrokenLinkCallback<'input> for DefaultBrokenLinkCallback {
    ghost use Rattle.std.specs.Prelude.{◌≡◌, None};

    ghost can_ask = { λ _. Unit {0} };

    ghost answers = { λ old question answer new. (answer ≡ None) × (old ≡ new) };

    fn handle_broken_link(
        &mut self,
        link: BrokenLink<'input>,
    ) -> Option<(CowStr<'input>, CowStr<'input>)> {
        let _ = link;
        None
    }
}

/// A closure as a callback. It must be callable with every question, in each state that it reaches.
#[derive(Drop)]
pub struct Closure<F> {
    pub f: F,
}

impl<F> Closure<F> {
    /// Returns the closure as a callback. Allocates no memory.
    pub fn new(f: F) -> Self
        ensures { result.f ≡ f }
    {
        Closure { f }
    }
}

impl<
    'input,
    F: FnMut(BrokenLink<'input>) -> Option<(CowStr<'input>, CowStr<'input>)> + Drop,
> BrokenLinkCallback<'input> for Closure<F> {
    ghost use Rattle.std.specs.Prelude.{◌≡◌};
    ghost use Rattle.markdown_defs.specs.CallbackViews.{question_of, answer_of};

    ghost can_ask = { λ s. F.IsAlwaysCallable s.f };

    ghost answers = { λ old question answer new. (link : _) × (given : _)
        × (question_of link ≡ question) × (answer_of given ≡ answer)
        × F.step old.f link given new.f };

    fn handle_broken_link(
        &mut self,
        link: BrokenLink<'input>,
    ) -> Option<(CowStr<'input>, CowStr<'input>)> {
        (self.f)(link)
    }
}

/// A callback for broken links that can be put in a box: it borrows nothing from the source.
pub trait BoxedCallback: Drop {
    /// In the first state it may return this answer to this question, and then be in the second state. An
    /// implementation without this relation may return any answer.
    ghost gives: { Self → Question → Option Answer → Self → Type 0 } = { λ old question answer new. Unit {0} };

    /// Returns the destination and the title of a broken link, or `None` if it is not to become a link.
    fn answer(
        &mut self,
        span: Range<usize>,
        link_type: LinkType,
        reference: &str,
    ) -> Option<(CowStr<'static>, CowStr<'static>)>
        ensures { gives self.old
            (record { span = span; link_type = link_type; reference = reference.now })
            (answer_of result) self.new };
}

/// A boxed object as a callback, which may always be called.
impl<'input> BrokenLinkCallback<'input> for Box<dyn BoxedCallback> {
    ghost use Rattle.std.specs.Prelude.{◌≡◌};

    ghost can_ask = { λ _. Unit {0} };

    // the object in the box returns the answer, and the box itself is unchanged
    ghost answers = { λ old question answer new. (value : _)
        × (BoxedCallback-box old).gives old.value question answer value
        × (new ≡ record old { value = value }) };

    fn handle_broken_link(
        &mut self,
        link: BrokenLink<'input>,
    ) -> Option<(CowStr<'input>, CowStr<'input>)> {
        let BrokenLink {
            span,
            link_type,
            reference,
        } = link;
        let given = self.answer(span, link_type, reference.as_str());
        drop(reference);
        given
    }
}
