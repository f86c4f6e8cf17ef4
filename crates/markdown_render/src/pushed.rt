//! `push_html_by` for callers with a callback of any type, whose bound names the lifetime of the text. The borrow checker
//! writes no proof of a call whose callee has a lifetime of its own beside such a bound; `push_items` has none.
ghost use Rattle.std.specs.Prelude.{OnOk, IfErr, string_bytes};
ghost use Rattle.std.specs.Iterator.{IsFinite};
ghost use Rattle.markdown_out.specs.HtmlRules.{upstream_rules};

use markdown_base::event::Event;
use markdown_base::fault::Fault;
use markdown_out::HtmlRules;
use markdown_out::html::push_html_by;
use std::alloc::Global;

/// An item that is written as HTML where an iterator returns it: an event, whatever the lifetime of its texts.
pub trait Pushed<I: Iterator> {
    ghost use Rattle.std.specs.Prelude.{ℕ, List};
    ghost use Rattle.markdown_base.specs.declared.fault.Fault.{Fault};
    ghost use Rattle.markdown_out.specs.declared.html.rules.HtmlRules.{HtmlRules};

    /// The old text is followed by the HTML, by rules, of everything that the iterator returns.
    ghost is_pushed: { HtmlRules → I → List ℕ → List ℕ → Type 0 };

    /// Writing by rules ends with this error: what then follows the old text.
    ghost is_stopped: { HtmlRules → I → List ℕ → List ℕ → Fault → Type 0 };

    /// Appends the HTML, by rules, of what the iterator returns up to its first `None`. After an error `is_stopped` says
    /// what follows the old text.
    fn push_all(alloc: Global, s: &mut String, iter: I, rules: HtmlRules) -> Result<(), Fault>
        requires can { I.can_next iter }
        requires ends { IsFinite (I.remaining iter) }
        ensures ok { OnOk result
            (is_pushed rules iter (string_bytes s.old) (string_bytes s.new)) }
        ensures err { IfErr result (λ fault.
            is_stopped rules iter (string_bytes s.old) (string_bytes s.new) fault) };
}

impl<'a, I: Iterator<Item = Result<Event<'a>, Fault>>> Pushed<I> for Event<'a> {
    ghost use Rattle.std.specs.Prelude.{◌⊎◌};
    ghost use Rattle.markdown_out.specs.HtmlCorrect.{IsOwnFaultBy, IsRenderedBy, StopsAtErrorBy};

    ghost is_pushed = { λ rules. IsRenderedBy rules I.next_gives };

    ghost is_stopped = { λ rules it old new fault.
        StopsAtErrorBy rules I.next_gives it old new fault
        ⊎ IsOwnFaultBy rules I.next_gives it old new fault };

    fn push_all(alloc: Global, s: &mut String, iter: I, rules: HtmlRules) -> Result<(), Fault> {
        push_html_by(alloc, s, iter, rules)
    }
}

/// Appends the HTML of the items up to the first `None`, by rules, as `push_html_by` does, with the same errors.
pub fn push_items_by<E: Pushed<I>, I: Iterator<Item = Result<E, Fault>>>(
    alloc: Global,
    s: &mut String,
    iter: I,
    rules: HtmlRules,
) -> Result<(), Fault>
    requires can { I.can_next iter }
    requires ends { IsFinite (I.remaining iter) }
    ensures ok { OnOk result
        (E.is_pushed rules iter (string_bytes s.old) (string_bytes s.new)) }
    ensures err { IfErr result (λ fault.
        E.is_stopped rules iter (string_bytes s.old) (string_bytes s.new) fault) }
{
    E::push_all(alloc, s, iter, rules)
}

/// Appends the HTML of the items up to the first `None`, as `push_html` does, with the same errors.
pub fn push_items<E: Pushed<I>, I: Iterator<Item = Result<E, Fault>>>(
    alloc: Global,
    s: &mut String,
    iter: I,
) -> Result<(), Fault>
    requires can { I.can_next iter }
    requires ends { IsFinite (I.remaining iter) }
    ensures ok { OnOk result
        (E.is_pushed upstream_rules iter (string_bytes s.old) (string_bytes s.new)) }
    ensures err { IfErr result (λ fault.
        E.is_stopped upstream_rules iter (string_bytes s.old) (string_bytes s.new) fault) }
{
    E::push_all(alloc, s, iter, HtmlRules::upstream())
}
