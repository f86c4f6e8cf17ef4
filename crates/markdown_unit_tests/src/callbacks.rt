//! Calls of each kind of callback, and the `'static` form of a broken link.
ghost use Rattle.std.specs.Prelude.{◌≡◌, ◌+◌, ◌%◌};

use markdown_base::cow_str::CowStr;
use markdown_base::tag::LinkType;
use markdown_defs::{
    BoxedCallback, BrokenLink, BrokenLinkCallback, Closure, DefaultBrokenLinkCallback,
};
use markdown_test_helpers::rows::gives;
use std::ops::Range;
use std::test::Fail;

fn broken_link() -> BrokenLink<'static> {
    BrokenLink {
        span: 0..3,
        link_type: LinkType::ShortcutUnknown,
        reference: CowStr::Borrowed("a"),
    }
}

/// A destination and a title.
type Target<'t> = (&'t str, &'t str);

const TARGET: Option<Target<'static>> = Some(("url", "title"));

/// Returns whether a callback answers a question with this destination and title, or with None where none are wanted.
fn answers<'input, C: BrokenLinkCallback<'input>>(
    callback: &mut C,
    wanted: Option<Target<'_>>,
) -> bool
    requires { C.can_ask callback.old }
    ensures { C.can_ask callback.new }
{
    let answer = callback.handle_broken_link(broken_link());
    let is_so = match &answer {
        None => wanted.is_none(),
        Some((destination, title)) => wanted == Some((destination.as_str(), title.as_str())),
    };
    drop(answer);
    is_so
}

/// A callback that answers the second question, if its label is `a`.
#[derive(Drop)]
struct Second {
    asked: u8,
}

impl BoxedCallback for Second {
    fn answer(
        &mut self,
        _span: Range<usize>,
        _link_type: LinkType,
        reference: &str,
    ) -> Option<(CowStr<'static>, CowStr<'static>)> {
        self.asked = self.asked.wrapping_add(1);
        if self.asked == 2 && reference == "a" {
            Some((CowStr::Borrowed("url"), CowStr::Borrowed("title")))
        } else {
            None
        }
    }
}

#[test]
fn a_closure_answers_and_keeps_count() -> Result<(), Fail> {
    let mut asked = 0u8;
    let mut closure = Closure::new(
        |link| -> Option<(CowStr, CowStr)>
            ensures { asked.exit ≡ (asked.entry + 1) % 256 }
        {
            asked = asked.wrapping_add(1);
            drop(link);
            Some((CowStr::Borrowed("url"), CowStr::Borrowed("title")))
        },
    );
    let answered = [answers(&mut closure, TARGET), answers(&mut closure, TARGET)];
    drop(closure);
    gives("answers and questions", (answered, asked), ([true; 2], 2))
}

#[test]
fn a_boxed_object_answers_and_the_default_does_not(rt: HostRuntime) -> Result<(), Fail> {
    let mut none = DefaultBrokenLinkCallback;
    let is_silent = answers(&mut none, None);
    let mut boxed: Box<dyn BoxedCallback> = Box::new(rt.alloc(), Second { asked: 0 })?;
    let answered = [
        is_silent,
        answers(&mut boxed, None),
        answers(&mut boxed, TARGET),
    ];
    drop(boxed);
    gives("answers", answered, [true; 3])
}

#[test]
fn broken_links_are_freed_from_the_source(rt: HostRuntime) -> Result<(), Fail> {
    let label = "a label of more than 22 bytes";
    let link = BrokenLink {
        span: 4..9,
        link_type: LinkType::Reference,
        reference: CowStr::from(label),
    };
    let made = link.into_static(rt.alloc())?;
    let held = [
        made.span == (4..9),
        made.link_type == LinkType::Reference,
        matches!(&made.reference, CowStr::Boxed(_)),
        made.reference.as_str() == label,
    ];
    drop(made);
    gives("what is held", held, [true; 4])
}
