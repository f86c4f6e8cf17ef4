//! Texts in their three forms, and types that hold texts: equality, copies, definitions.
use markdown_base::block_parts::LinkDef;
use markdown_base::cow_str::CowStr;
use markdown_base::event::Event;
use markdown_base::fault::Fault;
use markdown_base::inline_str::InlineStr;
use markdown_base::tag::{HeadingLevel, InvalidHeadingLevel, LinkType, Tag, TagEnd};
use markdown_test_helpers::rows::{Rows, gives};
use std::alloc::{AllocError, Global};
use std::convert::{AsStr, TryFrom};
use std::fmt::Debug;
use std::hash::{DefaultHasher, Hash, Hasher};
use std::test::Fail;

fn hash_of(text: &CowStr<'_>) -> u64 {
    let mut state = DefaultHasher::new();
    text.hash(&mut state);
    state.finish()
}

fn form_of(text: &CowStr<'_>) -> &'static str {
    match text {
        CowStr::Boxed(_) => "boxed",
        CowStr::Borrowed(_) => "borrowed",
        CowStr::Inlined(_) => "in place",
    }
}

fn boxed<'a>(alloc: Global, text: &str) -> Result<CowStr<'a>, AllocError> {
    Ok(CowStr::from(String::from_str(alloc, text)?))
}

/// Returns one text in its three forms.
fn three_forms<'a>(alloc: Global) -> Result<Vec<CowStr<'a>>, AllocError> {
    let mut texts = Vec::new(alloc);
    texts.push(boxed(alloc, "é")?)?;
    texts.push(CowStr::from("é"))?;
    texts.push(CowStr::from('é'))?;
    Ok(texts)
}

/// Returns the forms of texts, one after another.
fn forms_of(alloc: Global, texts: &[CowStr<'_>]) -> Result<String, AllocError> {
    let mut forms = String::new(alloc);
    for text in texts {
        forms.push_str(form_of(text))?;
        forms.push_str(" ")?;
    }
    Ok(forms)
}

/// Returns whether each text is this one, and is equal to each other one, with the same hash.
fn are_alike(texts: &[CowStr<'_>], words: &str) -> bool {
    for text in texts {
        for other in texts {
            if text != other || hash_of(text) != hash_of(other) || other.as_str() != words {
                return false;
            }
        }
    }
    true
}

#[test]
fn texts_are_equal_whatever_their_forms(rt: HostRuntime) -> Result<(), Fail> {
    let texts = three_forms(rt.alloc())?;
    let forms = forms_of(rt.alloc(), &texts);
    let alike = are_alike(&texts, "é");
    drop(texts);
    gives("forms", forms?.as_str(), "boxed borrowed in place ")?;
    let other = are_equal(CowStr::from("e"), CowStr::from("é"));
    gives("equal", [alike, other], [true, false])
}

/// Returns whether two values are equal, and drops both.
fn are_equal<T: PartialEq + Drop>(left: T, right: T) -> bool {
    let equal = left == right;
    drop(left);
    drop(right);
    equal
}

#[test]
fn events_are_equal_by_their_texts() -> Result<(), Fail> {
    let text = |c| Event::Text(CowStr::from(c));
    let equal = [
        are_equal(text('a'), Event::Text(CowStr::from("a"))),
        are_equal(text('a'), Event::Code(CowStr::from("a"))),
        are_equal(Event::Start(Tag::Paragraph), Event::End(TagEnd::Paragraph)),
    ];
    gives("equal", equal, [true, false, false])
}

/// Returns whether a text is this one, in this form.
fn is_held(text: Result<CowStr<'_>, AllocError>, wanted: &str, form: &str) -> bool {
    match text {
        Ok(text) => {
            let held = text.as_str() == wanted && form_of(&text) == form;
            drop(text);
            held
        }
        Err(_) => false,
    }
}

/// Returns whether the copy and the `'static` form of a slice, and those of a boxed text, have the right forms.
fn are_held(alloc: Global, text: &str, form: &str) -> Result<[bool; 4], AllocError> {
    Ok([
        is_held(CowStr::from(text).try_clone(alloc), text, "borrowed"),
        is_held(CowStr::from(text).into_static(alloc), text, form),
        is_held(boxed(alloc, text)?.try_clone(alloc), text, form),
        is_held(boxed(alloc, text)?.into_static(alloc), text, "boxed"),
    ])
}

/// Returns whether what is held of a text in place is the text, or None where it is too long.
fn is_held_in_place(text: &str) -> Option<bool> {
    let held = InlineStr::new(text)?;
    Some(held.as_str() == text)
}

#[test]
fn texts_are_copied(rt: HostRuntime) -> Result<(), Fail> {
    let alloc = rt.alloc();
    let mut rows = Rows::new();
    // 22 and 23 bytes
    for &(text, form) in &[
        ("", "in place"),
        ("1234567890123456789012", "in place"),
        ("12345678901234567890123", "boxed"),
    ] {
        rows.gives(text, are_held(alloc, text, form)?, [true; 4]);
        let wanted = if form == "in place" { Some(true) } else { None };
        rows.gives(text, is_held_in_place(text), wanted);
    }
    let in_place = [
        is_held(CowStr::from('a').try_clone(alloc), "a", "in place"),
        is_held(CowStr::from('a').into_static(alloc), "a", "in place"),
    ];
    rows.gives("a", in_place, [true; 2]);
    rows.end()
}

#[test]
fn texts_are_printed(rt: HostRuntime) -> Result<(), Fail> {
    let printed = format!(in rt.alloc(); "{} {:?}", CowStr::from("b"), CowStr::from("c"))?;
    gives("printed", printed.as_str(), "b \"c\"")?;
    let text = CowStr::from("bc");
    let lent = (lent_words(&text) == "bc", lent_as_str(&text) == "bc");
    drop(text);
    gives("lent", lent, (true, true))
}

/// Returns a `str`, to which a call coerces its argument.
fn lent_as_str(text: &str) -> &str {
    text
}

/// Returns a value as a `str`.
fn lent_words<T: AsStr>(text: &T) -> &str {
    text.as_str()
}

#[test]
fn faults_say_what_failed(rt: HostRuntime) -> Result<(), Fail> {
    let said = format!(in rt.alloc(); "{}; {}; {}", Fault::Memory, Fault::Blocks, Fault::Depth)?;
    gives(
        "faults",
        said.as_str(),
        "out of memory; bad block result; image nested too deeply",
    )
}

#[test]
fn levels_have_numbers_and_are_printed(rt: HostRuntime) -> Result<(), Fail> {
    let said = format!(in rt.alloc();
        "{} {}; {}",
        HeadingLevel::H1,
        HeadingLevel::H6,
        InvalidHeadingLevel(7)
    )?;
    gives(
        "levels",
        said.as_str(),
        "h1 h6; no heading level has number 7",
    )?;
    let levels = [
        HeadingLevel::try_from(0usize).is_err(),
        HeadingLevel::try_from(2usize) == Ok(HeadingLevel::H2),
        HeadingLevel::try_from(7usize) == Err(InvalidHeadingLevel(7)),
    ];
    gives("numbers", levels, [true; 3])
}

/// Returns the Start of a link that outlives the text that it was made from.
fn outliving_link(alloc: Global, destination: &str) -> Result<Event<'static>, Fault> {
    let source = String::from_str(alloc, destination)?;
    let link = Event::Start(Tag::Link {
        link_type: LinkType::Inline,
        dest_url: CowStr::from(source.as_str()),
        title: CowStr::from("t"),
        id: CowStr::from(""),
    });
    link.into_static(alloc)
}

/// Returns the Start of a heading with a name in each of its fields.
fn heading<'a>(alloc: Global, name: &'a str) -> Result<Event<'a>, AllocError> {
    let classes = vec![in alloc; CowStr::from(name), CowStr::from("b")]?;
    let attrs = vec![in alloc; (CowStr::from("c"), Some(CowStr::from(name)))]?;
    Ok(Event::Start(Tag::Heading {
        level: HeadingLevel::H2,
        id: Some(CowStr::from(name)),
        classes,
        attrs,
    }))
}

/// Returns the Start of a heading that outlives the text that it was made from.
fn outliving_heading(alloc: Global, name: &str) -> Result<Event<'static>, Fault> {
    let source = String::from_str(alloc, name)?;
    let heading = heading(alloc, source.as_str())?;
    heading.into_static(alloc)
}

/// Returns a value and a copy of it as `Debug` prints them. The type is a parameter, so that no event is dropped here.
fn both_printed<T: Debug + Drop>(
    alloc: Global,
    held: T,
    copy: Result<T, Fault>,
) -> Result<String, Fault> {
    let copy = copy?;
    Ok(format!(in alloc; "{held:?}; {copy:?}")?)
}

/// Checks how an event and a copy of it are printed.
fn outlives(alloc: Global, event: Event<'static>, start: &str) -> Result<(), Fail> {
    let copy = event.try_clone(alloc);
    let printed = both_printed(alloc, event, copy)?;
    let twice = format!(in alloc; "{start}; {start}")?;
    gives(start, printed.as_str(), twice.as_str())
}

#[test]
fn events_outlive_their_text(rt: HostRuntime) -> Result<(), Fail> {
    let alloc = rt.alloc();
    let link_start = "Start(Link { link_type: Inline, dest_url: \"/a\", title: \"t\", id: \"\" })";
    outlives(alloc, outliving_link(alloc, "/a")?, link_start)?;
    let heading_start =
        "Start(Heading { level: H2, id: Some(\"a\"), classes: [\"a\", \"b\"], attrs: [(\"c\", Some(\"a\"))] })";
    outlives(alloc, outliving_heading(alloc, "a")?, heading_start)
}

const LONG: &str = "http://example.com/a/long/destination";

fn definition<'a>(alloc: Global) -> Result<LinkDef<'a>, AllocError> {
    Ok(LinkDef {
        dest: CowStr::from(LONG),
        title: Some(boxed(alloc, "a title")?),
        span: 3..60,
    })
}

/// Returns the form of a definition's destination, and then its destination, its title and its range.
fn describe(alloc: Global, held: &LinkDef<'_>) -> Result<String, AllocError> {
    let title = match &held.title {
        Some(title) => title.as_str(),
        None => "untitled",
    };
    format!(in alloc;
        "{} <{}> {title} {}..{}",
        form_of(&held.dest),
        held.dest.as_str(),
        held.span.start,
        held.span.end
    )
}

/// Returns the same of a definition that was made.
fn made_described(alloc: Global, made: Result<LinkDef<'_>, Fault>) -> Result<String, Fault> {
    let held = made?;
    let said = describe(alloc, &held);
    drop(held);
    Ok(said?)
}

/// Checks the copy of a definition, and its `'static` form.
fn is_copied(alloc: Global, held: LinkDef<'_>, copy: &str, owned: &str) -> Result<(), Fail> {
    let copied = made_described(alloc, held.try_clone(alloc));
    let freed = made_described(alloc, held.into_static(alloc));
    gives("a copy", copied?.as_str(), copy)?;
    gives("without the source", freed?.as_str(), owned)
}

#[test]
fn definitions_are_copied(rt: HostRuntime) -> Result<(), Fail> {
    is_copied(
        rt.alloc(),
        definition(rt.alloc())?,
        "borrowed <http://example.com/a/long/destination> a title 3..60",
        "boxed <http://example.com/a/long/destination> a title 3..60",
    )?;
    let untitled = LinkDef {
        dest: CowStr::from(""),
        title: None,
        span: 0..4,
    };
    is_copied(
        rt.alloc(),
        untitled,
        "borrowed <> untitled 0..4",
        "in place <> untitled 0..4",
    )
}
