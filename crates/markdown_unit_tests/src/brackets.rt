//! What a closing bracket finds: tails of inline links, link labels and forms of references, look-ups with their
//! questions,
//! footnotes, wikilinks, and the waiting openers.
ghost use Rattle.std.specs.Prelude.{◌≡◌, ◌+◌, ◌%◌, IfSome};

use markdown_base::cow_str::CowStr;
use markdown_base::fault::Fault;
use markdown_base::item::{Item, ItemBody};
use markdown_base::tag::LinkType;
use markdown_brackets::block_rules::BlockRules;
use markdown_brackets::chain_openers::ChainOpeners;
use markdown_brackets::footnote::{FootnoteStyle, use_footnote};
use markdown_brackets::items_after::NoItems;
use markdown_brackets::link_tail::{LinkTail, scan_link_tail};
use markdown_brackets::look_up::{LabelLookup, Target, look_up_label};
use markdown_brackets::openers::Opener;
use markdown_brackets::reference::{Form, scan_form};
use markdown_brackets::wikilink::{Shown, scan_wikilink_body};
use markdown_defs::{
    Allocations, BrokenLink, BrokenLinkCallback, Closure, DefaultBrokenLinkCallback,
};
use markdown_scan::entity::EntityNames;
use markdown_scan::line_rule::NoPrefix;
use markdown_test_helpers::lists::is_nothing;
use markdown_test_helpers::parts::{defining, no_parts};
use markdown_test_helpers::rows::{Rows, gives};
use markdown_test_helpers::trees::{item, text};
use std::alloc::{AllocError, Global};
use std::test::Fail;

/// Returns how the parts of links are read in a block without line prefixes, with footnotes in GitHub's style.
fn rules(alloc: Global, in_table: bool) -> BlockRules<'static, NoPrefix> {
    BlockRules {
        alloc,
        rule: &NoPrefix,
        in_table,
        names: EntityNames::Basic,
        style: FootnoteStyle::Gfm,
    }
}

/// Returns whether a tail ends with its text, and has this destination and title, each a slice if `are_slices` is true.
fn is_tail(tail: &LinkTail<'_>, row: Tail) -> bool {
    let (text, _, destination, title, are_slices) = row;
    let slices = matches!(&tail.destination, CowStr::Borrowed(_))
        && matches!(&tail.title, CowStr::Borrowed(_));
    tail.end == text.len()
        && tail.destination.as_str() == destination
        && tail.title.as_str() == title
        && slices == are_slices
}

/// Returns the tail of a link that a text begins with.
fn tail_of(alloc: Global, text: &str, in_table: bool) -> Result<Option<LinkTail<'_>>, AllocError> {
    if !text.is_char_boundary(0) {
        return Ok(None);
    }
    scan_link_tail(&rules(alloc, in_table), text, 0, &mut NoItems)
}

/// Returns whether the text is a tail, as the row says.
fn has_tail(alloc: Global, row: Tail) -> Result<bool, AllocError> {
    match tail_of(alloc, row.0, row.1)? {
        None => Ok(false),
        Some(tail) => {
            let is_so = is_tail(&tail, row);
            drop(tail);
            Ok(is_so)
        }
    }
}

/// A text, whether it is in a table, and the destination and the title of the tail that it is, and whether they are slices
/// of it.
type Tail = (&'static str, bool, &'static str, &'static str, bool);

static TAILS: [Tail; 11] = [
    ("(c)", false, "c", "", true),
    ("()", false, "", "", true),
    ("(c \"t\")", false, "c", "t", true),
    ("(<c d>'t' )", false, "c d", "t", true),
    ("(\tc\n(t))", false, "c", "t", true),
    // entities and escapes are replaced
    ("(c&amp;d '\\'')", false, "c&d", "'", false),
    ("(c '&#65;')", false, "c", "A", false),
    ("(c '\\a')", false, "c", "\\a", true),
    // in a table two backslashes and a pipe are a pipe, and reading continues after it
    ("(c 'a\\\\|*')", true, "c", "a|*", false),
    ("(c 'a\\\\|*')", false, "c", "a\\|*", false),
    // a line ending stays where no item follows
    ("(c 'a\r\nb')", false, "c", "a\r\nb", true),
];

#[test]
fn tails_of_links(rt: HostRuntime) -> Result<(), Fail> {
    let mut rows = Rows::new();
    for row in &TAILS {
        rows.gives((row.0, row.1), has_tail(rt.alloc(), *row)?, true);
    }
    rows.end()
}

static NO_TAILS: [&str; 9] = [
    "",
    "c",
    "(c",
    "(c d)",
    "(c 't)",
    "(c (t(u)))",
    "(c\n\n't')",
    "(<c)",
    "(c 't' x)",
];

#[test]
fn no_tails_of_links(rt: HostRuntime) -> Result<(), Fail> {
    let mut rows = Rows::new();
    for &text in &NO_TAILS {
        rows.gives(text, is_nothing(tail_of(rt.alloc(), text, false)?), true);
    }
    rows.end()
}

/// Returns the label of the reference at the byte offset `at`, and the offset after it.
fn label_of(
    alloc: Global,
    source: &str,
    at: usize,
    next: Option<Item>,
    after: Option<Item>,
) -> Result<Option<(usize, bool)>, AllocError> {
    if !source.is_char_boundary(at) {
        return Ok(None);
    }
    let form = scan_form(&rules(alloc, false), source, at, next, after)?;
    match form {
        Form::Reference { label, end } => {
            let is_so = label.as_str() == "Some reference";
            drop(label);
            Ok(Some((end, is_so)))
        }
        Form::Collapsed => Ok(Some((0, true))),
        Form::Shortcut => Ok(None),
    }
}

#[test]
fn forms_of_references(rt: HostRuntime) -> Result<(), Fail> {
    let open = |at: usize| Some(item(at, at + 1, ItemBody::MaybeLinkOpen));
    let close = Some(item(6, 7, ItemBody::MaybeLinkClose(true)));
    let mut rows = Rows::new();
    for (source, at, next, after, wanted) in [
        ("[foo][]", 5, open(5), close, Some((0, true))),
        (
            "[testing][Some reference]",
            9,
            open(9),
            Some(text(10, 24)),
            Some((25, true)),
        ),
        // no label begins with an escaped bracket, and a footnote label is not a link label
        ("[a]\\[b]", 3, Some(text(4, 5)), Some(text(5, 6)), None),
        ("[a][^b]", 3, open(3), Some(text(4, 6)), None),
        ("[a]", 3, None, None, None),
    ] {
        let found = label_of(rt.alloc(), source, at, next, after)?;
        rows.gives(source, found, wanted);
    }
    rows.end()
}

/// A target's type, destination and title.
type Wanted<'w> = (LinkType, &'w str, &'w str);

/// Returns whether a target has this type, destination and title, or is None for None.
fn is_target(found: &Option<Target<'_>>, wanted: Option<Wanted<'_>>) -> bool {
    match found {
        Some(target) => {
            let texts = (target.destination.as_str(), target.title.as_str());
            wanted == Some((target.link_type, texts.0, texts.1))
        }
        None => wanted.is_none(),
    }
}

/// Returns whether a label finds a link of this type, destination and title, or nothing for None, and what is then left of
/// the limit.
fn finds<'a, F: BrokenLinkCallback<'a>>(
    alloc: Global,
    lookup: &mut LabelLookup<'a, F>,
    label: &'a str,
    wanted: Option<Wanted<'_>>,
) -> Result<(bool, usize), Fault>
    requires { IfSome lookup.old.callback F.can_ask }
    ensures { IfSome lookup.new.callback F.can_ask }
{
    let about = BrokenLink {
        span: 0..3,
        link_type: LinkType::Shortcut,
        reference: CowStr::Borrowed(label),
    };
    let found = look_up_label(alloc, lookup, about)?;
    let is_so = is_target(&found, wanted);
    drop(found);
    Ok((is_so, lookup.limit))
}

/// Looks up a label that is defined, one that is not, the same again, and the first again: an answer longer than what is
/// left of the limit is accepted, and there is no question for the next label. Returns whether each finds what it should,
/// and what is then left of the limit.
fn look_up_each<'a, F: BrokenLinkCallback<'a>>(
    alloc: Global,
    lookup: &mut LabelLookup<'a, F>,
) -> Result<[(bool, usize); 4], Fault>
    requires { IfSome lookup.old.callback F.can_ask }
    ensures { IfSome lookup.new.callback F.can_ask }
{
    let defined = Some((LinkType::Shortcut, "/u", ""));
    let answered = Some((LinkType::ShortcutUnknown, "YOLO", "SWAG"));
    Ok([
        finds(alloc, lookup, "a", defined)?,
        finds(alloc, lookup, "b", answered)?,
        finds(alloc, lookup, "b", None)?,
        finds(alloc, lookup, "a", None)?,
    ])
}

#[test]
fn look_ups_ask_while_the_limit_lasts(rt: HostRuntime) -> Result<(), Fail> {
    let tables = Allocations::new(rt.alloc(), defining(rt.alloc(), &[("A", "/u")])?)?;
    let mut asked = 0u8;
    let callback = Some(Closure::new(
        |link| -> Option<(CowStr, CowStr)>
            ensures { asked.exit ≡ (asked.entry + 1) % 256 }
        {
            asked = asked.wrapping_add(1);
            drop(link);
            Some((CowStr::Borrowed("YOLO"), CowStr::Borrowed("SWAG")))
        },
    ));
    let mut lookup = LabelLookup {
        tables,
        limit: 5,
        callback,
    };
    let found = look_up_each(rt.alloc(), &mut lookup);
    drop(lookup);
    gives("asked", asked, 1)?;
    gives(
        "found and left",
        found?,
        [(true, 3), (true, 0), (true, 0), (true, 0)],
    )
}

#[test]
fn look_ups_with_nobody_to_ask(rt: HostRuntime) -> Result<(), Fail> {
    let nobody: Option<DefaultBrokenLinkCallback> = None;
    let mut lookup = LabelLookup {
        tables: Allocations::new(rt.alloc(), no_parts(rt.alloc()))?,
        limit: 9,
        callback: nobody,
    };
    let found = finds(rt.alloc(), &mut lookup, "a", None);
    drop(lookup);
    gives("found and left", found?, (true, 9))
}

/// Returns allocations with the footnote `A`.
fn one_footnote<'a>(alloc: Global) -> Result<Allocations<'a>, Fault> {
    let mut parts = no_parts(alloc);
    parts.footnotes = vec![in alloc; CowStr::Borrowed("A")]?;
    Allocations::new(alloc, parts)
}

/// Uses a footnote that is defined, and one that is not, in each style. Returns whether each is a reference, and how often
/// the one that is defined has then been used.
fn use_each(held: &mut Allocations<'_>) -> Result<([bool; 4], Option<usize>), Fault> {
    let used = [
        use_footnote(&mut held.footdefs, FootnoteStyle::Gfm, "a")?,
        use_footnote(&mut held.footdefs, FootnoteStyle::Gfm, "b")?,
        use_footnote(&mut held.footdefs, FootnoteStyle::Old, "b")?,
        use_footnote(&mut held.footdefs, FootnoteStyle::Old, "A")?,
    ];
    let found = held.footdefs.get_mut(CowStr::Borrowed("a"))?;
    Ok((used, found.map(|footnote| footnote.use_count)))
}

#[test]
fn footnotes_are_references_by_their_style(rt: HostRuntime) -> Result<(), Fail> {
    let mut held = one_footnote(rt.alloc())?;
    let used = use_each(&mut held);
    drop(held);
    gives("uses", used?, ([true, false, true, true], Some(2)))
}

/// Returns the text of a wikilink with this body, and whether its name is this one.
fn shown_by(source: &str, end: usize, name: &str) -> Option<(Shown, bool)> {
    if !source.is_char_boundary(2) || !source.is_char_boundary(end) {
        return None;
    }
    let body = scan_wikilink_body(source, source.len(), 2, end)?;
    Some((body.shown, body.name == name))
}

#[test]
fn bodies_of_wikilinks(rt: HostRuntime) -> Result<(), Fail> {
    let table = &[
        ("[[foo]]", 5, "foo", Some(Shown::Name)),
        ("[[bar|baz]]", 9, "bar", Some(Shown::From(6))),
        ("[[a|\\*b]]", 7, "a", Some(Shown::From(4))),
        ("[[a|]]", 4, "a", Some(Shown::Nothing(4))),
        ("[[|b]]", 4, "", None),
        ("[[]]", 2, "", None),
    ];
    let mut rows = Rows::new();
    for &(source, end, name, shown) in table {
        let wanted = shown.map(|kind| (kind, true));
        rows.gives(source, shown_by(source, end, name), wanted);
    }
    rows.end()
}

fn opener(node: usize, is_image: bool) -> Opener {
    Opener { node, is_image }
}

/// Finishes a link at the second of two openers. Returns what the list then has, from the nearest opener on.
fn left_after_link(
    openers: &mut ChainOpeners,
    first: Opener,
    second: Opener,
) -> Result<[Option<(Opener, bool)>; 3], Fault> {
    openers.brackets.push(first)?;
    openers.brackets.push(second)?;
    let nearest = openers.brackets.take_nearest();
    openers.finish_link(second);
    let earlier = openers.brackets.take_nearest();
    let none = openers.brackets.take_nearest();
    openers.clear();
    Ok([nearest, earlier, none])
}

/// The first opener is that of a bracket or of an image, and a link is made from the second.
#[test]
fn links_disable_earlier_brackets_and_images_do_not(rt: HostRuntime) -> Result<(), Fail> {
    let mut openers = ChainOpeners::new(rt.alloc());
    let mut rows = Rows::new();
    for &(outer, inner, live) in &[
        (false, false, false),
        (true, false, true),
        (false, true, true),
    ] {
        let (first, second) = (opener(1, outer), opener(3, inner));
        let found = left_after_link(&mut openers, first, second)?;
        rows.gives(
            (outer, inner),
            found,
            [Some((second, true)), Some((first, live)), None],
        );
    }
    rows.end()
}
