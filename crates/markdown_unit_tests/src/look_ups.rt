//! Look-ups of definitions and footnotes by case folding, and uses of footnotes.
use markdown_base::block_parts::LinkDef;
use markdown_base::cow_str::CowStr;
use markdown_base::fault::Fault;
use markdown_defs::{Absence, Allocations, FootnoteDef, RefDefs};
use markdown_test_helpers::parts::{defining, no_parts};
use markdown_test_helpers::rows::{Rows, gives};
use std::alloc::{AllocError, Global};
use std::test::Fail;

/// Returns whether a key finds this destination, or nothing for None.
fn is_found(held: &RefDefs<'_>, key: &str, dest: Option<&str>) -> Result<bool, Fault> {
    let found = held.get(key)?;
    Ok(found.map(|definition| definition.dest.as_str()) == dest)
}

/// Returns the same of a key among definitions.
fn finds(
    alloc: Global,
    definitions: &[(&str, &str)],
    key: &str,
    dest: Option<&str>,
) -> Result<bool, Fault> {
    let held = Allocations::new(alloc, defining(alloc, definitions)?)?;
    let is_so = is_found(&held.refdefs, key, dest);
    drop(held);
    is_so
}

static DEFINITIONS: [(&str, &str); 4] = [
    ("a B c", "http://example.com"),
    ("ß", "/u"),
    ("A", "/1"),
    ("a", "/2"),
];

/// Keys, and the destination that each finds.
static KEYS: [(&str, Option<&str>); 12] = [
    ("A b C", Some("http://example.com")),
    ("SS", Some("/u")),
    ("ẞ", Some("/u")),
    ("a", Some("/1")),
    // white space is not collapsed
    ("a  b c", None),
    (" a b c", None),
    ("a b c ", None),
    ("a\tb c", None),
    ("a\nb c", None),
    ("abc", None),
    ("", None),
    ("s", None),
];

#[test]
fn keys_find_the_first_of_equal_folding(rt: HostRuntime) -> Result<(), Fail> {
    let mut rows = Rows::new();
    for &(key, dest) in &KEYS {
        rows.gives(key, finds(rt.alloc(), &DEFINITIONS, key, dest)?, true);
    }
    rows.end()
}

/// Returns whether each of two labels finds this destination under the other.
fn find_each_other(
    alloc: Global,
    one: &str,
    other: &str,
    dest: Option<&str>,
) -> Result<bool, Fault> {
    let there = finds(alloc, &[(one, "/u")], other, dest)?;
    let back = finds(alloc, &[(other, "/u")], one, dest)?;
    Ok(there && back)
}

/// Pairs that match, of statuses C and F of CaseFolding.txt.
static MATCHING: [(&str, &str); 17] = [
    ("Weiß", "WEISS"),
    ("ﬀ", "FF"),
    ("ﬃ", "fFi"),
    ("ς", "Σ"),
    ("ΜΆΪΟΣ", "μάϊος"),
    ("\u{212A}", "k"),
    ("\u{212B}", "å"),
    ("\u{B5}", "\u{3BC}"),
    ("\u{149}", "\u{2BC}N"),
    ("\u{390}", "\u{3B9}\u{308}\u{301}"),
    ("\u{345}", "ι"),
    ("ᾈ", "ἀι"),
    ("ſ", "S"),
    ("Ａ", "ａ"),
    ("\u{130}", "i\u{307}"),
    ("\u{AB70}", "\u{13A0}"),
    ("\u{10400}", "\u{10428}"),
];

/// Pairs that default matching keeps apart.
static APART: [(&str, &str); 6] = [
    ("\u{130}", "i"),
    ("ı", "i"),
    ("é", "e\u{301}"),
    ("ﬀ", "f"),
    ("ａ", "a"),
    ("[", "{"),
];

#[test]
fn foldings_are_unicodes(rt: HostRuntime) -> Result<(), Fail> {
    let mut rows = Rows::new();
    for &(label, key) in &MATCHING {
        let is_so = find_each_other(rt.alloc(), label, key, Some("/u"))?;
        rows.gives((label, key), is_so, true);
    }
    for &(label, key) in &APART {
        let is_so = find_each_other(rt.alloc(), label, key, None)?;
        rows.gives((label, key), is_so, true);
    }
    rows.end()
}

/// Appends a label and its destination.
fn push_definition(
    seen: &mut String,
    label: &str,
    definition: &LinkDef<'_>,
) -> Result<(), AllocError> {
    seen.push_str(label)?;
    seen.push_str(definition.dest.as_str())
}

/// Appends the labels and destinations that can be found, in order.
fn push_definitions(seen: &mut String, held: &RefDefs<'_>) -> Result<(), AllocError> {
    for (label, definition) in held.iter() {
        push_definition(seen, label, definition)?;
    }
    Ok(())
}

/// Returns the labels and destinations that can be found, in order.
fn listed(alloc: Global, definitions: &[(&str, &str)]) -> Result<String, Fault> {
    let held = Allocations::new(alloc, defining(alloc, definitions)?)?;
    let mut seen = String::new(alloc);
    let done = push_definitions(&mut seen, &held.refdefs);
    drop(held);
    done?;
    Ok(seen)
}

/// Checks the labels and destinations that can be found.
fn are_listed(alloc: Global, definitions: &[(&str, &str)], wanted: &str) -> Result<(), Fail> {
    let seen = listed(alloc, definitions)?;
    gives(wanted, seen.as_str(), wanted)
}

static REPEATED: [(&str, &str); 6] = [
    ("Z", "1"),
    ("b", "2"),
    ("z", "3"),
    ("A", "4"),
    ("B", "5"),
    ("C", "6"),
];

#[test]
fn definitions_are_listed_in_order(rt: HostRuntime) -> Result<(), Fail> {
    are_listed(rt.alloc(), &REPEATED, "Z1b2A4C6")?;
    are_listed(rt.alloc(), &[], "")
}

/// Returns allocations with the footnotes `a` and `Straße`, the first of which is defined twice.
fn footnotes<'a>(alloc: Global) -> Result<Allocations<'a>, Fault> {
    let mut names = Vec::new(alloc);
    for &name in &["a", "Straße", "A"] {
        names.push(CowStr::from(name))?;
    }
    let mut parts = no_parts(alloc);
    parts.footnotes = names;
    Allocations::new(alloc, parts)
}

/// Returns how often a footnote has been used, if it is defined.
fn uses(held: &mut Allocations<'_>, name: &str) -> Result<Option<usize>, Fault> {
    let found = held.footdefs.get_mut(CowStr::from(name))?;
    Ok(found.map(|footnote| footnote.use_count))
}

/// Returns how often a footnote has been used, whether it is defined, whether one more use is counted, and how often it
/// has then been used.
fn count_one_use(
    held: &mut Allocations<'_>,
    name: &str,
) -> Result<(Option<usize>, bool, bool, Option<usize>), Fault> {
    let before = uses(held, name)?;
    let is_defined = held.footdefs.contains(name)?;
    let is_counted = held.footdefs.count_use(name)?;
    let after = uses(held, name)?;
    Ok((before, is_defined, is_counted, after))
}

/// A name, and how often its footnote has been used before one more use is counted, and after.
static USES: [(&str, Option<usize>, Option<usize>); 6] = [
    ("a", Some(0), Some(1)),
    ("A", Some(1), Some(2)),
    ("b", None, None),
    ("a ", None, None),
    ("STRASSE", Some(0), Some(1)),
    ("a", Some(2), Some(3)),
];

/// Counts a use of each name, and checks what is then counted.
fn count_uses(held: &mut Allocations<'_>) -> Result<(), Fail> {
    let mut rows = Rows::new();
    for &(name, before, after) in &USES {
        let is_defined = before.is_some();
        let counted = count_one_use(held, name)?;
        rows.gives(name, counted, (before, is_defined, is_defined, after));
    }
    rows.end()
}

#[test]
fn uses_of_footnotes_are_counted(rt: HostRuntime) -> Result<(), Fail> {
    let mut held = footnotes(rt.alloc())?;
    let done = count_uses(&mut held);
    drop(held);
    done
}

/// Sets how often a footnote has been used, or returns why there is none.
fn set_uses(held: &mut Allocations<'_>, name: &str, count: usize) -> Option<Absence> {
    match held.footdefs.find_mut(CowStr::from(name)) {
        Ok(footnote) => {
            footnote.use_count = count;
            None
        }
        Err(why) => Some(why),
    }
}

/// Counts one more use of a footnote that has been used as often as can be counted. Returns whether it was counted, and
/// how often the footnote has then been used.
fn count_beyond(held: &mut Allocations<'_>) -> Result<(bool, Option<usize>), Fault> {
    let is_counted = held.footdefs.count_use("straße")?;
    let count = uses(held, "Straße")?;
    Ok((is_counted, count))
}

#[test]
fn a_count_stays_at_its_greatest(rt: HostRuntime) -> Result<(), Fail> {
    let mut held = footnotes(rt.alloc())?;
    let set = [
        set_uses(&mut held, "STRASSE", usize::MAX),
        set_uses(&mut held, "strase", usize::MAX),
    ];
    let counted = count_beyond(&mut held);
    drop(held);
    gives("set", set, [None, Some(Absence::Undefined)])?;
    gives("counted", counted?, (true, Some(usize::MAX)))?;
    let footnote = FootnoteDef { use_count: 3 };
    gives("a copy", footnote.clone()?.use_count, 3)
}
