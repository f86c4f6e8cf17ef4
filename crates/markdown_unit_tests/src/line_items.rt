//! The items of a line: what each text becomes, by the rules of inlines (CommonMark 2.4, 2.5, 6.2) and the options.
ghost use Rattle.std.specs.Prelude.{◌≡◌, ◌≤◌, false, length, IfOk};
ghost use Rattle.std.specs.Str.{IsCharBoundary};

use crate::block_builder::finished;
use crate::block_rules::is_well_formed;
use markdown_base::cow_str::CowStr;
use markdown_base::item::{Item, ItemBody};
use markdown_base::options::Options;
use markdown_base::syntax::Syntax;
use markdown_base::tree::Tree;
use markdown_builder::builder::Builder;
use markdown_items::items;
use markdown_test_helpers::rows::{Rows, gives};
use std::alloc::{AllocError, Global};
use std::test::Fail;

/// Returns an item and its range.
fn row_of(alloc: Global, item: Item) -> Result<String, AllocError> {
    match item.body {
        ItemBody::Text {
            backslash_escaped: false,
        } => format!(in alloc; "Text {}..{};", item.start, item.end),
        ItemBody::Text {
            backslash_escaped: true,
        } => format!(in alloc; "Escaped {}..{};", item.start, item.end),
        body => format!(in alloc; "{body:?} {}..{};", item.start, item.end),
    }
}

/// Returns the items of a tree from the third on, each with its range, and then the texts that they refer to.
fn rows_of(alloc: Global, tree: &Tree<Item>, texts: &[CowStr<'_>]) -> Result<String, AllocError> {
    let mut list = String::new(alloc);
    for ix in 2..tree.len() {
        let row = row_of(alloc, *tree.item(ix))?;
        let done = list.push_str(row.as_str());
        drop(row);
        done?;
    }
    for text in texts {
        list.push_str(text.as_str())?;
        list.push_str(";")?;
    }
    Ok(list)
}

/// Appends a paragraph over a text, with the items of the part from `start` up to `end`.
fn place(
    builder: &mut Builder<'_>,
    alloc: Global,
    start: usize,
    end: usize,
    syntax: Syntax,
) -> Result<(), AllocError>
    requires outside { builder.old.leaf ≡ false }
    requires fresh { builder.old.at ≡ 0 }
    requires low { start ≤ end }
    requires first { IsCharBoundary builder.old.text start }
    requires last { IsCharBoundary builder.old.text end }
    ensures read { IfOk result (λ _. builder.new.at ≡ length builder.new.text) }
{
    builder.open(ItemBody::Paragraph)?;
    builder.skip(start);
    items(builder, alloc, end, syntax)?;
    builder.skip(builder.text().as_bytes().len());
    if !builder.is_in_row() {
        builder.close();
    }
    Ok(())
}

/// Returns the items of the part of a text from `start` up to `end`, each with its range.
fn part_listed(
    alloc: Global,
    text: &str,
    start: usize,
    end: usize,
    syntax: Syntax,
) -> Result<String, AllocError> {
    if !text.is_char_boundary(start) || !text.is_char_boundary(end) || start > end {
        return Ok(String::new(alloc));
    }
    let mut builder = Builder::new(alloc, text)?;
    place(&mut builder, alloc, start, end, syntax)?;
    if !builder.open_blocks().is_empty() {
        drop(builder);
        return Ok(String::new(alloc));
    }
    let (tree, parts) = builder.finish();
    let rows = rows_of(alloc, &tree, &parts.cows);
    drop(tree);
    drop(parts);
    rows
}

/// Returns the items of a whole text as one line.
fn listed(alloc: Global, text: &str, syntax: Syntax) -> Result<String, AllocError> {
    part_listed(alloc, text, 0, text.as_bytes().len(), syntax)
}

/// Checks the items of each text, with GFM's options.
fn compare(alloc: Global, table: &[(&str, &str)]) -> Result<(), Fail> {
    let mut rows = Rows::new();
    for (text, want) in table {
        rows.gives_text(
            text,
            listed(alloc, text, Syntax::profile(Options::ENABLE_GFM))?,
            want,
        );
    }
    rows.end()
}

#[test]
fn delimiter_runs(rt: HostRuntime) -> Result<(), Fail> {
    compare(
        rt.alloc(),
        &[
            ("", ""),
            ("hello world", "Text 0..11;"),
            (
                "*a*",
                "MaybeEmphasis(1, true, false) 0..1;Text 1..2;MaybeEmphasis(1, false, true) 2..3;",
            ),
            (
                "**a__",
                "MaybeEmphasis(2, true, false) 0..1;MaybeEmphasis(1, true, false) 1..2;Text 2..3;\
            MaybeEmphasis(2, false, true) 3..4;MaybeEmphasis(1, false, true) 4..5;",
            ),
            (
                "*_a",
                "MaybeEmphasis(1, true, false) 0..1;MaybeEmphasis(1, true, false) 1..2;Text 2..3;",
            ),
            (
                "a*b",
                "Text 0..1;MaybeEmphasis(1, true, true) 1..2;Text 2..3;",
            ),
            ("a_b", "Text 0..3;"),
            ("a__b_c", "Text 0..6;"),
            ("* a", "Text 0..3;"),
            ("a ** b *", "Text 0..8;"),
            (
                "a._b",
                "Text 0..2;MaybeEmphasis(1, true, false) 2..3;Text 3..4;",
            ),
            (
                "a_.b",
                "Text 0..1;MaybeEmphasis(1, false, true) 1..2;Text 2..4;",
            ),
            (
                "._.",
                "Text 0..1;MaybeEmphasis(1, true, true) 1..2;Text 2..3;",
            ),
            (
                "a*\"b",
                "Text 0..1;MaybeEmphasis(1, false, true) 1..2;Text 2..4;",
            ),
            ("*\u{a0}a", "Text 0..4;"),
            ("*\u{2003}a", "Text 0..5;"),
            (
                "é*é",
                "Text 0..2;MaybeEmphasis(1, true, true) 2..3;Text 3..5;",
            ),
            // a character outside ASCII does not count as punctuation
            (
                "a*“",
                "Text 0..1;MaybeEmphasis(1, true, true) 1..2;Text 2..5;",
            ),
            ("a+b=c.", "Text 0..6;"),
        ],
    )
}

#[test]
fn escapes_and_code(rt: HostRuntime) -> Result<(), Fail> {
    compare(
        rt.alloc(),
        &[
            ("\\*a*", "Escaped 1..3;MaybeEmphasis(1, false, true) 3..4;"),
            (
                "\\**a",
                "Escaped 1..2;MaybeEmphasis(1, true, false) 2..3;Text 3..4;",
            ),
            ("a\\\\b", "Text 0..1;Escaped 2..4;"),
            ("a\\b\\é", "Text 0..6;"),
            ("a\\", "Text 0..2;"),
            ("\\", "Text 0..1;"),
            ("\\\\\\", "Escaped 1..3;"),
            ("\\!\\[", "Escaped 1..2;Escaped 3..4;"),
            ("*\\*", "MaybeEmphasis(1, true, false) 0..1;Escaped 2..3;"),
            (
                "`a``",
                "MaybeCode(1, false) 0..1;Text 1..2;MaybeCode(2, false) 2..4;",
            ),
            (
                "\\`a\\``",
                "MaybeCode(1, true) 1..2;Text 2..3;MaybeCode(2, true) 4..6;",
            ),
            ("\\\\`", "Escaped 1..2;MaybeCode(1, false) 2..3;"),
        ],
    )
}

#[test]
fn brackets_and_entities(rt: HostRuntime) -> Result<(), Fail> {
    compare(
        rt.alloc(),
        &[
            (
                "[a]",
                "MaybeLinkOpen 0..1;Text 1..2;MaybeLinkClose(true) 2..3;",
            ),
            ("![]", "MaybeImage 0..2;MaybeLinkClose(true) 2..3;"),
            ("!a![", "Text 0..2;MaybeImage 2..4;"),
            ("a!", "Text 0..2;"),
            ("[[", "MaybeLinkOpen 0..1;MaybeLinkOpen 1..2;"),
            ("a<b>", "Text 0..1;MaybeHtml 1..2;Text 2..4;"),
            (
                "a&amp;b&#65;",
                "Text 0..1;SynthesizeText(CowIndex(0)) 1..6;Text 6..7;SynthesizeText(CowIndex(1)) 7..12;&;A;",
            ),
            ("&copy;&amp", "Text 0..10;"),
            ("&&gt;", "Text 0..1;SynthesizeText(CowIndex(0)) 1..5;>;"),
            (
                "&lt;&#xe9;",
                "SynthesizeText(CowIndex(0)) 0..4;SynthesizeText(CowIndex(1)) 4..10;<;é;",
            ),
            ("~a~ ^b^ 'c' \"d\" $e$", "Text 0..19;"),
        ],
    )
}

/// Texts, and their items with the options of the full reading.
static NAMES_OF_HTML: [(&str, &str); 5] = [
    (
        "&auml;&ngE;&NotEqualTilde;&fjlig;&AMP;",
        "SynthesizeText(CowIndex(0)) 0..6;SynthesizeText(CowIndex(1)) 6..11;SynthesizeText(CowIndex(2)) 11..26;\
        SynthesizeText(CowIndex(3)) 26..33;SynthesizeText(CowIndex(4)) 33..38;ä;≧\u{338};≂\u{338};fj;&;",
    ),
    ("&copy &bad; &Copy; &;", "Text 0..21;"),
    ("\\&copy;", "Escaped 1..7;"),
    ("a&#65;", "Text 0..1;SynthesizeText(CowIndex(0)) 1..6;A;"),
    // the flags are those of the source
    (
        "*&nbsp;a*",
        "MaybeEmphasis(1, true, false) 0..1;SynthesizeText(CowIndex(0)) 1..7;Text 7..8;\
        MaybeEmphasis(1, false, true) 8..9;\u{a0};",
    ),
];

#[test]
fn names_of_html(rt: HostRuntime) -> Result<(), Fail> {
    let syntax = Syntax::full(Options::ENABLE_GFM);
    let mut rows = Rows::new();
    for &(text, want) in &NAMES_OF_HTML {
        rows.gives_text(text, listed(rt.alloc(), text, syntax)?, want);
    }
    rows.end()
}

/// Texts, and their items with the options of the full reading and smart punctuation.
static DASHES_AND_DOTS: [(&str, &str); 9] = [
    (
        "a--b---c",
        "Text 0..1;SynthesizeText(CowIndex(0)) 1..3;Text 3..4;SynthesizeText(CowIndex(1)) 4..7;Text 7..8;–;—;",
    ),
    (
        "---- ----- ------- --------",
        "SynthesizeText(CowIndex(0)) 0..4;Text 4..5;SynthesizeText(CowIndex(1)) 5..10;Text 10..11;\
        SynthesizeText(CowIndex(2)) 11..18;Text 18..19;SynthesizeText(CowIndex(3)) 19..27;––;—–;—––;––––;",
    ),
    // eight em dashes are more than what is stored inline
    (
        "------------------------",
        "SynthesizeText(CowIndex(0)) 0..24;————————;",
    ),
    (
        "-------------------------",
        "SynthesizeText(CowIndex(0)) 0..25;———————––;",
    ),
    ("a - b.c..", "Text 0..9;"),
    (
        "....... ..",
        "SynthesizeText(CowIndex(0)) 0..3;SynthesizeText(CowIndex(1)) 3..6;Text 6..10;…;…;",
    ),
    // a run begins after an escaped byte
    (
        "\\--\\---\\....",
        "Escaped 1..3;Escaped 4..5;SynthesizeText(CowIndex(0)) 5..7;Escaped 8..9;\
        SynthesizeText(CowIndex(1)) 9..12;–;…;",
    ),
    // the flags are those of the source
    (
        "*--*\"",
        "MaybeEmphasis(1, true, false) 0..1;SynthesizeText(CowIndex(0)) 1..3;\
        MaybeEmphasis(1, true, true) 3..4;MaybeSmartQuote(34, false, true) 4..5;–;",
    ),
    (
        "é--é",
        "Text 0..2;SynthesizeText(CowIndex(0)) 2..4;Text 4..6;–;",
    ),
];

#[test]
fn dashes_and_dots(rt: HostRuntime) -> Result<(), Fail> {
    let syntax = Syntax::full(Options::ENABLE_SMART_PUNCTUATION);
    let mut rows = Rows::new();
    for &(text, want) in &DASHES_AND_DOTS {
        rows.gives_text(text, listed(rt.alloc(), text, syntax)?, want);
    }
    rows.end()
}

#[test]
fn options_add_items(rt: HostRuntime) -> Result<(), Fail> {
    let mut rows = Rows::new();
    for &(text, syntax, want) in &[
        (
            "~a~~",
            Syntax::profile(Options::ENABLE_STRIKETHROUGH),
            "MaybeEmphasis(1, true, false) 0..1;Text 1..2;MaybeEmphasis(2, false, true) 2..3;\
            MaybeEmphasis(1, false, true) 3..4;",
        ),
        (
            "a~b",
            Syntax::profile(Options::ENABLE_SUBSCRIPT),
            "Text 0..1;MaybeEmphasis(1, true, true) 1..2;Text 2..3;",
        ),
        (
            "a~~~b",
            Syntax::profile(Options::ENABLE_SUBSCRIPT),
            "Text 0..5;",
        ),
        (
            "a^b",
            Syntax::profile(Options::ENABLE_SUBSCRIPT),
            "Text 0..3;",
        ),
        (
            "a^^b",
            Syntax::profile(Options::ENABLE_SUPERSCRIPT),
            "Text 0..1;MaybeEmphasis(2, true, true) 1..2;MaybeEmphasis(1, true, true) 2..3;Text 3..4;",
        ),
        (
            "\"a's\"",
            Syntax::profile(Options::ENABLE_SMART_PUNCTUATION),
            "MaybeSmartQuote(34, true, false) 0..1;Text 1..2;MaybeSmartQuote(39, false, false) 2..3;\
            Text 3..4;MaybeSmartQuote(34, false, true) 4..5;",
        ),
        // the port's profile has no dashes, and the full reading only with smart punctuation
        (
            "a--b...",
            Syntax::profile(Options::ENABLE_SMART_PUNCTUATION),
            "Text 0..7;",
        ),
        ("a--b...", Syntax::full(Options::ENABLE_GFM), "Text 0..7;"),
        (
            "$a$",
            Syntax::profile(Options::ENABLE_MATH),
            "MaybeMath(true, false, 0) 0..1;Text 1..2;MaybeMath(false, true, 0) 2..3;",
        ),
        (
            "a$$ $",
            Syntax::profile(Options::ENABLE_MATH),
            "Text 0..1;MaybeMath(true, true, 0) 1..2;MaybeMath(false, true, 0) 2..3;Text 3..4;\
            MaybeMath(false, false, 0) 4..5;",
        ),
    ] {
        rows.gives_text(text, listed(rt.alloc(), text, syntax)?, want);
    }
    rows.end()
}

#[test]
fn a_line_is_read_alone(rt: HostRuntime) -> Result<(), Fail> {
    let mut rows = Rows::new();
    for &(text, start, end, want) in &[
        ("hello world", 6, 11, "Text 6..11;"),
        (
            "x*a* y",
            1,
            4,
            "MaybeEmphasis(1, true, false) 1..2;Text 2..3;MaybeEmphasis(1, false, true) 3..4;",
        ),
        // the backslash of a hard break is the character after the run
        (
            "(_\\\nb_",
            0,
            2,
            "Text 0..1;MaybeEmphasis(1, true, true) 1..2;",
        ),
        (
            "\\*a",
            1,
            3,
            "MaybeEmphasis(1, true, false) 1..2;Text 2..3;",
        ),
        ("&amp;", 0, 4, "Text 0..4;"),
        ("a![", 0, 2, "Text 0..2;"),
        ("a\\*", 0, 2, "Text 0..2;"),
        ("a``", 0, 2, "Text 0..1;MaybeCode(1, false) 1..2;"),
    ] {
        let list = part_listed(
            rt.alloc(),
            text,
            start,
            end,
            Syntax::profile(Options::ENABLE_GFM),
        )?;
        rows.gives_text(text, list, want);
    }
    rows.end()
}

/// Appends a paragraph over a text, whose items are read up to `cut`, and then up to the end.
fn place_cut(builder: &mut Builder<'_>, alloc: Global, cut: usize) -> Result<(), AllocError>
    requires outside { builder.old.leaf ≡ false }
    requires fresh { builder.old.at ≡ 0 }
    requires boundary { IsCharBoundary builder.old.text cut }
{
    builder.open(ItemBody::Paragraph)?;
    items(builder, alloc, cut, Syntax::profile(Options::ENABLE_GFM))?;
    items(
        builder,
        alloc,
        builder.text().as_bytes().len(),
        Syntax::profile(Options::ENABLE_GFM),
    )?;
    if !builder.is_in_row() {
        builder.close();
    }
    Ok(())
}

/// Returns the tree of a text whose items are read up to `cut`, and then up to the end, or None where the text is not read
/// whole.
fn cut_tree(
    alloc: Global,
    text: &'static str,
    cut: usize,
) -> Result<Option<Tree<Item>>, AllocError> {
    if !text.is_char_boundary(cut) {
        return Ok(None);
    }
    let mut builder = Builder::new(alloc, text)?;
    place_cut(&mut builder, alloc, cut)?;
    Ok(finished(builder))
}

/// Checks the items of such a tree, and that it is well-formed.
fn cut_has(alloc: Global, text: &'static str, cut: usize, wanted: &str) -> Result<(), Fail> {
    let Some(tree) = cut_tree(alloc, text, cut)? else {
        return gives(text, "open", "closed");
    };
    let list = rows_of(alloc, &tree, &[]);
    let is_formed = is_well_formed(alloc, text, tree);
    gives(text, list?.as_str(), wanted)?;
    gives(text, is_formed?, true)
}

#[test]
fn a_run_that_was_cut_stays_one_run(rt: HostRuntime) -> Result<(), Fail> {
    cut_has(
        rt.alloc(),
        "a**b",
        2,
        "Text 0..1;MaybeEmphasis(1, false, true) 1..2;Text 2..4;",
    )
}
