//! Many delimiter runs in one chain, made by hand: their events with ranges, and the counts of the work.
use crate::grown::Grown;
use markdown_base::index::in_32_bits;
use markdown_base::item::ItemBody;
use markdown_test_helpers::rows::{Rows, gives};
use std::alloc::{AllocError, Global};
use std::test::Fail;

/// Appends a run, followed by a text.
fn append_run(
    over: &mut Grown,
    mark: &str,
    count: usize,
    opens: bool,
    closes: bool,
) -> Result<(), AllocError> {
    'marks: for left in 0..count {
        over.append(
            mark,
            ItemBody::MaybeEmphasis(in_32_bits(count - left)?, opens, closes),
        )?;
    }
    over.append_a()
}

/// Returns a thousand runs of `*` and `_`, of one, two and three characters.
fn three_lengths(alloc: Global) -> Result<Grown, Fail> {
    // 1000 characters `a`, and 1999 of the runs
    let mut over = Grown::new(alloc, 2999)?;
    for k in 0..1000 {
        let mark = if k % 2 == 0 { "*" } else { "_" };
        append_run(&mut over, mark, 1 + k % 3, k % 4 != 2, k % 4 != 0)?;
    }
    Ok(over)
}

/// Returns what they become, paired by the rules with a search that begins afresh for each closer: each twelve runs
/// become the same, except the first few and the last.
fn three_lengths_paired(alloc: Global) -> Result<String, AllocError> {
    let twelve = "**a<em>a**a</em><strong>a*a</strong>a\
        <em><strong>a_a</strong>a_<strong>a*a</strong>a</em>"
        .repeat(alloc, 83)?;
    format!(in alloc; "<p><em>a__a</em>{twelve}**a_a</p>\n")
}

/// The events of twelve runs, from the second character of the third run on, with the ranges of the first twelve.
static TWELVE: [(&str, u8, u8); 30] = [
    ("[*]", 6, 7),
    ("[*]", 7, 8),
    ("[a]", 8, 9),
    ("<em>", 9, 15),
    ("[a]", 10, 11),
    ("[*]", 11, 12),
    ("[*]", 12, 13),
    ("[a]", 13, 14),
    ("</em>", 9, 15),
    ("<strong>", 15, 22),
    ("[a]", 17, 18),
    ("[*]", 18, 19),
    ("[a]", 19, 20),
    ("</strong>", 15, 22),
    ("[a]", 22, 23),
    ("<em>", 23, 42),
    ("<strong>", 24, 31),
    ("[a]", 26, 27),
    ("[_]", 27, 28),
    ("[a]", 28, 29),
    ("</strong>", 24, 31),
    ("[a]", 31, 32),
    ("[_]", 32, 33),
    ("<strong>", 33, 40),
    ("[a]", 35, 36),
    ("[*]", 36, 37),
    ("[a]", 37, 38),
    ("</strong>", 33, 40),
    ("[a]", 40, 41),
    ("</em>", 23, 42),
];

/// Appends the events of twelve runs, with the ranges of those after `before` times twelve others.
fn push_twelve(alloc: Global, events: &mut String, before: u8) -> Result<(), AllocError> {
    // twelve runs and the texts after them are 36 bytes
    let from = 36 * usize::from(before);
    for &(event, start, end) in &TWELVE {
        let placed = format!(in alloc;
            "{event}{}..{} ",
            from + usize::from(start),
            from + usize::from(end)
        )?;
        events.push_str(placed.as_str())?;
    }
    Ok(())
}

/// Returns the events of the thousand runs, each with its range.
fn three_lengths_given(alloc: Global) -> Result<String, AllocError> {
    let mut events = String::new(alloc);
    events.push_str("<p>0..2999 <em>0..6 [a]1..2 [_]2..3 [_]3..4 [a]4..5 </em>0..6 ")?;
    for before in 0..83u8 {
        push_twelve(alloc, &mut events, before)?;
    }
    events.push_str(
        "[*]2994..2995 [*]2995..2996 [a]2996..2997 [_]2997..2998 [a]2998..2999 </p>0..2999 ",
    )?;
    Ok(events)
}

#[test]
fn a_thousand_runs_of_three_lengths(rt: HostRuntime) -> Result<(), Fail> {
    let wanted = three_lengths_given(rt.alloc())?;
    three_lengths(rt.alloc())?.gives(rt.alloc(), "a thousand runs", wanted.as_str())
}

#[test]
fn work_of_a_thousand_runs_of_three_lengths(rt: HostRuntime) -> Result<(), Fail> {
    let work = three_lengths(rt.alloc())?.counted(rt.alloc())?;
    gives(
        "delimiters, and whether few are examined",
        (work.delimiters, work.examined <= 21989),
        (1999, true),
    )
}

#[test]
fn a_thousand_runs_of_three_lengths_in_html(rt: HostRuntime) -> Result<(), Fail> {
    let wanted = three_lengths_paired(rt.alloc())?;
    three_lengths(rt.alloc())?.shows(rt.alloc(), "a thousand runs", wanted.as_str())
}

/// Returns `runs` runs `_` that can only open, and then as many `*` that can only close, in a text of `bytes` bytes.
fn apart(alloc: Global, runs: usize, bytes: usize) -> Result<Grown, AllocError> {
    let mut over = Grown::new(alloc, bytes)?;
    for _ in 0..runs {
        append_run(&mut over, "_", 1, true, false)?;
    }
    for _ in 0..runs {
        append_run(&mut over, "*", 1, false, true)?;
    }
    Ok(over)
}

/// Returns their events, each with its range: each run is a text.
fn apart_given(alloc: Global, bytes: usize) -> Result<String, AllocError> {
    let mut events = format!(in alloc; "<p>0..{bytes} ")?;
    for run in 0..bytes / 2 {
        let mark = if run < bytes / 4 { "_" } else { "*" };
        let start = 2 * run;
        let placed = format!(in alloc;
            "[{mark}]{start}..{} [a]{}..{} ",
            start + 1,
            start + 1,
            start + 2
        )?;
        events.push_str(placed.as_str())?;
    }
    let end = format!(in alloc; "</p>0..{bytes} ")?;
    events.push_str(end.as_str())?;
    Ok(events)
}

/// Returns whether `runs` runs of each kind, in a text of `bytes` bytes, stay texts.
fn stay_apart(alloc: Global, runs: usize, bytes: usize) -> Result<bool, Fail> {
    let found = apart(alloc, runs, bytes)?.events(alloc)?;
    let wanted = apart_given(alloc, bytes)?;
    Ok(found.as_str() == wanted.as_str())
}

/// A row has the number of runs of each kind, the bytes of the text, the counted delimiters, and a bound on comparisons.
#[test]
fn runs_that_never_pair(rt: HostRuntime) -> Result<(), Fail> {
    let mut rows = Rows::new();
    for &(runs, bytes, delimiters, examined) in &[
        (500, 2_000, 1_000, 10_000),
        (5_000, 20_000, 10_000, 110_000),
    ] {
        rows.gives(
            (runs, "stay texts"),
            stay_apart(rt.alloc(), runs, bytes)?,
            true,
        );
        let work = apart(rt.alloc(), runs, bytes)?.counted(rt.alloc())?;
        rows.gives(
            runs,
            (work.delimiters, work.examined <= examined),
            (delimiters, true),
        );
    }
    rows.end()
}
