//! The lines of JSON of an outline, with ids and without them.
use markdown_outline::Entry;
use markdown_test_helpers::rows::gives;
use markdown_text_json::{push_outline, push_outline_with_ids};
use std::alloc::{AllocError, Global};
use std::test::Fail;

/// A heading: its level, its text, its range and its id.
type Heading = (u8, &'static str, usize, usize, Option<&'static str>);

/// The headings of `# A *b*`, `## C`, `#### D`, `### E` and `# F {#g(h)&amp;}`, and one without an id.
static HEADINGS: [Heading; 6] = [
    (1, "A b", 0, 8, Some("a-b")),
    (2, "C", 9, 14, Some("c")),
    (4, "D", 15, 22, Some("d")),
    (3, "E", 23, 29, Some("e")),
    (1, "F", 30, 47, Some("g(h)&amp;")),
    (1, "\"", 48, 52, None),
];

fn copied(alloc: Global, id: Option<&str>) -> Result<Option<String>, AllocError> {
    match id {
        Some(id) => Ok(Some(String::from_str(alloc, id)?)),
        None => Ok(None),
    }
}

fn entries_of(alloc: Global, headings: &[Heading]) -> Result<Vec<Entry>, AllocError> {
    let mut entries = Vec::new(alloc);
    for &(level, text, start, end, id) in headings {
        let text = String::from_str(alloc, text)?;
        let id = copied(alloc, id)?;
        entries.push(Entry {
            level,
            text,
            range: start..end,
            id,
        })?;
    }
    Ok(entries)
}

#[test]
fn lines_with_ids(rt: HostRuntime) -> Result<(), Fail> {
    let entries = entries_of(rt.alloc(), &HEADINGS)?;
    let mut json = String::new(rt.alloc());
    push_outline_with_ids(&mut json, entries.as_slice())?;
    gives(
        "with ids",
        json.as_str(),
        "{\"level\":1,\"text\":\"A b\",\"range\":{\"start\":0,\"end\":8},\"id\":\"a-b\"}\n\
        {\"level\":2,\"text\":\"C\",\"range\":{\"start\":9,\"end\":14},\"id\":\"c\"}\n\
        {\"level\":4,\"text\":\"D\",\"range\":{\"start\":15,\"end\":22},\"id\":\"d\"}\n\
        {\"level\":3,\"text\":\"E\",\"range\":{\"start\":23,\"end\":29},\"id\":\"e\"}\n\
        {\"level\":1,\"text\":\"F\",\"range\":{\"start\":30,\"end\":47},\"id\":\"g(h)&amp;\"}\n\
        {\"level\":1,\"text\":\"\\\"\",\"range\":{\"start\":48,\"end\":52}}\n",
    )
}

#[test]
fn lines_without_ids(rt: HostRuntime) -> Result<(), Fail> {
    let entries = entries_of(rt.alloc(), &HEADINGS)?;
    let mut json = String::new(rt.alloc());
    push_outline(&mut json, entries.as_slice())?;
    gives(
        "without ids",
        json.as_str(),
        "{\"level\":1,\"text\":\"A b\",\"range\":{\"start\":0,\"end\":8}}\n\
        {\"level\":2,\"text\":\"C\",\"range\":{\"start\":9,\"end\":14}}\n\
        {\"level\":4,\"text\":\"D\",\"range\":{\"start\":15,\"end\":22}}\n\
        {\"level\":3,\"text\":\"E\",\"range\":{\"start\":23,\"end\":29}}\n\
        {\"level\":1,\"text\":\"F\",\"range\":{\"start\":30,\"end\":47}}\n\
        {\"level\":1,\"text\":\"\\\"\",\"range\":{\"start\":48,\"end\":52}}\n",
    )
}
