//! A link checker: the destinations of a text's links and images, and the number of its undefined link
//! labels.
ghost use Rattle.std.specs.Prelude.{◌≡◌, IfOk, IfErr, map};
ghost use Rattle.std.specs.Option.{option_map};
ghost use Rattle.markdown.specs.EventWords.{event_view, tag_view, text_of};
ghost use Rattle.markdown_callers.specs.LinkChecker.{CountsQuestions, links_in};
ghost use Rattle.markdown_callers.specs.LinkChecker.{event_target, link_target, tag_destination};

use markdown::{BrokenLink, BrokenLinkCallback, CowStr, Event, Fault, Options, Parser, Tag};
use std::alloc::Global;
use std::ops::Range;

/// A link or an image.
#[derive(Debug, Drop)]
pub struct FoundLink<'a> {
    pub destination: CowStr<'a>,
    /// The source range.
    pub range: Range<usize>,
}

/// Returns the destination of a tag, if it is a link or an image.
fn destination_of<'a>(tag: Tag<'a>) -> Option<CowStr<'a>>
    ensures { option_map text_of result ≡ tag_destination (tag_view tag.entry) }
{
    match tag {
        Tag::Link { dest_url, .. } => Some(dest_url),
        Tag::Image { dest_url, .. } => Some(dest_url),
        _ => None,
    }
}

/// Returns the link or image that begins with an event, if one does.
fn link_at<'a>(event: Event<'a>, range: Range<usize>) -> Option<FoundLink<'a>>
    ensures { option_map link_target result ≡ event_target (event_view event.entry, range) }
{
    let tag = match event {
        Event::Start(tag) => tag,
        _ => return None,
    };
    match destination_of(tag) {
        Some(destination) => Some(FoundLink { destination, range }),
        None => None,
    }
}

/// Returns the links and images of a text, in the order in which they begin. The only error is
/// `Fault::Memory`.
pub fn links<'a>(alloc: Global, source: &'a str) -> Result<Vec<FoundLink<'a>>, Fault>
    ensures links { IfOk result (λ links.
        map link_target links.items ≡ links_in source.entry.now) }
    ensures refused { IfErr result (λ fault. fault ≡ Fault.Memory) }
{
    let parser = Parser::new(alloc, source)?;
    let (events, _) = parser.into_offset_iter().into_events()?;
    let mut links = Vec::new(alloc);
    for (event, range) in events {
        if let Some(link) = link_at(event, range) {
            links.push(link)?;
        }
    }
    Ok(links)
}

/// A callback that counts the undefined link labels and returns no destination for any of them.
#[derive(Drop)]
struct UndefinedLabels {
    count: u64,
}

impl<'a> BrokenLinkCallback<'a> for UndefinedLabels {
    ghost use Rattle.markdown_callers.specs.LinkChecker.{CountsQuestion};

    ghost can_ask = { λ _. Unit {0} };

    ghost answers = { CountsQuestion };

    fn handle_broken_link(&mut self, link: BrokenLink<'a>) -> Option<(CowStr<'a>, CowStr<'a>)> {
        drop(link);
        self.count = self.count.saturating_add(1);
        None
    }
}

/// Returns the number of references of a text that have an undefined link label. The only error is
/// `Fault::Memory`.
pub fn count_undefined(alloc: Global, source: &str) -> Result<u64, Fault>
    ensures count { IfOk result (λ count. CountsQuestions source.now count) }
    ensures refused { IfErr result (λ fault. fault ≡ Fault.Memory) }
{
    let parser = Parser::new_with_broken_link_callback(
        alloc,
        source,
        Options::empty(),
        Some(UndefinedLabels { count: 0 }),
    )?;
    let (events, callback) = parser.into_offset_iter().into_events()?;
    drop(events);
    match callback {
        Some(undefined) => Ok(undefined.count),
        None => Ok(0),
    }
}

/// Returns a line for each link and image, and then the number of undefined link labels. The only error is
/// `Fault::Memory`.
pub fn report(alloc: Global, source: &str) -> Result<String, Fault>
    ensures refused { IfErr result (λ fault. fault ≡ Fault.Memory) }
{
    let mut lines = String::new(alloc);
    for link in &links(alloc, source)? {
        let line = format!(in alloc;
            "{}..{} leads to {}\n",
            link.range.start,
            link.range.end,
            link.destination.as_str()
        )?;
        lines.push_str(line.as_str())?;
    }
    let undefined = count_undefined(alloc, source)?;
    let line = format!(in alloc; "undefined labels: {undefined}\n")?;
    lines.push_str(line.as_str())?;
    Ok(lines)
}
