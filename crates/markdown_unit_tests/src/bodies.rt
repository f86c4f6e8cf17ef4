//! Tags with their ends, the kinds of item bodies, and the bits of the options.
use bitflags::Flags;
use markdown_base::cow_str::CowStr;
use markdown_base::fault::Fault;
use markdown_base::index::{AlignmentIndex, CowIndex, HeadingIndex, LinkIndex};
use markdown_base::item::ItemBody;
use markdown_base::options::Options;
use markdown_base::tag::{
    Alignment, BlockQuoteKind, CodeBlockKind, HeadingLevel, LinkType, MetadataBlockKind, Tag,
    TagEnd,
};
use markdown_test_helpers::rows::gives;
use std::alloc::AllocError;
use std::test::Fail;

/// Returns whether a tag has this end.
fn ends_with(tag: Tag<'_>, end: TagEnd) -> bool {
    let found = tag.to_end();
    drop(tag);
    found == end
}

#[test]
fn each_block_has_its_end(rt: HostRuntime) -> Result<(), Fail> {
    let alloc = rt.alloc();
    let heading = ends_with(
        Tag::Heading {
            level: HeadingLevel::H2,
            id: None,
            classes: Vec::new(alloc),
            attrs: Vec::new(alloc),
        },
        TagEnd::Heading(HeadingLevel::H2),
    );
    let tip = Some(BlockQuoteKind::Tip);
    let yaml = MetadataBlockKind::YamlStyle;
    let fenced = CodeBlockKind::Fenced(CowStr::Borrowed("c"));
    let ended = [
        heading,
        ends_with(Tag::Paragraph, TagEnd::Paragraph),
        ends_with(Tag::BlockQuote(tip), TagEnd::BlockQuote(tip)),
        ends_with(Tag::CodeBlock(CodeBlockKind::Indented), TagEnd::CodeBlock),
        ends_with(Tag::CodeBlock(fenced), TagEnd::CodeBlock),
        ends_with(Tag::HtmlBlock, TagEnd::HtmlBlock),
        ends_with(Tag::List(Some(3)), TagEnd::List(true)),
        ends_with(Tag::List(None), TagEnd::List(false)),
        ends_with(Tag::Item, TagEnd::Item),
        ends_with(
            Tag::FootnoteDefinition(CowStr::Borrowed("n")),
            TagEnd::FootnoteDefinition,
        ),
        ends_with(Tag::DefinitionList, TagEnd::DefinitionList),
        ends_with(Tag::DefinitionListTitle, TagEnd::DefinitionListTitle),
        ends_with(
            Tag::DefinitionListDefinition,
            TagEnd::DefinitionListDefinition,
        ),
        ends_with(Tag::MetadataBlock(yaml), TagEnd::MetadataBlock(yaml)),
    ];
    gives("ends", ended, [true; 14])
}

#[test]
fn each_other_start_has_its_end(rt: HostRuntime) -> Result<(), Fail> {
    let alignments = vec![in rt.alloc(); Alignment::Left, Alignment::None]?;
    let link = Tag::Link {
        link_type: LinkType::WikiLink { has_pothole: true },
        dest_url: CowStr::Borrowed("d"),
        title: CowStr::Borrowed(""),
        id: CowStr::Borrowed(""),
    };
    let image = Tag::Image {
        link_type: LinkType::Inline,
        dest_url: CowStr::Borrowed("d"),
        title: CowStr::Borrowed(""),
        id: CowStr::Borrowed(""),
    };
    let ended = [
        ends_with(Tag::Table(alignments), TagEnd::Table),
        ends_with(link, TagEnd::Link),
        ends_with(image, TagEnd::Image),
        ends_with(Tag::TableHead, TagEnd::TableHead),
        ends_with(Tag::TableRow, TagEnd::TableRow),
        ends_with(Tag::TableCell, TagEnd::TableCell),
        ends_with(Tag::Emphasis, TagEnd::Emphasis),
        ends_with(Tag::Strong, TagEnd::Strong),
        ends_with(Tag::Strikethrough, TagEnd::Strikethrough),
        ends_with(Tag::Superscript, TagEnd::Superscript),
        ends_with(Tag::Subscript, TagEnd::Subscript),
    ];
    gives("ends", ended, [true; 11])
}

#[test]
fn levels_have_numbers_and_an_order() -> Result<(), Fail> {
    let numbers = [
        HeadingLevel::H1 as usize,
        HeadingLevel::H2 as usize,
        HeadingLevel::H3 as usize,
        HeadingLevel::H4 as usize,
        HeadingLevel::H5 as usize,
        HeadingLevel::H6 as usize,
    ];
    gives("numbers", numbers, [1, 2, 3, 4, 5, 6])?;
    gives("order", HeadingLevel::H2 < HeadingLevel::H6, true)
}

#[test]
fn options_have_upstream_bits() -> Result<(), Fail> {
    let mut options = Options::ENABLE_TABLES;
    let one = options.bits();
    options.insert(Options::ENABLE_OLD_FOOTNOTES);
    let bits = [
        one,
        options.bits(),
        Options::ENABLE_WIKILINKS.bits(),
        Options::from_bits_retain(4).bits(),
    ];
    gives("bits", bits, [2, 518, 32768, 4])?;
    let has_footnotes = options.contains(Options::ENABLE_FOOTNOTES);
    gives("old footnotes are footnotes", has_footnotes, true)
}

#[test]
fn each_option_has_its_bit() -> Result<(), Fail> {
    let bits = [
        Options::ENABLE_TABLES.bits(),
        Options::ENABLE_FOOTNOTES.bits(),
        Options::ENABLE_STRIKETHROUGH.bits(),
        Options::ENABLE_TASKLISTS.bits(),
        Options::ENABLE_SMART_PUNCTUATION.bits(),
        Options::ENABLE_HEADING_ATTRIBUTES.bits(),
        Options::ENABLE_YAML_STYLE_METADATA_BLOCKS.bits(),
        Options::ENABLE_PLUSES_DELIMITED_METADATA_BLOCKS.bits(),
        Options::ENABLE_OLD_FOOTNOTES.bits(),
        Options::ENABLE_MATH.bits(),
        Options::ENABLE_GFM.bits(),
        Options::ENABLE_DEFINITION_LIST.bits(),
        Options::ENABLE_SUPERSCRIPT.bits(),
        Options::ENABLE_SUBSCRIPT.bits(),
        Options::ENABLE_WIKILINKS.bits(),
    ];
    let wanted = [
        2, 4, 8, 16, 32, 64, 128, 256, 516, 1024, 2048, 4096, 8192, 16384, 32768,
    ];
    gives("bits", bits, wanted)
}

#[test]
fn bodies_are_of_kinds() -> Result<(), Fail> {
    let heading = ItemBody::Heading(HeadingLevel::H1, Some(HeadingIndex(1)));
    let [code, other_code] = [ItemBody::Code(CowIndex(3)), ItemBody::Code(CowIndex(2))];
    let link = ItemBody::Link(LinkIndex(0));
    let kinds = [
        ItemBody::MaybeLinkOpen.is_open(),
        ItemBody::SoftBreak.is_inline(),
        ItemBody::Rule.is_childless(),
        link.is_resolved(),
        ItemBody::TightParagraph.is_tight_paragraph(),
        ItemBody::Root.is_unplaced(),
        link == ItemBody::Link(LinkIndex(0)),
        Fault::from(AllocError) == Fault::Memory,
    ];
    gives("what is so", kinds, [true; 8])?;
    let other_kinds = [
        ItemBody::SoftBreak.is_open(),
        ItemBody::Rule.is_inline(),
        code == other_code,
        heading == ItemBody::Heading(HeadingLevel::H1, None),
    ];
    gives("what is not so", other_kinds, [false; 4])?;
    let table = ItemBody::Table(AlignmentIndex(2));
    gives("a text", code.text_named(), Some(CowIndex(3)))?;
    gives(
        "alignments",
        table.alignments_named(),
        Some(AlignmentIndex(2)),
    )?;
    gives(
        "attributes",
        heading.attributes_named(),
        Some(HeadingIndex(1)),
    )
}
