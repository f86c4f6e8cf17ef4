//! What is read of a text beside CommonMark.
ghost use Rattle.std.specs.Prelude.{◌≡◌};
ghost use Rattle.markdown_base.specs.Syntax as spec;

use crate::options::Options;
use crate::tag::MetadataBlockKind;

/// What is read of a text beside CommonMark. It is made of a caller's options once, where a text comes in: below that
/// nothing asks which options there were, nor by which call the text came.
#[derive(Clone, Copy, Debug)]
pub struct Syntax {
    /// `~` or `~~`.
    pub strikethrough: bool,
    /// `^`.
    pub superscript: bool,
    /// `~`.
    pub subscript: bool,
    /// Curly quotation marks.
    pub quotes: bool,
    /// Math, in `$` and `$$`.
    pub math: bool,
    /// Wikilinks.
    pub wikilinks: bool,
    /// Footnotes, in one style or the other.
    pub footnotes: bool,
    /// That style is the old one.
    pub old_footnotes: bool,
    /// Tables.
    pub tables: bool,
    /// `[ ]` and `[x]` at the beginning of an item.
    pub tasks: bool,
    /// GitHub's kinds of block quotes.
    pub alerts: bool,
    /// Ids, classes and attributes after a heading.
    pub attributes: bool,
    /// Metadata between lines of `---`.
    pub yaml: bool,
    /// Metadata between lines of `+++`.
    pub pluses: bool,
    /// Dashes for `--` and `---`, and an ellipsis for `...`.
    pub dashes: bool,
    /// All of HTML's names of entities, not four alone.
    pub entities: bool,
    /// Addresses between `<` and `>`.
    pub addresses: bool,
}

impl Syntax {
    /// Returns what the profile reads by these options: of blocks only footnotes.
    pub fn profile(options: Options) -> Syntax
        ensures { result ≡ spec.profile_syntax options }
    {
        Syntax {
            strikethrough: options.contains(Options::ENABLE_STRIKETHROUGH),
            superscript: options.contains(Options::ENABLE_SUPERSCRIPT),
            subscript: options.contains(Options::ENABLE_SUBSCRIPT),
            quotes: options.contains(Options::ENABLE_SMART_PUNCTUATION),
            math: options.contains(Options::ENABLE_MATH),
            wikilinks: options.contains(Options::ENABLE_WIKILINKS),
            footnotes: options.contains(Options::ENABLE_FOOTNOTES),
            old_footnotes: options.contains(Options::ENABLE_OLD_FOOTNOTES),
            tables: false,
            tasks: false,
            alerts: false,
            attributes: false,
            yaml: false,
            pluses: false,
            dashes: false,
            entities: false,
            addresses: false,
        }
    }

    /// Returns all that these options ask for, and HTML's entities, addresses, and dashes with quotation marks.
    pub fn full(options: Options) -> Syntax
        ensures { result ≡ spec.full_syntax options }
    {
        Syntax {
            tables: options.contains(Options::ENABLE_TABLES),
            tasks: options.contains(Options::ENABLE_TASKLISTS),
            alerts: options.contains(Options::ENABLE_GFM),
            attributes: options.contains(Options::ENABLE_HEADING_ATTRIBUTES),
            yaml: options.contains(Options::ENABLE_YAML_STYLE_METADATA_BLOCKS),
            pluses: options.contains(Options::ENABLE_PLUSES_DELIMITED_METADATA_BLOCKS),
            dashes: options.contains(Options::ENABLE_SMART_PUNCTUATION),
            entities: true,
            addresses: true,
            ..Syntax::profile(options)
        }
    }

    /// Returns whether footnotes are read in GitHub's style.
    pub fn gfm_footnotes(self) -> bool
        ensures { result ≡ spec.gfm_footnotes self }
    {
        self.footnotes && !self.old_footnotes
    }

    /// Returns whether metadata of a kind is read.
    pub fn reads_metadata(self, kind: MetadataBlockKind) -> bool
        ensures { result ≡ spec.reads_metadata self kind }
    {
        match kind {
            MetadataBlockKind::YamlStyle => self.yaml,
            MetadataBlockKind::PlusesStyle => self.pluses,
        }
    }

    /// Returns whether metadata of one kind or the other is read.
    pub fn any_metadata(self) -> bool
        ensures { result ≡ spec.any_metadata self }
    {
        self.yaml || self.pluses
    }
}
