//! Extensions of CommonMark, as a set of options.
ghost use Rattle.std.specs.Prelude.{⊤, [], ◌∷◌, codes};

use bitflags::{Flag, Flags, bitflag_items};

/// A set of extensions, with upstream's bits.
#[derive(Clone, Copy, PartialEq, Eq, Debug)]
pub struct Options(u32);

bitflag_items! {
    impl Options: u32 {
        /// Tables, by the full reading.
        const ENABLE_TABLES = 1 << 1;
        /// Footnotes: definitions `[^name]: ..` and references `[^name]`. A reference to an undefined name remains
        /// text.
        const ENABLE_FOOTNOTES = 1 << 2;
        /// Strikethrough, `~text~` or `~~text~~`.
        const ENABLE_STRIKETHROUGH = 1 << 3;
        /// List items that begin with `[ ]` or `[x]`, by the full reading.
        const ENABLE_TASKLISTS = 1 << 4;
        /// Curly quotation marks, and by the full reading dashes for `--` and `---`, and an ellipsis for `...`.
        const ENABLE_SMART_PUNCTUATION = 1 << 5;
        /// An id, classes and attributes in braces after a heading, by the full reading. Their names are the author's:
        /// `onclick` is one.
        const ENABLE_HEADING_ATTRIBUTES = 1 << 6;
        /// Metadata between lines of `---`, by the full reading.
        const ENABLE_YAML_STYLE_METADATA_BLOCKS = 1 << 7;
        /// Metadata between lines of `+++`, by the full reading.
        const ENABLE_PLUSES_DELIMITED_METADATA_BLOCKS = 1 << 8;
        /// Footnotes of the old style, in which a reference needs no definition. Includes the bit of
        /// `ENABLE_FOOTNOTES`.
        const ENABLE_OLD_FOOTNOTES = (1 << 9) | (1 << 2);
        /// Math, `$text$`, and display math, `$$text$$`.
        const ENABLE_MATH = 1 << 10;
        /// GitHub's kinds of block quotes, such as `[!NOTE]`, by the full reading.
        const ENABLE_GFM = 1 << 11;
        /// Definition lists. No text is read with any yet, so this has no effect.
        const ENABLE_DEFINITION_LIST = 1 << 12;
        /// Superscript, `^text^`.
        const ENABLE_SUPERSCRIPT = 1 << 13;
        /// Subscript, `~text~`; with `ENABLE_STRIKETHROUGH` only `~~text~~` is strikethrough.
        const ENABLE_SUBSCRIPT = 1 << 14;
        /// Wikilinks, `[[name]]` and `[[name|text]]`.
        const ENABLE_WIKILINKS = 1 << 15;
    }
}

/// The functions of `Flags` that callers need most, so that they need not import the trait.
impl Options {
    ghost use Rattle.std.specs.Prelude.{◌≡◌};
    ghost use Rattle.markdown_base.specs.EnabledOptions.{both_options, is_on, no_options};

    /// Returns the empty set.
    pub fn empty() -> Options
        ensures { result ≡ no_options }
    {
        Options(0)
    }

    /// Returns whether this set contains all bits of another set.
    pub fn contains(&self, other: Options) -> bool
        ensures { result ≡ is_on other self.now }
    {
        Flags::contains(self, other)
    }

    /// Returns the options of both sets.
    pub fn union(self, other: Options) -> Options
        ensures { result ≡ both_options self other }
    {
        Options(self.0 | other.0)
    }
}

impl Flags for Options {
    ghost use Rattle.markdown_base.specs.declared.options.TheConstants.Options.{
      ENABLE_TABLES,
      ENABLE_FOOTNOTES,
      ENABLE_STRIKETHROUGH,
      ENABLE_TASKLISTS,
      ENABLE_SMART_PUNCTUATION,
      ENABLE_HEADING_ATTRIBUTES,
      ENABLE_YAML_STYLE_METADATA_BLOCKS,
      ENABLE_PLUSES_DELIMITED_METADATA_BLOCKS,
      ENABLE_OLD_FOOTNOTES,
      ENABLE_MATH,
      ENABLE_GFM,
      ENABLE_DEFINITION_LIST,
      ENABLE_SUPERSCRIPT,
      ENABLE_SUBSCRIPT,
      ENABLE_WIKILINKS,
    };

    type Bits = u32;

    ghost exact = { ⊤ };

    ghost table = { (codes "ENABLE_TABLES", ENABLE_TABLES.0)
        ∷ (codes "ENABLE_FOOTNOTES", ENABLE_FOOTNOTES.0)
        ∷ (codes "ENABLE_STRIKETHROUGH", ENABLE_STRIKETHROUGH.0)
        ∷ (codes "ENABLE_TASKLISTS", ENABLE_TASKLISTS.0)
        ∷ (codes "ENABLE_SMART_PUNCTUATION", ENABLE_SMART_PUNCTUATION.0)
        ∷ (codes "ENABLE_HEADING_ATTRIBUTES", ENABLE_HEADING_ATTRIBUTES.0)
        ∷ (codes "ENABLE_YAML_STYLE_METADATA_BLOCKS", ENABLE_YAML_STYLE_METADATA_BLOCKS.0)
        ∷ (codes "ENABLE_PLUSES_DELIMITED_METADATA_BLOCKS", ENABLE_PLUSES_DELIMITED_METADATA_BLOCKS.0)
        ∷ (codes "ENABLE_OLD_FOOTNOTES", ENABLE_OLD_FOOTNOTES.0)
        ∷ (codes "ENABLE_MATH", ENABLE_MATH.0)
        ∷ (codes "ENABLE_GFM", ENABLE_GFM.0)
        ∷ (codes "ENABLE_DEFINITION_LIST", ENABLE_DEFINITION_LIST.0)
        ∷ (codes "ENABLE_SUPERSCRIPT", ENABLE_SUPERSCRIPT.0)
        ∷ (codes "ENABLE_SUBSCRIPT", ENABLE_SUBSCRIPT.0)
        ∷ (codes "ENABLE_WIKILINKS", ENABLE_WIKILINKS.0)
        ∷ [] };

    ghost set_of = { λ options. options.0 };

    fn flags<'a>() -> &'a [Flag<Options>] {
        Options::FLAGS
    }

    fn bits(&self) -> u32 {
        self.0
    }

    fn from_bits_retain(bits: u32) -> Options {
        Options(bits)
    }
}
