//! The extensions that the command line offers: those that have an effect by the full reading, and what is added to the
//! events of a text.
ghost use Rattle.std.specs.Prelude.{◌≡◌, map, option_map};
ghost use Rattle.std.specs.List.{list_any};
ghost use Rattle.markdown_tool_command.specs.Lists.{disables, enables};
ghost use Rattle.markdown_tool_command.specs.Extensions.{all_enabled, enabled_by, extensions, is_enabled, nothing_enabled};
ghost use Rattle.markdown_tool_command.specs.Extensions.{says_of, unknown_part, with_effect};
ghost use Rattle.markdown_tool_command.specs.ExtensionRows.{offered};

use crate::lists::{disables, enables};
use markdown_base::options::Options;

/// What enables an extension beside its own name.
#[derive(Clone, Copy, PartialEq, Eq, Drop)]
pub enum Enabler {
    /// `--all-extensions`, `--gfm` and `--full-page`.
    AllGfmAndPage,
    /// `--all-extensions` and `--gfm`.
    AllAndGfm,
    /// `--all-extensions`.
    All,
    /// Nothing.
    NameAlone,
}

/// The sets of extensions that are asked for.
#[derive(Clone, Copy, Debug, PartialEq, Eq, Drop)]
pub struct Sets {
    /// `--all-extensions` is given.
    pub all: bool,
    /// `--gfm` is given.
    pub gfm: bool,
    /// `--full-page` is given.
    pub page: bool,
}

/// What an extension enables.
#[derive(Clone, Copy, PartialEq, Eq, Drop)]
pub enum Effect {
    /// An option of the parser.
    Option(Options),
    /// Links of bare addresses.
    Autolinks,
    /// Ids of headings.
    HeadingIds,
}

/// What is enabled.
#[derive(Clone, Copy, Debug, PartialEq, Eq, Drop)]
pub struct Enabled {
    /// The options of the parser.
    pub options: Options,
    /// Whether bare addresses become links.
    pub autolinks: bool,
    /// Whether headings without an id get one.
    pub heading_ids: bool,
}

/// An extension that is offered.
#[derive(Drop)]
pub struct Extension {
    pub name: &'static str,
    pub effect: Effect,
    pub enabler: Enabler,
}

static EXTENSIONS: [Extension; 16] = [
    Extension {
        name: "alerts",
        effect: Effect::Option(Options::ENABLE_GFM),
        enabler: Enabler::AllAndGfm,
    },
    Extension {
        name: "autolinks",
        effect: Effect::Autolinks,
        enabler: Enabler::AllAndGfm,
    },
    Extension {
        name: "footnotes",
        effect: Effect::Option(Options::ENABLE_FOOTNOTES),
        enabler: Enabler::AllAndGfm,
    },
    Extension {
        name: "heading-attributes",
        effect: Effect::Option(Options::ENABLE_HEADING_ATTRIBUTES),
        enabler: Enabler::All,
    },
    Extension {
        name: "heading-ids",
        effect: Effect::HeadingIds,
        enabler: Enabler::AllGfmAndPage,
    },
    Extension {
        name: "math",
        effect: Effect::Option(Options::ENABLE_MATH),
        enabler: Enabler::All,
    },
    Extension {
        name: "old-footnotes",
        effect: Effect::Option(Options::ENABLE_OLD_FOOTNOTES),
        enabler: Enabler::NameAlone,
    },
    Extension {
        name: "pluses",
        effect: Effect::Option(Options::ENABLE_PLUSES_DELIMITED_METADATA_BLOCKS),
        enabler: Enabler::All,
    },
    Extension {
        name: "smart",
        effect: Effect::Option(Options::ENABLE_SMART_PUNCTUATION),
        enabler: Enabler::All,
    },
    Extension {
        name: "strikethrough",
        effect: Effect::Option(Options::ENABLE_STRIKETHROUGH),
        enabler: Enabler::AllAndGfm,
    },
    Extension {
        name: "subscript",
        effect: Effect::Option(Options::ENABLE_SUBSCRIPT),
        enabler: Enabler::All,
    },
    Extension {
        name: "superscript",
        effect: Effect::Option(Options::ENABLE_SUPERSCRIPT),
        enabler: Enabler::All,
    },
    Extension {
        name: "tables",
        effect: Effect::Option(Options::ENABLE_TABLES),
        enabler: Enabler::AllAndGfm,
    },
    Extension {
        name: "tasklists",
        effect: Effect::Option(Options::ENABLE_TASKLISTS),
        enabler: Enabler::AllAndGfm,
    },
    Extension {
        name: "wikilinks",
        effect: Effect::Option(Options::ENABLE_WIKILINKS),
        enabler: Enabler::All,
    },
    Extension {
        name: "yaml",
        effect: Effect::Option(Options::ENABLE_YAML_STYLE_METADATA_BLOCKS),
        enabler: Enabler::All,
    },
];

/// Returns the extensions that are offered.
#[tactic(auto, unfolding(crate::specs::Extensions::extensions))]
fn table() -> &'static [Extension]
    ensures { map offered result.now ≡ extensions }
{
    EXTENSIONS.as_slice()
}

/// Returns whether a part of a list enables or disables an extension that is offered.
fn is_known(part: &str) -> bool
    ensures { result ≡ says_of extensions part.now }
{
    let table = table();
    'rows: for row in table {
        if enables(row.name, part) || disables(row.name, part) {
            return true;
        }
    }
    false
}

/// Returns the first part that neither enables nor disables an extension that is offered, if there is one.
pub fn unknown_part<'a>(parts: &[&'a str]) -> Option<&'a str>
    ensures { option_map (λ part. part.now) result
        ≡ unknown_part (map (λ part. part.now) parts.now) }
{
    'parts: for part in parts {
        if !is_known(part) {
            return Some(part);
        }
    }
    None
}

/// Returns whether one of the sets has an extension.
fn enabled_by(sets: Sets, enabler: Enabler) -> bool
    ensures { result ≡ enabled_by sets enabler }
{
    match enabler {
        Enabler::AllGfmAndPage => sets.all || sets.gfm || sets.page,
        Enabler::AllAndGfm => sets.all || sets.gfm,
        Enabler::All => sets.all,
        Enabler::NameAlone => false,
    }
}

/// Returns whether one of the parts enables the extension of this name.
fn is_named(name: &str, parts: &[&str]) -> bool
    ensures { result ≡ list_any (enables name.now) (map (λ part. part.now) parts.now) }
{
    'parts: for part in parts {
        if enables(name, part) {
            return true;
        }
    }
    false
}

/// Returns whether one of the parts disables the extension of this name.
fn is_disabled(name: &str, parts: &[&str]) -> bool
    ensures { result ≡ list_any (disables name.now) (map (λ part. part.now) parts.now) }
{
    'parts: for part in parts {
        if disables(name, part) {
            return true;
        }
    }
    false
}

/// Returns whether an extension is enabled.
fn is_enabled(row: &Extension, sets: Sets, parts: &[&str]) -> bool
    ensures { result ≡ is_enabled sets (map (λ part. part.now) parts.now) (offered row.now) }
{
    (enabled_by(sets, row.enabler) || is_named(row.name, parts)) && !is_disabled(row.name, parts)
}

impl Enabled {
    /// Returns that nothing is enabled.
    fn nothing() -> Enabled
        ensures { result ≡ nothing_enabled }
    {
        Enabled {
            options: Options::empty(),
            autolinks: false,
            heading_ids: false,
        }
    }

    /// Returns what is enabled with one effect more.
    fn with(self, effect: Effect) -> Enabled
        ensures { result ≡ with_effect effect self }
    {
        let mut enabled = self;
        match effect {
            Effect::Option(option) => enabled.options = enabled.options.union(option),
            Effect::Autolinks => enabled.autolinks = true,
            Effect::HeadingIds => enabled.heading_ids = true,
        }
        enabled
    }
}

/// Returns what the extensions enable that are enabled: those of the sets and those that a part enables, but those that
/// a part disables.
pub fn all_enabled(sets: Sets, parts: &[&str]) -> Enabled
    ensures { result ≡ all_enabled sets (map (λ part. part.now) parts.now) }
{
    let mut enabled = Enabled::nothing();
    let table = table();
    'rows: for row in table {
        if is_enabled(row, sets, parts) {
            enabled = enabled.with(row.effect);
        }
    }
    enabled
}
