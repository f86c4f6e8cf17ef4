//! The words of the program's command line, each of which enables an option.
ghost use Rattle.std.specs.Prelude.{◌≡◌, IfOk, IfErr, map, Some, None, string_bytes};
ghost use Rattle.markdown_base.specs.EnabledOptions.{no_options};
ghost use Rattle.markdown_render.specs.Words.{option_of, turned_on};

use markdown_base::options::Options;

/// Returns the option that a word enables, or `None` where the word is unknown.
fn option_of(word: &str) -> Option<Options>
    ensures { result ≡ option_of word.now }
{
    Some(match word {
        "tables" => Options::ENABLE_TABLES,
        "footnotes" => Options::ENABLE_FOOTNOTES,
        "old-footnotes" => Options::ENABLE_OLD_FOOTNOTES,
        "strikethrough" => Options::ENABLE_STRIKETHROUGH,
        "tasklists" => Options::ENABLE_TASKLISTS,
        "smart" => Options::ENABLE_SMART_PUNCTUATION,
        "heading-attributes" => Options::ENABLE_HEADING_ATTRIBUTES,
        "yaml" => Options::ENABLE_YAML_STYLE_METADATA_BLOCKS,
        "pluses" => Options::ENABLE_PLUSES_DELIMITED_METADATA_BLOCKS,
        "math" => Options::ENABLE_MATH,
        "gfm" => Options::ENABLE_GFM,
        "definitions" => Options::ENABLE_DEFINITION_LIST,
        "superscript" => Options::ENABLE_SUPERSCRIPT,
        "subscript" => Options::ENABLE_SUBSCRIPT,
        "wikilinks" => Options::ENABLE_WIKILINKS,
        _ => return None,
    })
}

/// Returns the options that the words enable. Words may repeat.
///
/// # Errors
///
/// The first word that is unknown.
pub fn options_of(words: &[String]) -> Result<Options, &String>
    ensures state { IfOk result (λ options. turned_on (map string_bytes words.now) no_options
        ≡ Some options) }
    ensures unknown { IfErr result (λ word. turned_on (map string_bytes words.now) no_options
        ≡ None) }
{
    let mut options = Options::empty();
    'words: for word in words {
        match option_of(word.as_str()) {
            Some(option) => options = options.union(option),
            None => return Err(word),
        }
    }
    Ok(options)
}
