//! Laws of raw HTML, in a reader's words: functions without code.
ghost use Rattle.markdown_raw_html.specs.RawHtmlLaws.{EndsAtFirstClose, TagStandsInAngleBrackets};

/// States that the first byte of an HTML tag is `<` and the last is `>`.
pub fn tag_stands_in_angle_brackets(bytes: &[u8])
    ensures { TagStandsInAngleBrackets bytes.now }
{}

/// States that raw HTML that ends with closing bytes ends with the first of these: they are its last bytes, and do not
/// occur earlier.
pub fn raw_html_ends_at_its_first_close(closing: &[u8], bytes: &[u8])
    ensures { EndsAtFirstClose closing.now bytes.now }
{}
