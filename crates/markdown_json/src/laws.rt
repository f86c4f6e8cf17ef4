//! Laws of the definitions that this crate's contracts cite: functions without code, whose clauses state them.
ghost use Rattle.markdown_json.specs.JsonLaws.{ReadsBack};

/// States that the string of a text reads back as that text.
pub fn a_string_reads_back()
    ensures { ReadsBack }
{}
