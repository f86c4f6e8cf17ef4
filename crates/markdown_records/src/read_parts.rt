//! The texts of groups and of their parts.
ghost use Rattle.markdown_base.specs.CowText.{text_of};
ghost use Rattle.markdown_records.specs.Decoded.{first_part, of_text, title_and_label};
ghost use Rattle.markdown_records.specs.GroupOf.{group_view};
ghost use Rattle.markdown_records.specs.ReadOf.{both_words, part_and_rest};
ghost use Rattle.markdown_records.specs.ReadResult.{Finds};
ghost use Rattle.markdown_records.specs.RecordView.{records_in};

use crate::groups::Group;
use crate::numbers;
use crate::record::take_record;
use crate::texts::Texts;
use markdown_base::cow_str::CowStr;

impl<'a> Texts<'a> {
    /// Returns the text of a group without parts whose detail is 0.
    pub fn lone_text(&self, group: &Group<'a>) -> Option<CowStr<'a>>
        ensures { Finds text_of
            (of_text self.now.source.now self.now.pool.now (group_view group.now) (λ text. text))
            result }
    {
        if !group.is_lone() {
            return None;
        }
        self.cow_of(&group.head)
    }

    /// Returns the text of the first part, if it is of this kind, or else an empty one; and the
    /// parts after it.
    pub fn first_part(&self, kind: u8, parts: &'a [u8]) -> Option<(&'a str, &'a [u8])>
        ensures { Finds part_and_rest
            (first_part self.now.source.now self.now.pool.now kind (records_in parts.entry.now))
            result }
    {
        match take_record(parts) {
            Some((part, rest)) if part.kind == kind => Some((self.text_of(&part)?, rest)),
            _ => Some(("", parts)),
        }
    }

    /// Returns a title and a label, each of which may be missing.
    pub fn title_and_label(&self, parts: &'a [u8]) -> Option<(&'a str, &'a str)>
        ensures { Finds both_words
            (title_and_label self.now.source.now self.now.pool.now (records_in parts.entry.now))
            result }
    {
        let (title, others) = self.first_part(numbers::TITLE, parts)?;
        let (label, rest) = self.first_part(numbers::LABEL, others)?;
        match take_record(rest) {
            None => Some((title, label)),
            Some(_) => None,
        }
    }
}
