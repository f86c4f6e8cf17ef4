//! Laws of the ids that are given. Each is a function without code, whose clauses state the law.
ghost use Rattle.markdown_heading_ids.specs.IdLaws.{GivenIdsAreAnchors, GivenIdsAreFree, GivenIdsAreNotEmpty};
ghost use Rattle.markdown_heading_ids.specs.IdLaws.{GivenIdsAreOfWords, GivenIdsArePlain, NoGivenIdIsEmpty};

/// States what holds of each id that is given: it is not among those that are taken, it is not empty where the empty id
/// is taken, and it is the anchor itself unless that is taken.
pub fn given_ids_are_free()
    ensures free { GivenIdsAreFree }
    ensures not_empty { GivenIdsAreNotEmpty }
    ensures anchor { GivenIdsAreAnchors }
{}

/// States what the ids that are given to the headings of any events are made of: characters that anchors keep, so that
/// they have no ASCII white space and need no escape in HTML; and none is empty where the empty id is taken.
pub fn given_ids_are_plain()
    ensures of_words { GivenIdsAreOfWords }
    ensures plain { GivenIdsArePlain }
    ensures not_empty { NoGivenIdIsEmpty }
{}
