//! The names of footnotes, numbered in the order of their first occurrence. They are kept in an ordered map, so that no
//! choice of names makes a look-up slow.
ghost use Rattle.std.specs.Prelude.{◌≡◌, ◌+◌, [], IfOk, OnOk};
ghost use Rattle.markdown_base.specs.CowText.{text_of};
ghost use Rattle.markdown_out.specs.LookBacks.{place, with_name};

use markdown_base::cow_str::CowStr;
use std::alloc::{AllocError, Global};
use std::cmp::Ordering;
use std::collections::BTreeMap;
use std::collections::btree_map::Entry;
use std::marker::Model;

/// The name of a footnote, ordered by its bytes.
#[derive(Drop)]
pub(super) struct Name<'a> {
    pub text: CowStr<'a>,
}

impl<'a> PartialEq for Name<'a> {
    ghost use Rattle.std.specs.Cmp.{on_per, partial_equiv_from_equiv};
    ghost use Rattle.std.specs.Cmp.Lexicographic.{pointwise, nat_list_eq_equiv};
    ghost use Rattle.std.specs.Prelude.{nat_eq};

    ghost eq = { λ x y. pointwise nat_eq (text_of x.text) (text_of y.text) };

    ghost laws = { on_per (λ x. text_of x.text) (partial_equiv_from_equiv nat_list_eq_equiv) };

    fn eq(&self, other: &Name<'a>) -> bool {
        self.text.as_str() == other.text.as_str()
    }
}

impl<'a> Eq for Name<'a> {
    ghost use Rattle.std.specs.Cmp.{on_equiv};
    ghost use Rattle.std.specs.Cmp.Lexicographic.{nat_list_eq_equiv};

    ghost laws = { on_equiv (λ x. text_of x.text) nat_list_eq_equiv };
}

impl<'a> PartialOrd for Name<'a> {
    ghost use Rattle.std.specs.Prelude.{Some};
    ghost use Rattle.std.specs.Ordering.{nat_cmp};
    ghost use Rattle.std.specs.Cmp.{on_po};
    ghost use Rattle.std.specs.Cmp.Lexicographic.{slice_cmp, texts_po};

    ghost partial_cmp = { λ x y. Some (slice_cmp nat_cmp (text_of x.text) (text_of y.text)) };

    ghost laws = { on_po (λ x. text_of x.text) texts_po };

    fn partial_cmp(&self, other: &Name<'a>) -> Option<Ordering> {
        Some(self.cmp(other))
    }
}

impl<'a> Ord for Name<'a> {
    ghost use Rattle.std.specs.Prelude.{refl};
    ghost use Rattle.std.specs.Ordering.{nat_cmp};
    ghost use Rattle.std.specs.Cmp.{on_total};
    ghost use Rattle.std.specs.Cmp.Lexicographic.{slice_cmp, nat_list_cmp_total, texts_ties};

    ghost cmp = { λ x y. slice_cmp nat_cmp (text_of x.text) (text_of y.text) };

    ghost total = { on_total (λ x. text_of x.text) nat_list_cmp_total };

    ghost matches_partial_cmp = { λ x y. refl };

    ghost matches_eq = { λ x y. texts_ties (text_of x.text) (text_of y.text) };

    fn cmp(&self, other: &Name<'a>) -> Ordering {
        self.text.as_str().cmp(other.text.as_str())
    }
}

/// The names so far, each with its position, from 0.
#[derive(Drop)]
pub(super) struct FootnoteNames<'a> {
    places: BTreeMap<Name<'a>, usize>,
}

impl<'a> Model for FootnoteNames<'a> {
    ghost use Rattle.std.specs.Prelude.{List, ℕ};
    ghost use Rattle.markdown_out.specs.FootnoteNames.{IsNumbered, names_in};

    ghost Value = { List (List ℕ) };

    ghost view = { λ n. names_in n.places.entries };

    ghost invariant = { λ n. IsNumbered n.places.entries };
}

impl<'a> FootnoteNames<'a> {
    /// Returns an empty set of names.
    pub(super) fn new(alloc: Global) -> Self
        ensures { result ≡ [] }
    {
        FootnoteNames {
            places: BTreeMap::new(alloc),
        }
    }

    /// Returns the number of a name, which is one more than its position; a new name is added after the others. The map
    /// is searched once.
    pub(super) fn number_of(&mut self, name: Name<'a>) -> Result<usize, AllocError>
        ensures number { IfOk result (λ number. number
            ≡ place (text_of name.entry.text) self.old + 1) }
        ensures known { OnOk result (self.new ≡ with_name (text_of name.entry.text) self.old) }
    {
        let count = self.places.len();
        match self.places.entry(name)? {
            Entry::Occupied(known) => Ok(*known.into_mut() + 1),
            Entry::Vacant(unknown) => {
                unknown.insert(count);
                Ok(count + 1)
            }
        }
    }
}
