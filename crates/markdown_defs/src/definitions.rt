//! Link reference definitions, looked up by the case folding of their labels.
ghost use Rattle.std.specs.Prelude.{◌≡◌, IfErr, IfOk, OnOk, map};
ghost use Rattle.std.specs.Option.{option_copied};
ghost use Rattle.markdown_base.specs.declared.fault.Fault.{Fault};
ghost use Rattle.markdown_defs.specs.Definitions.{add_first, firsts, find_definition};
ghost use Rattle.markdown_defs.specs.DistinctDefinitions.{AreDistinct};
ghost use Rattle.markdown_defs.specs.DefinitionsIndex.{IsIndex};
ghost use Rattle.markdown_defs.specs.DefinitionsLeft.{definitions_left, with_text};

use super::folding::fold;
use markdown_base::block_parts::LinkDef;
use markdown_base::cow_str::CowStr;
use markdown_base::fault::Fault;
use std::alloc::Global;
use std::collections::BTreeMap;
use std::fmt;
use std::marker::Model;
use std::slice::Iter;

/// The link reference definitions of a text, looked up by the case folding of their labels (CommonMark 4.7, except that
/// white space in a key is not collapsed).
#[derive(Drop)]
pub struct RefDefs<'a> {
    /// The first definition of each folding, in the order of the source.
    definitions: Vec<(CowStr<'a>, LinkDef<'a>)>,
    /// The index of each by its folding, so that no stored label is folded again. The map is ordered, not hashed:
    /// labels that all have one hash would make every look-up go through all of them.
    by_folding: BTreeMap<String, usize>,
}

impl<'a> Model for RefDefs<'a> {
    ghost use Rattle.std.specs.Prelude.{List};
    ghost use Rattle.markdown_defs.specs.Definitions.{Labelled};
    ghost use Rattle.markdown_defs.specs.DistinctDefinitions.{AreDistinct};
    ghost use Rattle.markdown_defs.specs.DefinitionsIndex.{IsIndex};

    ghost Value = { List Labelled };

    ghost view = { λ r. r.definitions.items };

    ghost invariant = { λ r. IsIndex r.by_folding r.definitions.items
        × AreDistinct r.definitions.items };
}

impl<'a> RefDefs<'a> {
    /// Returns the definitions that can be found: the first of those with equal folding. The only error is
    /// `Fault::Memory`, in which case the definitions are dropped.
    #[tactic(auto, unfolding(crate::specs::Definitions::firsts))]
    pub(super) fn new(
        alloc: Global,
        definitions: Vec<(CowStr<'a>, LinkDef<'a>)>,
    ) -> Result<RefDefs<'a>, Fault>
        ensures kept { IfOk result (λ made. made ≡ firsts definitions.entry.items) }
        ensures refused { IfErr result (λ fault. fault ≡ Fault.Memory) }
    {
        let mut kept = Vec::new(alloc);
        let mut by_folding: BTreeMap<String, usize> = BTreeMap::new(alloc);
        for entry in definitions {
            keep_first(&mut kept, &mut by_folding, entry)?;
        }
        Ok(RefDefs {
            definitions: kept,
            by_folding,
        })
    }

    /// Returns the first definition whose label has the same folding as the key. The number of foldings that it is
    /// compared with grows as the logarithm of the number of definitions, whatever their labels. The only error is
    /// `Fault::Memory`.
    pub fn get(&self, key: &str) -> Result<Option<&LinkDef<'a>>, Fault>
        ensures found { IfOk result (λ found. option_copied found
            ≡ find_definition key.now self.now) }
        ensures refused { IfErr result (λ fault. fault ≡ Fault.Memory) }
    {
        let folded = fold(*self.definitions.allocator(), key)?;
        match self.by_folding.get(folded.as_str()) {
            None => Ok(None),
            Some(place) => Ok(Some(&self.definitions[*place].1)),
        }
    }

    /// Returns an iterator over the definitions that can be found, each once, with its label as written, in the order
    /// of the source. Allocates no memory.
    pub fn iter(&self) -> RefDefsIter<'_, 'a>
        ensures left { definitions_left result ≡ map with_text self.now }
        ensures once { AreDistinct self.now }
    {
        RefDefsIter {
            rest: self.definitions.iter(),
        }
    }
}

/// Writes the labels as they are written, with their definitions.
impl<'a> fmt::Debug for RefDefs<'a> {
    fn fmt<W: fmt::Write>(&self, f: &mut fmt::Formatter<W>) -> fmt::Result {
        fmt::Debug::fmt(&self.definitions, f)
    }
}

/// Keeps a definition, unless one of equal folding is kept already. The only error is `Fault::Memory`, after which the
/// index may contain a folding whose definition was not kept.
fn keep_first<'a>(
    kept: &mut Vec<(CowStr<'a>, LinkDef<'a>)>,
    by_folding: &mut BTreeMap<String, usize>,
    entry: (CowStr<'a>, LinkDef<'a>),
) -> Result<(), Fault>
    requires { IsIndex by_folding.old kept.old.items }
    ensures kept { OnOk result (kept.new.items ≡ add_first kept.old.items entry.entry) }
    ensures indexed { OnOk result (IsIndex by_folding.new kept.new.items) }
    ensures refused { IfErr result (λ fault. fault ≡ Fault.Memory) }
{
    let folded = fold(*kept.allocator(), entry.0.as_str())?;
    if by_folding.contains_key(folded.as_str()) {
        drop(entry);
        return Ok(());
    }
    by_folding.insert(folded, kept.len())?;
    kept.push(entry)?;
    Ok(())
}

/// An iterator over the definitions that can be found, each once, in the order of the source.
#[derive(Debug, Drop)]
pub struct RefDefsIter<'r, 'a> {
    rest: Iter<'r, (CowStr<'a>, LinkDef<'a>)>,
}

impl<'r, 'a> Iterator for RefDefsIter<'r, 'a> {
    ghost use Rattle.std.specs.Iterator.{YieldsFirstBy, item_count};
    ghost use Rattle.markdown_defs.specs.DefinitionsLeft.{definitions_left, values_of};

    type Item = (&'r str, &'r LinkDef<'a>);

    ghost next_gives = { YieldsFirstBy values_of definitions_left };

    ghost remaining = { item_count definitions_left };

    /// Returns the number of remaining definitions, as both bounds.
    fn size_hint(&self) -> (usize, Option<usize>) {
        self.rest.size_hint()
    }

    /// Returns the next label with its definition. Allocates no memory.
    fn next(&mut self) -> Option<(&'r str, &'r LinkDef<'a>)> {
        let (label, definition) = self.rest.next()?;
        Some((label.as_str(), definition))
    }
}
