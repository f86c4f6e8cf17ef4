//! Numbers that were seen, in a table of flags.
ghost use Rattle.std.specs.Prelude.{◌≡◌, ◌↔◌, IsTrue, true, false, slice_index_or, slice_set};
ghost use Rattle.std.specs.Bool.{OnTrue, OnFalse};

/// Inserts a number among those seen, and returns whether it is in the table and was not seen before.
pub fn insert(seen: &mut Vec<bool>, ix: usize) -> bool
    ensures unseen { IsTrue result ↔ (slice_index_or seen.old.items ix true ≡ false) }
    ensures inserted { OnTrue result (seen.new.items ≡ slice_set seen.old.items ix true) }
    ensures kept { OnFalse result (seen.new.items ≡ seen.old.items) }
{
    if ix >= seen.len() || seen[ix] {
        return false;
    }
    seen[ix] = true;
    true
}
