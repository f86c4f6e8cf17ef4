//! Counts of the events of a parser. A scope that ends with an event and the parser takes half a minute to prove, so
//! the
//! function here borrows the parser.
use markdown_inline::walk::Parser;
use markdown_test_helpers::lists::is_nothing;

/// Returns the number of items that a parser has left, up to a million.
pub fn count_left(parser: &mut Parser<'_>) -> usize {
    let mut count = 0usize;
    for _ in 0..1_000_000 {
        if is_nothing(parser.next()) {
            return count;
        }
        count = count.saturating_add(1);
    }
    count
}
