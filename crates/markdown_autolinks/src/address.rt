//! Addresses in a text, and the search for them.
ghost use Rattle.std.specs.Prelude.{◌≡◌, ◌<◌, length};
ghost use Rattle.markdown_autolinks.specs.Addresses.{address_found_at, first_address};

use crate::bytes::byte_at;
use crate::mail::mail_address;
use crate::web::{web_address, www_address};

/// How an address is written.
#[derive(Clone, Copy, Drop)]
pub enum AddressForm {
    /// With a scheme.
    Web,
    /// With `www.`.
    Www,
    /// `name@host`
    Mail,
}

/// An address in a text, in byte offsets.
#[derive(Clone, Copy, Drop)]
pub struct Address {
    /// Where the link begins.
    pub start: usize,
    /// Where the destination begins: after a `mailto:`.
    pub name: usize,
    /// Where both end.
    pub end: usize,
    pub form: AddressForm,
}

/// Returns the address that is found at `at`, where all before `used` is used up.
#[tactic(auto, using(crate::proofs::WebLemmas::web_at))]
fn address_at(text: &[u8], used: usize, at: usize) -> Option<Address>
    requires { at < length text.now }
    ensures { result ≡ address_found_at text.now used at }
{
    let byte = byte_at(text, at);
    if byte == b'@' {
        mail_address(text, used, at)
    } else if byte == b'w' {
        www_address(text, at)
    } else {
        web_address(text, used, at)
    }
}

/// Returns the first address after what is used up.
#[tactic(auto, using(crate::proofs::PlaceLemmas::found_here, crate::proofs::PlaceLemmas::found_later, crate::proofs::PlaceLemmas::found_nowhere))]
pub fn first_address(text: &[u8], used: usize) -> Option<Address>
    ensures { result ≡ first_address text.now used }
{
    let mut at = used;
    while at < text.len() {
        let found = address_at(text, used, at);
        if found.is_some() {
            return found;
        }
        at += 1;
    }
    None
}
