//! Web addresses, and addresses that begin with `www.`.
ghost use Rattle.std.specs.Prelude.{◌≡◌, ◌<◌, ◌≤◌, length};
ghost use Rattle.markdown_autolinks.specs.Addresses as spec;

use crate::address::{Address, AddressForm};
use crate::bytes::{byte_at, is_white_before};
use crate::host::is_host;
use crate::tail::address_end;

/// Returns whether these lower-case letters and marks stand at a place, in any case.
fn begins_in_any_case(text: &[u8], at: usize, word: &[u8]) -> bool
    requires { at < length text.now }
    ensures { result ≡ spec.begins_in_any_case text.now at word.now }
{
    let mut place = at;
    for byte in word {
        if byte_at(text, place).to_ascii_lowercase() != *byte {
            return false;
        }
        place += 1;
    }
    true
}

/// Returns the number of bytes of the scheme at a place; 0 where there is none.
fn scheme_length(text: &[u8], at: usize) -> usize
    requires { at < length text.now }
    ensures value { result ≡ spec.address_scheme_length text.now at }
    ensures few { result ≤ 8 }
{
    if begins_in_any_case(text, at, b"http://") {
        7
    } else if begins_in_any_case(text, at, b"https://") {
        8
    } else if begins_in_any_case(text, at, b"ftp://") {
        6
    } else {
        0
    }
}

/// Returns whether an ASCII letter that is not used up stands directly before a place.
fn is_after_letter(text: &[u8], used: usize, at: usize) -> bool
    ensures { result ≡ spec.is_after_letter text.now used at }
{
    used < at && byte_at(text, at - 1).is_ascii_alphabetic()
}

/// Returns the address that begins at a place with so many bytes, and then a host.
fn address_after(text: &[u8], at: usize, before: usize, form: AddressForm) -> Option<Address>
    requires here { at < length text.now }
    requires few { before ≤ 8 }
    ensures { result ≡ spec.address_after text.now at before form }
{
    let end = address_end(text, at);
    if at + before < end {
        Some(Address {
            start: at,
            name: at,
            end,
            form,
        })
    } else {
        None
    }
}

/// Returns the web address that begins at a place.
#[tactic(auto, using(crate::proofs::WebLemmas::web_without_scheme, crate::proofs::WebLemmas::web_after_letter, crate::proofs::WebLemmas::web_without_host, crate::proofs::WebLemmas::web_with_host))]
pub fn web_address(text: &[u8], used: usize, at: usize) -> Option<Address>
    requires { at < length text.now }
    ensures { result ≡ spec.web_address text.now used at }
{
    let scheme = scheme_length(text, at);
    if scheme == 0 {
        return None;
    }
    if is_after_letter(text, used, at) {
        return None;
    }
    if !is_host(text, at + scheme) {
        return None;
    }
    address_after(text, at, scheme, AddressForm::Web)
}

/// Returns whether an address with `www.` may begin at a place.
fn may_begin_www(text: &[u8], at: usize) -> bool
    ensures { result ≡ spec.may_begin_www text.now at }
{
    at == 0 || is_white_before(text, at) || b"*_~(".contains(&byte_at(text, at - 1))
}

/// Returns the address with `www.` that begins at a place.
pub fn www_address(text: &[u8], at: usize) -> Option<Address>
    requires { at < length text.now }
    ensures { result ≡ spec.www_address text.now at }
{
    if text[at..].starts_with(b"www.")
        && may_begin_www(text, at)
        && is_host(text, at + 4)
        && is_host(text, at)
    {
        address_after(text, at, 4, AddressForm::Www)
    } else {
        None
    }
}
