//! Addresses of mail.
ghost use Rattle.std.specs.Prelude.{◌≡◌, ◌<◌, ◌≤◌, length};
ghost use Rattle.markdown_autolinks.specs.AddressBytes as bytes;
ghost use Rattle.markdown_autolinks.specs.Addresses as spec;

use crate::address::{Address, AddressForm};
use crate::bytes::{byte_at, count_of};

/// Returns whether the name of a mail address may have a byte.
fn is_mailbox_byte(byte: u8) -> bool
    ensures { result ≡ bytes.is_mailbox_byte byte }
{
    byte.is_ascii_alphanumeric() || byte == b'.' || byte == b'+' || byte == b'-' || byte == b'_'
}

/// Returns where the name begins of the mail address whose `@` is at a place.
#[tactic(auto, using(crate::proofs::PlaceLemmas::goes_back, crate::proofs::PlaceLemmas::back_stops_here, crate::proofs::PlaceLemmas::back_stops_at_end))]
fn mailbox_begin(text: &[u8], used: usize, at: usize) -> usize
    ensures value { result ≡ spec.mailbox_begin text.now used at }
    ensures before { result ≤ at }
{
    let mut begin = at;
    while used < begin {
        if !is_mailbox_byte(byte_at(text, begin - 1)) {
            return begin;
        }
        begin -= 1;
    }
    begin
}

/// Returns whether what follows the `@` may have the byte at a place.
fn is_domain_at(text: &[u8], at: usize) -> bool
    ensures { result ≡ bytes.is_domain_at text.now at }
{
    let byte = byte_at(text, at);
    byte.is_ascii_alphanumeric()
        || byte == b'-'
        || byte == b'_'
        || (byte == b'.' && byte_at(text, at + 1).is_ascii_alphanumeric())
}

/// Returns where what follows the `@` at a place ends.
#[tactic(auto, using(crate::proofs::PlaceLemmas::goes_further, crate::proofs::PlaceLemmas::stops_here, crate::proofs::PlaceLemmas::stops_at_end))]
fn domain_end(text: &[u8], at: usize) -> usize
    requires { at < length text.now }
    ensures value { result ≡ spec.domain_end text.now at }
    ensures after { at < result }
{
    let mut end = at + 1;
    while end < text.len() {
        if !is_domain_at(text, end) {
            return end;
        }
        end += 1;
    }
    end
}

/// Returns whether what follows the `@` at a place, up to `end`, is a domain.
fn is_domain(text: &[u8], at: usize, end: usize) -> bool
    requires { at < end }
    ensures { result ≡ spec.is_domain text.now at end }
{
    byte_at(text, at + 1).is_ascii_alphanumeric()
        && 0 < count_of(text, b'.', at + 1, end)
        && byte_at(text, end - 1).is_ascii_alphabetic()
        && byte_at(text, end) != b'@'
}

/// Returns where the link of a mail address begins whose name begins at a place.
fn mail_begin(text: &[u8], used: usize, name: usize) -> usize
    requires { name ≤ length text.now }
    ensures { result ≡ spec.mail_begin text.now used name }
{
    if 7 <= name.saturating_sub(used) && text[name - 7..].starts_with(b"mailto:") {
        name - 7
    } else {
        name
    }
}

/// Returns the mail address around the `@` at a place.
pub fn mail_address(text: &[u8], used: usize, at: usize) -> Option<Address>
    requires { at < length text.now }
    ensures { result ≡ spec.mail_address text.now used at }
{
    let name = mailbox_begin(text, used, at);
    if at <= name {
        return None;
    }
    let end = domain_end(text, at);
    if !is_domain(text, at, end) {
        return None;
    }
    Some(Address {
        start: mail_begin(text, used, name),
        name,
        end,
        form: AddressForm::Mail,
    })
}
