//! The schemes of URLs.
ghost use Rattle.std.specs.Prelude.{◌≡◌, Some, None, IfOk, MatchOption};
ghost use Rattle.markdown_out.specs.TagHtml.{may_be_in_scheme};
ghost use Rattle.markdown_safe.specs.SafeUrl.{before_colon, image_schemes, is_safe_url, is_scheme};
ghost use Rattle.markdown_safe.specs.SafeUrl.{is_scheme_of, link_schemes};

use std::alloc::{AllocError, Global};

/// Returns whether a scheme may have a byte.
fn may_be_in_scheme(byte: u8) -> bool
    ensures { result ≡ may_be_in_scheme byte }
{
    matches!(byte, b'a'..=b'z' | b'A'..=b'Z' | b'0'..=b'9' | b'+' | b'-' | b'.')
}

/// Returns the bytes of a URL before its first colon, if all of them may be in a scheme. Spaces and control bytes are
/// passed over.
fn before_colon(alloc: Global, url: &[u8]) -> Result<Option<Vec<u8>>, AllocError>
    ensures { IfOk result (λ found. MatchOption found (before_colon url.now ≡ None)
        (λ bytes. before_colon url.now ≡ Some bytes.items)) }
{
    let mut found = Vec::new(alloc);
    for byte in url {
        if *byte < 33 {
            continue;
        }
        if *byte == b':' {
            return Ok(Some(found));
        }
        if !may_be_in_scheme(*byte) {
            return Ok(None);
        }
        found.push(*byte)?;
    }
    Ok(None)
}

/// Returns whether bytes before a colon are a scheme: whether they begin with a letter.
fn is_scheme(found: &[u8]) -> bool
    ensures { result ≡ is_scheme found.now }
{
    match found.first() {
        Some(byte) => byte.is_ascii_alphabetic(),
        None => false,
    }
}

/// Returns whether an image may have a scheme, in upper or lower case.
fn is_image_scheme(scheme: &[u8]) -> bool
    ensures { result ≡ is_scheme_of image_schemes scheme.now }
{
    scheme.eq_ignore_ascii_case(b"http") || scheme.eq_ignore_ascii_case(b"https")
}

/// Returns whether a link may have a scheme, in upper or lower case.
fn is_link_scheme(scheme: &[u8]) -> bool
    ensures { result ≡ is_scheme_of link_schemes scheme.now }
{
    scheme.eq_ignore_ascii_case(b"http")
        || scheme.eq_ignore_ascii_case(b"https")
        || scheme.eq_ignore_ascii_case(b"mailto")
        || scheme.eq_ignore_ascii_case(b"tel")
}

/// Returns whether a URL has no scheme, or one that a link may have. Fails only if an allocation fails.
pub(crate) fn is_safe_link(alloc: Global, url: &str) -> Result<bool, AllocError>
    ensures { IfOk result (λ safe. safe ≡ is_safe_url link_schemes url.now) }
{
    match before_colon(alloc, url.as_bytes())? {
        Some(found) => Ok(!is_scheme(&found) || is_link_scheme(&found)),
        None => Ok(true),
    }
}

/// Returns whether a URL has no scheme, or one that an image may have. Fails only if an allocation fails.
pub(crate) fn is_safe_image(alloc: Global, url: &str) -> Result<bool, AllocError>
    ensures { IfOk result (λ safe. safe ≡ is_safe_url image_schemes url.now) }
{
    match before_colon(alloc, url.as_bytes())? {
        Some(found) => Ok(!is_scheme(&found) || is_image_scheme(&found)),
        None => Ok(true),
    }
}
