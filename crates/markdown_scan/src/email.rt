//! Email autolinks (CommonMark 6.5).
ghost use Rattle.std.specs.Prelude.{◌≡◌, ◌≤◌, ◌<◌, ◌==◌, IfSome, length, not, slice_index};
ghost use Rattle.markdown_base.specs.Bytes.{full_stop};
ghost use Rattle.std.specs.Option.{option_map};
ghost use Rattle.std.specs.List.{prefix_len};
ghost use Rattle.std.specs.Str.{IsCharBoundary};
ghost use Rattle.markdown_scan.specs.EmailAutolink.{are_labels, closed_address, email_autolink};
ghost use Rattle.markdown_scan.specs.EmailAutolink as email;

/// Returns whether the byte may stand before the `@`.
fn is_local_byte(byte: u8) -> bool
    ensures { result ≡ email.is_local_byte byte }
{
    byte.is_ascii_alphanumeric() || b".!#$%&'*+/=?^_`{|}~-".contains(&byte)
}

/// Returns whether the byte may stand after the `@`.
fn is_domain_byte(byte: u8) -> bool
    ensures { result ≡ email.is_domain_byte byte }
{
    byte.is_ascii_alphanumeric() || b"-.".contains(&byte)
}

fn local_length(bytes: &[u8]) -> usize
    ensures value { result ≡ email.local_length bytes.now }
    ensures within { result ≤ length bytes.now }
{
    bytes
        .iter()
        .take_while(|byte| is_local_byte(**byte))
        .count()
}

fn domain_length(bytes: &[u8]) -> usize
    ensures value { result ≡ email.domain_length bytes.now }
    ensures within { result ≤ length bytes.now }
{
    bytes
        .iter()
        .take_while(|byte| is_domain_byte(**byte))
        .count()
}

/// Returns whether the bytes of a domain are a label: 1 to 63 bytes, the first and the last no hyphen.
fn is_label(label: &[u8]) -> bool
    ensures { result ≡ email.is_label label.now }
{
    1 <= label.len() && label.len() <= 63 && label[0] != b'-' && label[label.len() - 1] != b'-'
}

/// Returns the number of bytes before the first period.
fn label_length(bytes: &[u8]) -> usize
    ensures value { result ≡ prefix_len (λ b. not (b == full_stop)) bytes.now }
    ensures within { result ≤ length bytes.now }
{
    bytes.iter().take_while(|byte| **byte != b'.').count()
}

/// Returns whether the bytes of a domain are labels with a period between.
fn are_labels(domain: &[u8]) -> bool
    ensures { result ≡ are_labels domain.now }
{
    let mut rest = domain;
    loop {
        let length = label_length(rest);
        if !is_label(&rest[..length]) {
            return false;
        }
        if length == rest.len() {
            return true;
        }
        rest = &rest[length + 1..];
    }
}

/// Returns the length in bytes of the address that the bytes begin with, if a `>` follows it.
fn closed_address(bytes: &[u8]) -> Option<usize>
    ensures value { result ≡ closed_address bytes.now }
    ensures here { IfSome result (λ n. (n < length bytes.now) × (slice_index bytes.now n ≡ 62)) }
{
    let before = local_length(bytes);
    if before == 0 || !bytes[before..].starts_with(b"@") {
        return None;
    }
    let after = &bytes[before + 1..];
    let length = domain_length(after);
    if after[length..].starts_with(b">") && are_labels(&after[..length]) {
        Some(before + 1 + length)
    } else {
        None
    }
}

/// Returns the byte offset after the `>`, and the address between the angle brackets, of the email autolink whose `<` is
/// the byte before `at`, if there is one.
pub fn scan_email_autolink(text: &str, at: usize) -> Option<(usize, &str)>
    requires { IsCharBoundary text.now at }
    ensures value { option_map (λ p. (p.0, p.1.now)) result ≡ email_autolink text.now at }
    ensures within { IfSome result (λ p. p.0 ≤ length text.now) }
    ensures boundary { IfSome result (λ p. IsCharBoundary text.now p.0) }
{
    let rest = &text[at..];
    let length = closed_address(rest.as_bytes())?;
    Some((at + length + 1, &rest[..length]))
}
