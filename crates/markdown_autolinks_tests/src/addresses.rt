//! The addresses of texts.
use crate::table::ROWS;
use markdown_autolinks::address::{AddressForm, first_address};
use markdown_test_helpers::rows::gives;
use std::alloc::{AllocError, Global};
use std::test::Fail;

/// Returns the letter of a form.
fn letter(form: AddressForm) -> &'static str {
    match form {
        AddressForm::Web => "h",
        AddressForm::Www => "w",
        AddressForm::Mail => "m",
    }
}

/// Returns the addresses of a text.
fn addresses(alloc: Global, text: &str) -> Result<String, AllocError> {
    let mut notes = String::new(alloc);
    let mut used = 0;
    // (an address has a byte at least)
    for _ in 0..text.len() {
        let Some(found) = first_address(text.as_bytes(), used) else {
            return Ok(notes);
        };
        let form = letter(found.form);
        notes.push_str(format!(in alloc;
            "{} {} {} {};",
            found.start, found.name, found.end, form
        )?.as_str())?;
        used = found.end;
    }
    Ok(notes)
}

#[test]
fn rows(rt: HostRuntime) -> Result<(), Fail> {
    for (text, wanted) in &ROWS {
        let found = addresses(rt.alloc(), text)?;
        gives(text, found.as_str(), wanted)?;
    }
    Ok(())
}
