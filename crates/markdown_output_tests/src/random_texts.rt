//! Documents of random pieces: each walk ends, and its events are sound.
use markdown_test_helpers::documents::random_text;
use markdown_test_helpers::rows::gives;
use markdown_test_parsers::sound::is_sound_with_any;
use std::alloc::Global;
use std::test::Fail;

/// Checks the events of the next random text.
fn next_is_sound(alloc: Global, seed: &mut u64) -> Result<(), Fail> {
    let text = random_text(alloc, seed)?;
    gives(
        text.as_str(),
        is_sound_with_any(alloc, text.as_str())?,
        true,
    )
}

#[test]
fn random_documents(rt: HostRuntime) -> Result<(), Fail> {
    let mut seed = 1;
    for _ in 0..200 {
        next_is_sound(rt.alloc(), &mut seed)?;
    }
    Ok(())
}
