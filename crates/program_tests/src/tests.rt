mod command_lines;
mod config_files;
mod drawn_keys;
mod failures;
mod metrics;
mod running;

use std::alloc::AllocError;
use std::fmt::Debug;
use std::process::Abort;

/// Ends the test where what was found is not what is wanted, and shows both.
fn assert_same<R: Abort, T: PartialEq + Debug>(rt: &R, found: &T, wanted: &T) {
    assert_eq!(rt; found, wanted);
}

/// Ends the test where the text of what was given is not the wanted one, and shows all three.
fn assert_text<R: Abort>(rt: &R, given: &str, found: &str, wanted: &str) {
    assert!(rt; found == wanted, "{given}: {found}, not {wanted}");
}

/// Writes these words behind the text, with a space before each.
fn put_words(text: &mut String, words: &[&str]) -> Result<(), AllocError> {
    for word in words {
        text.push(' ')?;
        text.push_str(word)?;
    }
    Ok(())
}
