//! Bytes as digits.

ghost use Rattle.std.specs.Prelude.{◌≡◌, ◌*◌, ◌≤◌, Some, flat_map, length};
ghost use Rattle.printed_lines.specs.Items.{hex_of};

use std::{fmt, str};

/// How many bytes are spelled at a time: a formatter that is handed each digit by itself takes most of the time that printing takes.
const PART: usize = 64;

/// Bytes as digits in lower case, two for each.
#[derive(Clone, Copy)]
pub(crate) struct Hex<'a>(pub(crate) &'a [u8]);

impl fmt::Display for Hex<'_> {
    ghost output = { λ hex. Some (flat_map hex_of hex.0.now) };

    fn fmt<W: fmt::Write>(&self, f: &mut fmt::Formatter<W>) -> fmt::Result {
        let mut room = [0u8; 2 * PART];
        for part in self.0.chunks(PART) {
            f.write_str(digits_of(part, &mut room))?;
        }
        Ok(())
    }
}

/// Puts the digits of these bytes at the beginning of the room, and returns them.
fn digits_of<'a>(bytes: &[u8], room: &'a mut [u8]) -> &'a str
    requires { 2 * length bytes.now ≤ length room.old }
    ensures { result.now ≡ flat_map hex_of bytes.now }
{
    let digits = &mut room[..2 * bytes.len()];
    let Ok(()) = hex::encode_to_slice(bytes, digits) else {
        unreachable!();
    };
    let Ok(text) = str::from_utf8(digits) else {
        unreachable!();
    };
    text
}
