//! How a stranger's text is shown on a terminal.

ghost use Rattle.std.specs.Prelude.{◌≡◌, ◌++◌, ◌&&◌, nat_le, flat_map, string_bytes, IfOk, OnOk};
ghost use Rattle.sf_command_line.specs.Terminal.{is_hidden, numbered, shown, visible};

use std::alloc::{AllocError, Global};

fn is_within(low: u32, high: u32, number: u32) -> bool
    ensures { result ≡ (nat_le low number && nat_le number high) }
{
    low <= number && number <= high
}

/// Whether a character isn't shown as it is: a terminal obeys it, or it can't be seen and changes how others are seen.
fn is_hidden(character: char) -> bool
    ensures { result ≡ is_hidden character }
{
    let number = character as u32;
    number < 0x20
        || is_within(0x7F, 0x9F, number)
        || number == 0xAD
        || number == 0x61C
        || number == 0x180E
        || is_within(0x200B, 0x200F, number)
        || is_within(0x2028, 0x202E, number)
        || is_within(0x2060, 0x206F, number)
        || number == 0xFEFF
        || is_within(0xFFF9, 0xFFFB, number)
        || is_within(0xE0000, 0xE007F, number)
}

/// Adds each byte as its number, such as `\x1b`.
fn push_numbered(text: &mut String, bytes: &[u8]) -> Result<(), AllocError>
    ensures { OnOk result (string_bytes text.new
        ≡ string_bytes text.old ++ flat_map numbered bytes.now) }
{
    for byte in bytes {
        let byte = *byte;
        write!(text, "\\x{byte:02x}")?;
    }
    Ok(())
}

fn push_shown(text: &mut String, character: char) -> Result<(), AllocError>
    ensures { OnOk result (string_bytes text.new ≡ string_bytes text.old ++ shown character) }
{
    if is_hidden(character) {
        let mut bytes = [0u8; 4];
        push_numbered(text, character.encode_utf8(&mut bytes).as_bytes())
    } else {
        text.push(character)
    }
}

/// A text in which the bytes of hidden characters stand as their numbers, such as `\x1b`: it has one line, and nothing
/// in it that a terminal obeys. A `\` stays as it is.
pub fn visible(alloc: Global, text: &str) -> Result<String, AllocError>
    ensures { IfOk result (λ s. string_bytes s ≡ visible text.now) }
{
    let mut all = String::new(alloc);
    for character in text.chars() {
        push_shown(&mut all, character)?;
    }
    Ok(all)
}
