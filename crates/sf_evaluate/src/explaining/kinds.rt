//! What the content of a file seems to be, mostly from how it begins. It is for a person, so no contract speaks of it.

#[derive(Clone, Copy, Debug, PartialEq, Eq)]
pub(crate) enum Kind {
    Empty,
    /// The bytes of instructions, or others that are no text.
    Bytes,
    /// The bytes of instructions, with the high byte of a code before its low one.
    BigEndian,
    /// The number of the instructions, and then the instructions, as `struct sock_fprog` has them.
    Counted,
    Elf,
    Json,
    Policy,
    Names,
    Text,
}

/// The most bytes at the front of a file that are looked at to see whether it is a text.
const FRONT: usize = 64;

/// A text without a byte order mark of UTF-8, which belongs to no line.
pub(crate) fn bytes_of_text(bytes: &[u8]) -> &[u8] {
    match bytes {
        [0xEF, 0xBB, 0xBF, rest @ ..] => rest,
        _ => bytes,
    }
}

/// Whether bytes begin like a text, in which a character may be wrong. Those of a filter never do, since the second
/// byte of each permitted code is 0. A text doesn't begin with a control character, unless this is a blank.
fn is_text(bytes: &[u8]) -> bool {
    match bytes.first() {
        Some(first) if first.is_ascii_control() && !first.is_ascii_whitespace() => false,
        _ => bytes.iter().take(FRONT).all(|byte| *byte != 0),
    }
}

/// Whether the number of the instructions seems to stand before them, in 2, 4, 8 or 16 bytes, the low byte first.
fn is_counted(bytes: &[u8]) -> bool {
    let [low, high, ..] = bytes else {
        return false;
    };
    let count = u16::from_le_bytes([*low, *high]);
    let length = usize::from(count).saturating_mul(8);
    count != 0 && matches!(bytes.len().checked_sub(length), Some(2 | 4 | 8 | 16))
}

/// The line at a place, from 0, without the blanks around it. Blank lines and comments of TOML have no place.
fn line_at(text: &str, place: usize) -> &str {
    text.lines()
        .map(|line| line.trim())
        .filter(|line| !line.is_empty() && !line.starts_with('#'))
        .nth(place)
        .unwrap_or("")
}

fn is_of_set(line: &str) -> bool {
    line.starts_with("arch") || line.starts_with("calls")
}

/// What a text seems to be, by its first two lines. The second one counts only behind a header: a file of several sets
/// of calls begins with one, and a key of the set follows.
fn kind_of_lines(line: &str, next: &str) -> Kind {
    if line.starts_with('{') || line.starts_with("[{") || line == "[" {
        return Kind::Json;
    }
    if !line.starts_with('[') && !line.contains('=') {
        return Kind::Text;
    }
    let key = line.trim_start_matches('[').trim_start();
    if key.starts_with("version") || key.starts_with("question") {
        Kind::Policy
    } else if is_of_set(key) || (line.starts_with('[') && is_of_set(next)) {
        Kind::Names
    } else {
        Kind::Text
    }
}

/// What a file seems to hold. The high byte of each permitted code is 0: where a 0 stands first and another number
/// behind it, and the length is a multiple of 8, the instructions seem to be big-endian.
pub(crate) fn kind_of(bytes: &[u8]) -> Kind {
    if bytes.is_empty() {
        return Kind::Empty;
    }
    if is_text(bytes) {
        let text = std::str::from_utf8(bytes_of_text(bytes)).unwrap_or("");
        return kind_of_lines(line_at(text, 0), line_at(text, 1));
    }
    match bytes {
        [0x7F, b'E', b'L', b'F', ..] => Kind::Elf,
        [0, high, ..] if *high != 0 && bytes.len() % 8 == 0 => Kind::BigEndian,
        _ if is_counted(bytes) => Kind::Counted,
        _ => Kind::Bytes,
    }
}
