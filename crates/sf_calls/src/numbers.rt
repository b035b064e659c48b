//! Numbers as a person writes them: decimal digits, or `0x` and hexadecimal digits, without a sign or a blank.

ghost use Rattle.std.specs.Prelude.{◌≡◌, ◌≤◌, length, slice_get, true};
ghost use Rattle.std.specs.Char.{is_digit};
ghost use Rattle.std.specs.List.{list_all};
ghost use Rattle.std.specs.Option.{option_map};
ghost use Rattle.std.specs.Str.Parse.{digits_value};
ghost use Rattle.sf_calls.specs.Numbers.{are_arguments, are_digits, argument_at, digits_of, in_bits, is_number, comma_parts, radix_of, read_arguments, read_number};

/// Why a text isn't read as numbers.
#[derive(Clone, Copy, Debug, PartialEq, Eq)]
pub enum Misread {
    /// The text hasn't the form that is wanted.
    Form,
    /// A number has more bits than are wanted.
    Width,
}

fn parted(text: &str) -> (u32, &str)
    ensures radix { result.0 ≡ radix_of text.now }
    ensures digits { result.1.now ≡ digits_of text.now }
{
    match text.strip_prefix("0x") {
        Some(digits) => (16, digits),
        None => (10, text),
    }
}

fn is_digit(byte: u8, radix: u32) -> bool
    requires least { 2 ≤ radix }
    requires most { radix ≤ 36 }
    ensures { result ≡ is_digit byte radix }
{
    char::from(byte).is_digit(radix)
}

fn are_each_digits(bytes: &[u8], radix: u32) -> bool
    requires least { 2 ≤ radix }
    requires most { radix ≤ 36 }
    ensures { result ≡ list_all (λ c. is_digit c radix) bytes.now }
{
    bytes.iter().all(|byte| is_digit(*byte, radix))
}

fn are_digits(digits: &str, radix: u32) -> bool
    requires least { 2 ≤ radix }
    requires most { radix ≤ 36 }
    ensures { result ≡ are_digits radix digits.now }
{
    !digits.is_empty() && are_each_digits(digits.as_bytes(), radix)
}

/// Whether a text is a number, of any size.
pub fn is_number(text: &str) -> bool
    ensures { result ≡ is_number text.now }
{
    let (radix, digits) = parted(text);
    are_digits(digits, radix)
}

fn number_from(digits: &str, radix: u32) -> Result<u64, Misread>
    requires least { 2 ≤ radix }
    requires most { radix ≤ 36 }
    requires digits { are_digits radix digits.now ≡ true }
    ensures { result ≡ in_bits 64 (digits_value radix digits.now) }
{
    u64::from_str_radix(digits, radix).map_err(|_| Misread::Width)
}

fn read_number(text: &str) -> Result<u64, Misread>
    ensures { result ≡ read_number 64 text.now }
{
    let (radix, digits) = parted(text);
    if !are_digits(digits, radix) {
        return Err(Misread::Form);
    }
    number_from(digits, radix)
}

/// The number of 32 bits that a text is.
pub fn read_word(text: &str) -> Result<u32, Misread>
    ensures { result ≡ read_number 32 text.now }
{
    let number = read_number(text)?;
    u32::try_from(number).map_err(|_| Misread::Width)
}

fn count_parts(text: &str) -> usize
    ensures { result ≡ length (comma_parts text.now) }
{
    text.split(',').count()
}

fn are_numbers(text: &str) -> bool
    ensures { result ≡ list_all is_number (comma_parts text.now) }
{
    text.split(',').all(|part| is_number(part))
}

/// Whether a text is the arguments of a call: one to six numbers of any size, with commas between them.
pub fn are_arguments(text: &str) -> bool
    ensures { result ≡ are_arguments text.now }
{
    count_parts(text) <= 6 && are_numbers(text)
}

fn part_at(text: &str, place: usize) -> Option<&str>
    ensures { option_map (λ part. part.now) result ≡ slice_get (comma_parts text.now) place }
{
    text.split(',').nth(place)
}

fn argument_at(text: &str, place: usize) -> Result<u64, Misread>
    ensures { are_arguments text.now ≡ true
        → result ≡ in_bits 64 (argument_at text.now place) }
{
    match part_at(text, place) {
        Some(part) => read_number(part),
        None => Ok(0),
    }
}

/// The six arguments of a call that a text gives; those that it doesn't give are 0. `Form` comes before `Width`.
pub fn read_arguments(text: &str) -> Result<[u64; 6], Misread>
    ensures { result ≡ read_arguments text.now }
{
    if !are_arguments(text) {
        return Err(Misread::Form);
    }
    Ok([
        argument_at(text, 0)?,
        argument_at(text, 1)?,
        argument_at(text, 2)?,
        argument_at(text, 3)?,
        argument_at(text, 4)?,
        argument_at(text, 5)?,
    ])
}
