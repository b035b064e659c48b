//! The comment that stands above a question in its policy. It is for a person, so no contract speaks of it.

use std::alloc::{AllocError, Global};

/// The text of the comment lines that stand directly above a token, by the blanks, ends of lines and comments between
/// it and the token before it, to whose line the first of these lines belongs. Of a comment line `#` and one blank
/// behind it are left out, and between two lines stands a blank.
pub fn comment_above(alloc: Global, gap: &str) -> Result<Option<String>, AllocError> {
    let Some((above, _)) = gap.rsplit_once('\n') else {
        return Ok(None);
    };
    let mut comment: Option<String> = None;
    for line in above.lines().skip(1) {
        let Some(words) = line.trim_start().strip_prefix('#') else {
            comment = None;
            continue;
        };
        let words = words.strip_prefix(' ').unwrap_or(words);
        comment = match comment {
            Some(front) => {
                let mut text = front;
                text.push_str(" ")?;
                text.push_str(words)?;
                Some(text)
            }
            None => Some(String::from_str(alloc, words)?),
        };
    }
    Ok(comment)
}
