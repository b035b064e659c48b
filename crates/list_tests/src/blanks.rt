//! Numbers of a call with blanks, which no script of `command_run` can have: there a blank ends a word.
use sf_calls::{Misread, read_arguments, read_word};

#[test]
fn a_number_has_no_blank(rt: HostRuntime) {
    for text in [" 5", "5 "] {
        assert!(rt; read_word(text) == Err(Misread::Form), "{text}");
    }
    assert!(rt; read_arguments("1, 2") == Err(Misread::Form));
}
