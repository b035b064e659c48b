//! What the program says that it is.

/// The line that `--version` writes. As it stands here it is that of a program that nobody vouches for. `tools/build`
/// writes over the 32 bytes between the parentheses, in the finished file: whether that is proved, and of which commit.
/// So the length is the same in each build, and nothing may be computed of the bytes.
pub const VERSION: &str = "seccomp_audit 2.2.2 (not proved, of an unknown commit)\n";
