/// How many pieces, regions and works an exploration has: `left + settled + emptied = 1 + splits`, and
/// `commits = splits + settled + emptied`.
#[derive(Clone, Copy, Debug, PartialEq, Eq)]
pub struct Counts {
    pub left: usize,
    pub settled: usize,
    /// Pieces that turned out to have no member.
    pub emptied: usize,
    /// Works that split their piece.
    pub splits: u32,
    pub commits: u32,
}
