// Why a walk ends before its end.
/// Why a walk ends before its end.
#[derive(Clone, Copy, Debug, PartialEq, Eq)]
pub enum Stop {
    /// It comes to a visit with 1,048,576 visits before it.
    Nodes,
    /// It comes to a visit inside 1,000 others.
    Depth,
    /// It comes to what no typed program does.
    Lost,
    Memory,
}
