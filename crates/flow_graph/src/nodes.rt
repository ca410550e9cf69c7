//! Nodes of graphs.

/// Where control goes from an item.
#[derive(Clone, Copy, PartialEq, Eq, Debug)]
pub struct Node {
    /// The number of the item at the label to which a direct jump leads.
    pub target: Option<u32>,
    /// It may go on to the next item, be there one or not.
    pub falls: bool,
    /// It may leave the function, by a return or a jump.
    pub exits: bool,
    /// It is a jump or a call whose target is not known.
    pub untraced: bool,
    /// It calls a label of the function other than its start.
    pub calls_inside: bool,
}
