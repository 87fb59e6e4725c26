//! What can be wrong with a node.

/// What is wrong with a node of a tree, in the order in which it is told.
#[derive(Clone, Copy, PartialEq, Eq, Debug)]
pub enum NodeKind {
    /// It names a row that the study has not.
    RowNumber,
    /// A split names a relay that the study has not.
    SplitRelay,
    /// The box of an `Empty` is not emptied.
    NotEmpty,
    /// The box of another node is emptied, or that of an open leaf has an empty span.
    Emptied,
    /// The weights of a `Void` do not show that no settings meet every row.
    NotVoid,
    /// The tight box of a `Hair` has several pickup steps for a relay.
    ManyPickups,
    /// The lowest settings of a `Hair` strictly meet its row.
    NotHair,
    /// A split's step is not one of its relay's with a next one in the tight box.
    SplitAt,
}
