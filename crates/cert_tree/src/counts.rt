//! What the nodes of a tree come to, their bounds aside, and the ending that follows.
ghost use Rattle.std.specs.Prelude.{◌≡◌, ◌+◌, ◌≤◌};
ghost use Rattle.cert_tree.specs.Counting.{counts_by, both, no_counts};
ghost use Rattle.cert_tree.specs.Endings.{ending_by, is_close};

use coord_model::{Ending, NodeLine};

/// What some nodes come to.
#[derive(Clone, Copy)]
pub struct Counts {
    /// The boxes that were worked on: the splits, and the leaves that are not open.
    pub boxes: u32,
    /// Whether an open leaf is among them.
    pub open_leaf: bool,
    /// Whether a hair leaf is among them.
    pub hair: bool,
    /// Whether each leaf among them is `Empty` or `Void`.
    pub no_settings: bool,
}

impl Counts {
    /// What no nodes come to.
    pub fn none() -> Counts
        ensures { result ≡ no_counts }
    {
        Counts {
            boxes: 0,
            open_leaf: false,
            hair: false,
            no_settings: true,
        }
    }

    /// What one node comes to by itself.
    pub fn of(line: NodeLine) -> Counts
        ensures { result ≡ counts_by line }
    {
        let one = Counts {
            boxes: 1,
            ..Counts::none()
        };
        match line {
            NodeLine::Split { .. } | NodeLine::Empty | NodeLine::Void => one,
            NodeLine::Bound { .. } => Counts {
                no_settings: false,
                ..one
            },
            NodeLine::Hair { .. } => Counts {
                hair: true,
                no_settings: false,
                ..one
            },
            NodeLine::OpenLeaf { .. } => Counts {
                open_leaf: true,
                no_settings: false,
                ..Counts::none()
            },
        }
    }

    /// What these and other nodes come to together.
    pub fn and(self, other: Counts) -> Counts
        requires { self.boxes + other.boxes ≤ 4000000000 }
        ensures { result ≡ both self other }
    {
        Counts {
            boxes: self.boxes + other.boxes,
            open_leaf: self.open_leaf || other.open_leaf,
            hair: self.hair || other.hair,
            no_settings: self.no_settings && other.no_settings,
        }
    }

    /// The first ending that is true, if one is and the boxes are within the budget.
    ///
    /// `bound`, `cost` and `gap` are in weighted microseconds.
    pub fn ending(
        self,
        bound: Option<u64>,
        cost: Option<u64>,
        gap: u64,
        budget: u32,
    ) -> Option<Ending>
        ensures { result ≡ ending_by self bound cost gap budget }
    {
        if self.boxes > budget {
            None
        } else if self.no_settings {
            Some(Ending::NoSettings)
        } else if is_close(bound, cost, gap) {
            Some(Ending::Closed)
        } else if self.open_leaf && self.boxes == budget {
            Some(Ending::BudgetSpent)
        } else if self.hair && !self.open_leaf {
            Some(Ending::Hairline)
        } else {
            None
        }
    }
}

/// Whether a bound and the gap come to at least the cost, if there are both.
fn is_close(bound: Option<u64>, cost: Option<u64>, gap: u64) -> bool
    ensures { result ≡ is_close bound cost gap }
{
    match (bound, cost) {
        (Some(bound), Some(cost)) => u128::from(cost) <= u128::from(bound) + u128::from(gap),
        _ => false,
    }
}
