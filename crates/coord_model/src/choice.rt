//! Settings: a pickup step and a dial step for each relay.
ghost use Rattle.std.specs.Prelude.{◌≡◌, IfOk};
ghost use Rattle.coord_model.specs.Choice.{choice_data};

use crate::memory::NoMemory;

/// A pickup step and a dial step for each relay, in study order. Steps count from 0.
#[derive(Drop)]
pub struct Choice {
    pub pickup: Vec<u16>,
    pub dial: Vec<u16>,
}

impl Choice {
    ghost use Rattle.coord_model.specs.Choice.{choice_data};

    /// An equal choice.
    pub fn copy(&self) -> Result<Choice, NoMemory>
        ensures { IfOk result (λ choice. choice_data choice ≡ choice_data self.now) }
    {
        Ok(Choice {
            pickup: self.pickup.clone()?,
            dial: self.dial.clone()?,
        })
    }
}

/// How a search ended.
#[derive(Clone, Copy, PartialEq, Eq, Debug)]
pub enum Ending {
    Closed,
    NoSettings,
    BudgetSpent,
    Hairline,
}
