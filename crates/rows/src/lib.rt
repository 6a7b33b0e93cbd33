// Row tables: ps-unwind's `handler` and `handler2`.
#![tactic(auto)]

ghost use Rattle.std.specs.Prelude.{◌≡◌};
ghost use Rattle.rows.specs.Row as Spec;

use failure::Failure;

pub mod handler;
pub mod handler2;

// What a row asks for, by its number in a table.
#[derive(Clone, Copy, Debug, PartialEq, Eq)]
pub enum Action {
    Cleanup = 0,
    Catch = 1,
    Terminate = 2,
}

// A number of no action.
#[derive(Clone, Copy, Debug, PartialEq, Eq)]
pub struct UnknownAction(pub usize);

impl TryFrom<usize> for Action {
    type Error = UnknownAction;

    ghost try_from_gives = { Spec.Decodes };

    fn try_from(number: usize) -> Result<Self, UnknownAction> {
        match number {
            0 => Ok(Action::Cleanup),
            1 => Ok(Action::Catch),
            2 => Ok(Action::Terminate),
            _ => Err(UnknownAction(number)),
        }
    }
}

// The row of a return offset. The narrower field comes first, for speed: bytes of padding at the end would be copied through memory.
#[derive(Clone, Copy, Debug, PartialEq, Eq)]
pub struct Row {
    pub action: Action,
    pub pad: usize,
}

impl Action {
    // Cleanup and catch need a pad above 0, terminate a pad of 0.
    #[tactic(auto, unfolding(crate::specs::Row::valid))]
    fn takes(self, pad: usize) -> bool
        ensures { result ≡ Spec.valid pad (Spec.number_of self) }
    {
        match self {
            Action::Cleanup | Action::Catch => pad != 0,
            Action::Terminate => pad == 0,
        }
    }
}

// Whether a row may have this pad and this action; there are no more than three actions.
#[tactic(auto, using(crate::proofs::Actions::no_action))]
pub fn is_valid(pad: usize, action: usize) -> bool
    ensures { result ≡ Spec.valid pad action }
{
    match Action::try_from(action) {
        Ok(action) => action.takes(pad),
        Err(_) => false,
    }
}

// A row that was found, or 18.
#[tactic(auto, using(crate::proofs::Actions::no_action), unfolding(crate::specs::Row::checked))]
fn checked(pad: usize, action: usize) -> Result<Option<Row>, Failure>
    ensures { Spec.found result ≡ Spec.checked pad action }
{
    match Action::try_from(action) {
        Ok(action) if action.takes(pad) => Ok(Some(Row { action, pad })),
        _ => Err(Failure::BadEkoRecord),
    }
}
