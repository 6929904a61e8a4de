use base::ActionSet;
use search::{Operator, StepKind};

// The four operators.
#[derive(Clone, Copy)]
pub(crate) enum Kind {
    ExistsUntil,
    ExistsUnless,
    AllUntil,
    AllUnless,
}

// An operator whose first and second steps are those by sets of actions, with the states where it
// has a deciding path.
#[derive(Drop)]
pub(crate) struct ByActions<'a> {
    pub(crate) kind: Kind,
    pub(crate) first: ActionSet,
    pub(crate) second: ActionSet,
    pub(crate) shown: &'a [bool],
}

impl Operator for ByActions<'_> {
    ghost use Rattle.search_cases.specs.ByActions.{operator_of};

    ghost meaning = { operator_of };

    fn is_existential(&self) -> bool {
        matches!(self.kind, Kind::ExistsUntil | Kind::ExistsUnless)
    }

    fn has_lasting(&self) -> bool {
        matches!(self.kind, Kind::ExistsUnless | Kind::AllUntil)
    }

    fn kind(&self, action: u8, _state: usize) -> StepKind {
        if self.second.contains(action) {
            StepKind::Second
        } else if self.first.contains(action) {
            StepKind::Pass
        } else {
            StepKind::Neither
        }
    }

    fn shows(&self, state: usize) -> bool {
        self.shown.get(state).copied().unwrap_or(false)
    }
}
