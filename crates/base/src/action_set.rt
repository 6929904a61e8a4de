ghost use Rattle.std.specs.Prelude.{◌≡◌, ℕ, Bool, true, false, not, ◌&&◌, ◌||◌, ◌==◌, nat_lt};
ghost use Rattle.base.specs.Sets.{holds};

use std::marker::Model;

/// How many actions there are: they are numbered from 0 to 63.
/// An action is a plain number: a type of its own would ask more of callers than a number does.
pub const ACTIONS: u8 = 64;

/// A set of actions. Contracts see it as the number whose binary digit a, from the right, tells
/// whether it holds action a.
#[derive(Clone, Copy, PartialEq, Eq, Debug)]
pub struct ActionSet {
    bits: u64,
}

impl Model for ActionSet {
    ghost use Rattle.std.specs.Prelude.{ℕ};

    ghost Value = { ℕ };

    ghost view = { λ s. s.bits };

    ghost inverse = { λ n. record { bits = n } };
}

impl ActionSet {
    /// The set without any action.
    pub fn empty() -> ActionSet
        ensures { (a : ℕ) → holds result a ≡ false }
    {
        ActionSet { bits: 0 }
    }

    /// The set of all 64 actions.
    pub fn all() -> ActionSet
        ensures { (a : ℕ) → holds result a ≡ nat_lt a 64 }
    {
        ActionSet { bits: u64::MAX }
    }

    /// The set of one action, or, past 63, of none.
    pub fn from_action(action: u8) -> ActionSet
        ensures { (a : ℕ) → holds result a ≡ (nat_lt a 64 && a == action) }
    {
        if action < ACTIONS {
            ActionSet { bits: 1 << action }
        } else {
            ActionSet::empty()
        }
    }

    /// The set with one action more. An action past 63 changes nothing.
    pub fn with(self, action: u8) -> ActionSet
        ensures { (a : ℕ) → holds result a ≡ (holds self a || (nat_lt a 64 && a == action)) }
    {
        self.union(ActionSet::from_action(action))
    }

    /// Whether the set holds an action. It holds none past 63.
    pub fn contains(self, action: u8) -> bool
        ensures { result ≡ holds self action }
    {
        action < ACTIONS && (self.bits >> action) & 1 == 1
    }

    /// The actions that either set holds.
    pub fn union(self, other: ActionSet) -> ActionSet
        ensures { (a : ℕ) → holds result a ≡ (holds self a || holds other a) }
    {
        ActionSet {
            bits: self.bits | other.bits,
        }
    }

    /// The actions that both sets hold.
    pub fn intersection(self, other: ActionSet) -> ActionSet
        ensures { (a : ℕ) → holds result a ≡ (holds self a && holds other a) }
    {
        ActionSet {
            bits: self.bits & other.bits,
        }
    }

    /// The actions up to 63 that the set does not hold.
    pub fn complement(self) -> ActionSet
        ensures { (a : ℕ) → holds result a ≡ (nat_lt a 64 && not (holds self a)) }
    {
        ActionSet { bits: !self.bits }
    }
}
