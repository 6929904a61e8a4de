ghost use Rattle.std.specs.Prelude.{◌≡◌, ◌<◌, length, IfSome};
ghost use Rattle.base.specs.Listing.{action_of};

use crate::bounded_vec::BoundedVec;
use crate::name::Name;
use crate::refusal::Refusal;
use std::marker::Model;

/// The most names that a label list has: tau and 63 others.
pub const MOST_NAMES: usize = 64;

/// A label list: the names of the actions, each at its action's number. Tau is action 0; no name
/// stands twice. Contracts see it as the list of the names.
#[derive(Clone, Copy, PartialEq, Eq, Debug)]
pub struct Labels {
    names: BoundedVec<Name, MOST_NAMES>,
}

impl Model for Labels {
    ghost use Rattle.std.specs.Prelude.{ℕ, List, IsTrue};
    ghost use Rattle.base.specs.Listing.{lawful};

    ghost Value = { List (List ℕ) };

    ghost view = { λ l. l.names };

    ghost invariant = { λ l. IsTrue (lawful l.names) };

    ghost inverse = { λ names. record { names = names } };
}

// The place of the first of the names that is spelled so.
fn place_of(name: &[u8], names: &[Name]) -> Option<usize>
    ensures place { result ≡ action_of name.now names.now }
    ensures within { IfSome result (λ i. i < length names.now) }
{
    names.iter().position(|known| known.is(name))
}

impl Labels {
    ghost use Rattle.std.specs.Prelude.{◌≤◌, IsTrue, false, [], ◌∷◌, codes};
    ghost use Rattle.std.specs.Option.{option_map};
    ghost use Rattle.std.specs.List.{slice_get};
    ghost use Rattle.base.specs.Names.{is_name};
    ghost use Rattle.base.specs.Listing.{lawful, Adds};
    ghost use Rattle.base.specs.Labels.{Lists};

    /// The list of tau alone.
    pub fn new() -> Labels
        ensures { result ≡ codes "tau" ∷ [] }
    {
        Labels {
            names: BoundedVec::from_slice(&[Name::tau()]),
        }
    }

    /// The list of some names, which are added in turn to one of tau alone. It is refused as
    /// crowded where there are more than 63 besides tau.
    pub fn from_names(names: &[Name]) -> Result<Labels, Refusal>
        ensures { Lists names.now result }
    {
        let mut labels = Labels::new();
        for name in names {
            labels.add(*name)?;
        }
        Ok(labels)
    }

    /// The names, tau first.
    pub fn names(&self) -> &[Name]
        ensures names { result.now ≡ self.now }
        ensures lawful { IsTrue (lawful self.now) }
        ensures few { length self.now ≤ 64 }
    {
        self.names.as_slice()
    }

    /// The action that a name stands for.
    pub fn lookup(&self, name: &[u8]) -> Option<u8>
        ensures { result ≡ action_of name.now self.now }
    {
        let place = place_of(name, self.names())?;
        Some(place as u8)
    }

    /// The name of an action.
    pub fn name_of(&self, action: u8) -> Option<&[u8]>
        ensures at { option_map (λ x. x.now) result ≡ slice_get self.now action }
        ensures named { IfSome result (λ x. IsTrue (is_name x.now)) }
    {
        Some(self.names().get(usize::from(action))?.as_bytes())
    }

    /// How many names there are, tau among them.
    pub fn len(&self) -> usize
        ensures names { result ≡ length self.now }
        ensures some { 1 ≤ result }
        ensures few { result ≤ 64 }
    {
        self.names().len()
    }

    /// Whether there is no name, which never is so.
    pub fn is_empty(&self) -> bool
        ensures { result ≡ false }
    {
        self.names().is_empty()
    }

    /// The action of a name, which is put at the end if it stands for none. It is refused as
    /// crowded, and nothing altered, where it stands for none and there are 64 names already.
    pub fn add(&mut self, name: Name) -> Result<u8, Refusal>
        ensures { Adds name self.old self.new result }
    {
        if let Some(action) = self.lookup(name.as_bytes()) {
            return Ok(action);
        }
        let action = self.len();
        self.names.push(name).ok_or(Refusal::Crowded)?;
        Ok(action as u8)
    }
}
