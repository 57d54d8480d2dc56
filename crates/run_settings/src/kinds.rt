//! Lists of kinds of analyses.
ghost use Rattle.std.specs.Prelude.{◌≡◌, ◌<◌, ◌≤◌, ◌↔◌, IsTrue, List, [], ◌∷◌, ◌++◌, length, slice_get, slice_index_or, Some};
ghost use Rattle.std.specs.List.{Contains};
ghost use Rattle.run_settings.specs.Kinds.{EachOnce, has_kind};

use run_events::Kind;
use std::marker::Model;

/// Kinds of analyses in an order, each at most once. They lie in the value itself, so that no call takes memory.
#[derive(Clone, Copy, Debug, PartialEq, Eq)]
pub struct Kinds {
    places: [Kind; 5],
    used: u32,
}

impl Model for Kinds {
    ghost use Rattle.std.specs.Prelude.{List};
    ghost use Rattle.run_events.specs.declared.finding.Kind.{Kind};

    ghost Value = { List Kind };

    ghost use Rattle.run_settings.specs.KindPlaces.{IsKept, seen_in, places_of, places_again};

    ghost view = { seen_in };

    ghost invariant = { λ k. IsKept k.used k.places };

    ghost inverse = { places_of };

    ghost inverse_ok = { places_again };
}

impl Kinds {
    /// None yet.
    pub fn new() -> Kinds
        ensures { result ≡ [] }
    {
        Kinds {
            places: [Kind::Heap; 5],
            used: 0,
        }
    }

    /// Puts a kind after the others. There is room for each kind that is not among them.
    pub fn add(&mut self, kind: Kind)
        requires { ¬ Contains self.old kind }
        ensures { self.new ≡ self.old ++ kind ∷ [] }
    {
        self.places[self.used as usize] = kind;
        self.used += 1;
    }

    /// How many there are.
    pub fn len(&self) -> u32
        ensures number { result ≡ length self.now }
        ensures most { length self.now ≤ 5 }
        ensures once { EachOnce self.now }
    {
        self.used
    }

    /// Whether there is none.
    pub fn is_empty(&self) -> bool
        ensures { IsTrue result ↔ (self.now ≡ []) }
    {
        self.used == 0
    }

    /// The kind at an index below the number of them.
    pub fn get(&self, index: u32) -> Kind
        requires { index < length self.now }
        ensures found { slice_get self.now index ≡ Some result }
        ensures at { result ≡ slice_index_or self.now index result }
    {
        self.places[index as usize]
    }

    /// Whether a kind is among them.
    #[tactic(auto, using(crate::proofs::KindLaws::tells_kind))]
    pub fn contains(&self, kind: Kind) -> bool
        ensures test { IsTrue result ↔ Contains self.now kind }
        ensures value { result ≡ has_kind self.now kind }
    {
        self.places[..self.used as usize].contains(&kind)
    }
}
