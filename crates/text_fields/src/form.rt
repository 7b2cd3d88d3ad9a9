//! The form of the fields behind a word.

ghost use Rattle.std.specs.Prelude.{◌≡◌, ℕ, ◌<◌, slice_get};
ghost use Rattle.text_fields.specs.Forms.{has_count, kinds_for, may_follow, rest_kind};

use crate::kind::Kind;
use std::marker::Model;

/// What may follow the kinds of a form.
#[derive(Clone, Copy, Debug)]
pub enum Rest {
    /// No more fields.
    Nothing,
    /// At most one field of this kind.
    Optional(Kind),
    /// At least one field of this kind.
    Repeated(Kind),
}

/// The kinds of the fields behind a word, and what may follow them.
#[derive(Drop, Debug)]
pub struct Form {
    kinds: &'static [Kind],
    rest: Rest,
}

impl Model for Form {
    ghost use Rattle.text_fields.specs.FormData.{Form as FormValue};

    ghost Value = { FormValue };

    ghost view = { λ f. record { kinds = f.kinds.now; rest = f.rest } };
}

impl Form {
    /// The form of these kinds, with these to follow.
    pub fn new(kinds: &'static [Kind], rest: Rest) -> Form
        ensures kinds { result.kinds ≡ kinds.now }
        ensures rest { result.rest ≡ rest }
    {
        Form { kinds, rest }
    }

    /// Whether it has so many fields.
    pub fn has_count(&self, count: usize) -> bool
        ensures { result ≡ has_count self.now count }
    {
        if count < self.kinds.len() {
            return false;
        }
        self.rest.may_follow(count - self.kinds.len())
    }

    /// The kind of the field at this place, where there is one.
    pub fn kind_at(&self, at: usize) -> Option<Kind>
        ensures { (count : ℕ) → at < count → slice_get (kinds_for self.now count) at ≡ result }
    {
        if at < self.kinds.len() {
            return Some(self.kinds[at]);
        }
        self.rest.kind()
    }
}

impl Rest {
    // Whether so many fields may follow.
    fn may_follow(self, more: usize) -> bool
        ensures { result ≡ may_follow self more }
    {
        match self {
            Rest::Nothing => more == 0,
            Rest::Optional(_) => more <= 1,
            Rest::Repeated(_) => 1 <= more,
        }
    }

    // The kind of what follows, where something may.
    fn kind(self) -> Option<Kind>
        ensures { result ≡ rest_kind self }
    {
        match self {
            Rest::Nothing => None,
            Rest::Optional(kind) | Rest::Repeated(kind) => Some(kind),
        }
    }
}
