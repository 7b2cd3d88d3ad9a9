//! Where a line stands.

/// What the lines before a line leave open.
#[derive(Clone, Copy, Debug, PartialEq, Eq)]
pub enum Place {
    /// Nothing.
    Outside,
    /// A run of commands outside a block, which the next command outside a block goes on with.
    Run,
    /// A block of so many actors.
    Block { actors: u16 },
}

impl Place {
    ghost use Rattle.std.specs.Prelude.{◌≡◌, MatchOption, true, false, unwrap_or};
    ghost use Rattle.scen_text.specs.Lines.{place_after};
    ghost use Rattle.scen_text.specs.Refusals.{is_block, is_misplaced};

    /// Whether a block is open.
    pub fn is_block(self) -> bool
        ensures { result ≡ is_block self }
    {
        matches!(self, Place::Block { .. })
    }

    /// Where the line behind a command that stands here stands.
    pub fn after(self) -> Place
        ensures { result ≡ place_after self }
    {
        match self {
            Place::Outside => Place::Run,
            place => place,
        }
    }

    /// The actor of a command that stands here behind this `@K` or none, where it may stand here.
    pub fn actor(self, actor: Option<u64>) -> Option<u16>
        ensures { MatchOption result (is_misplaced self actor ≡ true)
            (λ k. (is_misplaced self actor ≡ false) × (k ≡ unwrap_or actor 0)) }
    {
        match (self, actor) {
            (Place::Block { actors }, Some(actor)) => {
                if actor < u64::from(actors) {
                    Some(actor as u16)
                } else {
                    None
                }
            }
            (Place::Block { .. }, None) => None,
            (_, Some(_)) => None,
            (_, None) => Some(0),
        }
    }
}
