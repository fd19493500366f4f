// What was done to objects as wholes.
ghost use Rattle.std.specs.Prelude.{◌≡◌};
ghost use Rattle.footprint.specs.States.{either, not_alive};
ghost use Rattle.footprint.specs.Meets.{states_conflict, states_meet};

/// What was done to an object as a whole.
#[derive(Clone, Copy, PartialEq, Eq)]
pub struct State {
    pub born: bool,
    pub dies: bool,
    pub alive: bool,
    pub expose: bool,
}

impl State {
    pub const NONE: State = State {
        born: false,
        dies: false,
        alive: false,
        expose: false,
    };

    /// What either says.
    pub fn or(self, other: State) -> State
        ensures { result ≡ either self other }
    {
        State {
            born: self.born || other.born,
            dies: self.dies || other.dies,
            alive: self.alive || other.alive,
            expose: self.expose || other.expose,
        }
    }

    /// Without `alive`.
    pub fn without_alive(self) -> State
        ensures { result ≡ not_alive self }
    {
        State {
            alive: false,
            ..self
        }
    }

    /// Whether something done to one object here conflicts with something there: born with alive or expose, dies with
    /// alive, born or dies.
    pub fn conflicts(self, other: State) -> bool
        ensures { result ≡ states_conflict self other }
    {
        self.meets(other) || other.meets(self)
    }

    fn meets(self, other: State) -> bool
        ensures { result ≡ states_meet self other }
    {
        (self.born && (other.alive || other.expose))
            || (self.dies && (other.alive || (other.born || other.dies)))
    }
}
