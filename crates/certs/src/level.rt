// Lower bounds on values.
ghost use Rattle.std.specs.Prelude.{◌≡◌};
ghost use Rattle.certs.specs.Levels.{cap_level, level_le};
ghost use Rattle.certs.specs.Levels as spec;

/// A lower bound on the values of points, or the proof that there is no point: `Inf` is above every
/// number. Values are to be minimised.
#[derive(Clone, Copy, Debug, PartialEq, Eq, PartialOrd, Ord)]
pub enum Level {
    Value(i64),
    Inf,
}

impl Level {
    /// Whether the level is at most another one. `<=` is the same order.
    pub fn is_at_most(self, other: Level) -> bool
        ensures { result ≡ level_le self other }
    {
        self <= other
    }

    /// The greater of two levels.
    pub fn greater_level(self, other: Level) -> Level
        ensures { result ≡ spec.greater_level self other }
    {
        if self.is_at_most(other) { other } else { self }
    }

    /// The lesser of two levels.
    pub fn lesser_level(self, other: Level) -> Level
        ensures { result ≡ spec.lesser_level self other }
    {
        if self.is_at_most(other) { self } else { other }
    }

    /// Whether the level reaches a cap, a value that is to be undercut: no point of a box with this level
    /// has a value below the cap. A cap that isn't there is above every number.
    pub fn reaches(self, cap: Option<i64>) -> bool
        ensures { result ≡ level_le (cap_level cap) self }
    {
        match cap {
            Some(value) => Level::Value(value).is_at_most(self),
            None => self == Level::Inf,
        }
    }
}
