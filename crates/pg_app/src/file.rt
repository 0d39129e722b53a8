//! What the files of commands are of. What is promised is the most bytes that each may have.

ghost use Rattle.std.specs.Prelude.{◌≡◌};
ghost use Rattle.pg_app.specs.File.{longest};

/// What a file is of.
#[derive(Clone, Copy, Debug, PartialEq, Eq)]
pub enum Kind {
    /// The text of an outline.
    Outline,
    /// The text of a derivation.
    Derivation,
    /// The text of a schedule.
    Schedule,
}

impl Kind {
    /// The most bytes that a file of this kind may have.
    pub fn limit(self) -> u64
        ensures { result ≡ longest self }
    {
        match self {
            Kind::Outline => 1_048_576,
            Kind::Derivation => 67_108_864,
            Kind::Schedule => 4_194_304,
        }
    }
}
