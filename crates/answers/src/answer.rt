//! The first id that is missing, or what is known of all commits.

ghost use Rattle.std.specs.Prelude.{◌≡◌};
ghost use Rattle.answers.specs.FoundOf.{missing_in};

/// What is found of the commits with some ids.
#[derive(Debug, Drop)]
pub enum Answer<A> {
    /// The id with this number is not in the graph, and those before it are. The first id has the
    /// number 1.
    Unknown(u64),
    /// All of them are, and this is the answer.
    Known(A),
}

impl<A> Answer<A> {
    /// The number of the first id that is missing, if one is.
    pub fn missing(&self) -> Option<u64>
        ensures { result ≡ missing_in self.now }
    {
        match self {
            Answer::Unknown(number) => Some(*number),
            Answer::Known(_) => None,
        }
    }
}
