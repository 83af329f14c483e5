//! The types of objects.

ghost use Rattle.std.specs.Prelude.{◌≡◌, ◌↔◌, ◌∷◌, IsTrue};
ghost use Rattle.object_stream.specs.TypedObject.{type_word};

/// The types of Git's objects.
#[derive(Clone, Copy, Debug, PartialEq, Eq)]
pub enum ObjectType {
    /// A commit.
    Commit,
    /// A directory.
    Tree,
    /// A file.
    Blob,
    /// An annotated tag.
    Tag,
}

impl ObjectType {
    /// Whether it is the same type.
    pub(crate) fn is(self, other: ObjectType) -> bool
        ensures { IsTrue result ↔ (self ≡ other) }
    {
        self == other
    }

    /// The word of the type in the line of an entry, with the space before it and that behind it.
    pub(crate) fn spaced_word(self) -> &'static [u8]
        ensures { result.now ≡ 32 ∷ type_word self }
    {
        match self {
            ObjectType::Commit => b" commit ".as_slice(),
            ObjectType::Tree => b" tree ".as_slice(),
            ObjectType::Blob => b" blob ".as_slice(),
            ObjectType::Tag => b" tag ".as_slice(),
        }
    }
}
