//! Two trees side by side.

ghost use Rattle.std.specs.Prelude.{◌≡◌, ◌≤◌, ◌-◌, length};

/// The bytes of two trees, and where the entries begin that are left of each.
#[derive(Drop)]
pub(crate) struct Level {
    pub(crate) old: Vec<u8>,
    pub(crate) new: Vec<u8>,
    pub(crate) old_at: usize,
    pub(crate) new_at: usize,
    /// How many bytes of the path lead to these trees.
    pub(crate) prefix: usize,
    ghost old_in: { old_at ≤ length old.items },
    ghost new_in: { new_at ≤ length new.items },
}

impl Level {
    /// The same trees, with so many bytes left of each.
    pub(crate) fn with_left(mut self, old_left: usize, new_left: usize) -> Level
        requires old { old_left ≤ length self.old.items }
        requires new { new_left ≤ length self.new.items }
        ensures old { result.old.items ≡ self.old.items }
        ensures new { result.new.items ≡ self.new.items }
        ensures old_at { result.old_at ≡ length self.old.items - old_left }
        ensures new_at { result.new_at ≡ length self.new.items - new_left }
        ensures prefix { result.prefix ≡ self.prefix }
    {
        self.old_at = self.old.len() - old_left;
        self.new_at = self.new.len() - new_left;
        self
    }
}
