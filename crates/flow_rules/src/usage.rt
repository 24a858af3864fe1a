ghost use Rattle.std.specs.Prelude.{◌↔◌, IsTrue};
ghost use Rattle.flow_rules.specs.Paths.{IsOwn};

/// A use of a value: in which block the value is given, and where it is used.
#[derive(Clone, Copy, Debug, PartialEq, Eq)]
pub struct Use {
    /// The place of the block that gives the value.
    pub definition: u32,
    /// The place of the block of the use: that of the item, or, for an entry of a phi, the predecessor that
    /// the entry names.
    pub block: u32,
    /// Whether the value comes before the use where both lie in that block. It does for an entry of a phi,
    /// which is used behind all items of the predecessor.
    pub comes_first: bool,
}

impl Use {
    // Whether the value comes before the use in the use's own block.
    pub(crate) fn is_own(&self) -> bool
        ensures { IsTrue result ↔ IsOwn self.now }
    {
        self.comes_first && self.block == self.definition
    }
}
