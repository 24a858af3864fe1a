ghost use Rattle.std.specs.Prelude.{◌≡◌, ◌≤◌, length};
ghost use Rattle.ll_links.specs.Links as spec;

/// The number of a value: its place among parameters, phis and results in the order of the text.
#[derive(Clone, Copy, Debug, PartialEq, Eq)]
pub struct ValueId(pub u32);

/// The number of a block: its place in the file.
#[derive(Clone, Copy, Debug, PartialEq, Eq)]
pub struct BlockId(pub u32);

/// A position in the kept order of a function's blocks.
#[derive(Clone, Copy, Debug, PartialEq, Eq)]
pub struct Position(pub u32);

/// What an operand stands for.
#[derive(Clone, Copy, Debug, PartialEq, Eq)]
pub enum Source {
    Value(ValueId),
    Const(u32),
    Poison,
}

/// What an item names and what it gives, by numbers.
#[derive(Clone, Copy)]
pub struct Links<'a> {
    /// Its operands in written order, of a phi those of its entries.
    pub sources: &'a [Source],
    /// The blocks that it names, in written order: the targets of a terminator, of a phi those from which its
    /// operands come.
    pub blocks: &'a [BlockId],
    /// The value that it gives, none for an assume or a terminator.
    pub result: Option<ValueId>,
}

impl<'a> Links<'a> {
    /// What the operand of a phi stands for where the block before on the path is this one: that of the first
    /// entry that names it, `None` where none does. It takes no memory.
    pub fn source_from(&self, from: BlockId) -> Option<Source>
        requires { length self.now.blocks.now ≤ length self.now.sources.now }
        ensures { result ≡ spec.source_beside from.0 self.now.blocks.now self.now.sources.now }
    {
        source_beside(self.blocks, self.sources, from)
    }
}

fn source_beside(blocks: &[BlockId], sources: &[Source], from: BlockId) -> Option<Source>
    requires { length blocks.now ≤ length sources.now }
    ensures { result ≡ spec.source_beside from.0 blocks.now sources.now }
{
    for (at, block) in blocks.iter().enumerate() {
        if block.0 == from.0 {
            return Some(sources[at]);
        }
    }
    None
}
