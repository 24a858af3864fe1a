use ll_flow::Labels;
use ll_rules::TooMany;
use ll_tree::Func;
use wx_base::Name;

/// Where an item stands: the label of its block, and how many phis and instructions of the block stand
/// before it.
#[derive(Debug, Drop)]
pub struct Spot {
    pub block: Name,
    pub item: u32,
}

/// The first rule that a function breaks, in the order of these variants, and the first place in the file.
#[derive(Debug, Drop)]
pub enum VerifyFault {
    /// A limit is exceeded.
    TooMany(TooMany),
    /// Two of the parameters, labels and results have this name. Of several such names it is the one whose
    /// second place comes first.
    NameTwice { name: Name },
    /// An operand names no value, or a label no block. Of several in one item it is the first in written
    /// order.
    NoSuchName { name: Name, at: Spot },
    /// An operand, a case or a return has another width than is written, or a conversion doesn't convert.
    TypeDiffers { at: Spot },
    /// A switch has the number twice. Of several such numbers it is the one whose second place comes first.
    DuplicateCase { at: Spot, value: u32 },
    /// A product of two values, or a shift or a division by a value.
    NotLinear { at: Spot },
    /// A division by 0, by `poison` or, where it is signed, by -1.
    BadDivisor { at: Spot },
    /// A phi has another count of entries for a block than the block has targets that are the phi's block,
    /// or two entries for it hold different operands.
    PhiEntries { at: Spot },
    /// Each of these blocks has an edge to the next and the last to the first, which has the least place. Which
    /// cycle is given is free.
    Loop { cycle: Labels },
    /// No path from the entry reaches the block.
    Unreached { block: Name },
    /// The path goes from the entry to the block of the use, for a phi to the block that its entry names, and
    /// no definition of the name stands on it before the use. Of several names in one item it is the first
    /// in written order. Which path is given is free.
    NotDefined { at: Spot, name: Name, path: Labels },
    /// Memory was wanting. No rule is broken by it.
    NoMemory,
}

/// A function that was refused, as it came, and why.
#[derive(Debug, Drop)]
pub struct Rejected {
    pub func: Func,
    pub fault: VerifyFault,
}
