ghost use Rattle.std.specs.Prelude.{◌≡◌, ◌<◌, ◌^◌, ◌∷◌, [], length, slice_get, OnOk};
ghost use Rattle.std.specs.List.{flat_map};
ghost use Rattle.ll_links.specs.Links.{end_operands};
ghost use Rattle.ir_constants.specs.Constants.{with_operand, with_operands};
ghost use Rattle.ir_constants.specs.Constants as spec;
ghost use Rattle.ir_constants.specs.Counted.{counted, counted_of, counted_in, entries_of};

use indexmap::IndexSet;
use ll_tree::{BinKind, Block, End, Instr, Op, Operand, Phi};
use std::alloc::Global;
use std::marker::Model;
use wx_base::NoMemory;

/// Constants that have a variable of their own, in the order of their first use.
#[derive(Drop)]
pub struct Constants {
    numbers: IndexSet<u32>,
}

impl Model for Constants {
    ghost use Rattle.std.specs.Prelude.{List, ℕ};

    ghost Value = { List ℕ };

    ghost view = { λ it. it.numbers.keys };
}

impl Constants {
    /// None. It takes no memory.
    pub fn new(alloc: Global) -> Constants
        ensures { result ≡ [] }
    {
        Constants {
            numbers: IndexSet::new(alloc),
        }
    }

    /// Adds the constants of a block: of its phis' entries and its operands as written, the terminator last.
    /// The factor of a product, the amount of a shift and a divisor are not among them.
    ///
    /// After want of memory some of them may be there.
    pub fn add_block(&mut self, block: &Block) -> Result<(), NoMemory>
        ensures { OnOk result (self.new ≡ with_operands self.old (counted_in block.now)) }
    {
        self.add_phis(block.phis.items())?;
        self.add_body(block.body.items())?;
        self.add_end(&block.end)
    }

    fn add_phis(&mut self, phis: &[Phi]) -> Result<(), NoMemory>
        ensures { OnOk result (self.new ≡ with_operands self.old (flat_map entries_of phis.now)) }
    {
        for phi in phis {
            self.add_entries(phi)?;
        }
        Ok(())
    }

    fn add_entries(&mut self, phi: &Phi) -> Result<(), NoMemory>
        ensures { OnOk result (self.new ≡ with_operands self.old (entries_of phi.now)) }
    {
        for entry in phi.entries.items() {
            self.add(&entry.value)?;
        }
        Ok(())
    }

    fn add_body(&mut self, body: &[Instr]) -> Result<(), NoMemory>
        ensures { OnOk result (self.new
            ≡ with_operands self.old (flat_map (λ instr. counted instr.op) body.now)) }
    {
        for instr in body {
            self.add_op(&instr.op)?;
        }
        Ok(())
    }

    fn add_op(&mut self, op: &Op) -> Result<(), NoMemory>
        ensures { OnOk result (self.new ≡ with_operands self.old (counted op.now)) }
    {
        match op {
            Op::Bin {
                kind,
                left,
                right,
                ..
            } => self.add_bin(*kind, left, right),
            Op::Cmp { left, right, .. } => self.add_both(left, right),
            Op::Cast { arg, .. } => self.add(arg),
            Op::Select { cond, yes, no, .. } => {
                self.add(cond)?;
                self.add_both(yes, no)
            }
            Op::Abs { arg, .. } => self.add(arg),
            Op::Assume { cond } => self.add(cond),
        }
    }

    fn add_bin(&mut self, kind: BinKind, left: &Operand, right: &Operand) -> Result<(), NoMemory>
        ensures { OnOk result (self.new
            ≡ with_operands self.old (counted_of kind left.now right.now)) }
    {
        match kind {
            BinKind::Mul => self.add_unfactored(left, right),
            BinKind::Shl
            | BinKind::Lshr
            | BinKind::Ashr
            | BinKind::Udiv
            | BinKind::Sdiv
            | BinKind::Urem
            | BinKind::Srem => self.add(left),
            BinKind::Add
            | BinKind::Sub
            | BinKind::And
            | BinKind::Or
            | BinKind::Xor
            | BinKind::Smin
            | BinKind::Smax
            | BinKind::Umin
            | BinKind::Umax => self.add_both(left, right),
        }
    }

    // Of two factors the one that isn't the constant.
    fn add_unfactored(&mut self, left: &Operand, right: &Operand) -> Result<(), NoMemory>
        ensures { OnOk result (self.new
            ≡ with_operands self.old (counted_of BinKind.Mul left.now right.now)) }
    {
        match right {
            Operand::Name(_) => self.add(right),
            Operand::Const(_) => self.add(left),
            Operand::Poison => self.add(left),
        }
    }

    fn add_both(&mut self, left: &Operand, right: &Operand) -> Result<(), NoMemory>
        ensures { OnOk result (self.new ≡ with_operands self.old (left.now ∷ right.now ∷ [])) }
    {
        self.add(left)?;
        self.add(right)
    }

    fn add_end(&mut self, end: &End) -> Result<(), NoMemory>
        ensures { OnOk result (self.new ≡ with_operands self.old (end_operands end.now)) }
    {
        match end {
            End::Ret { value, .. } => self.add(value),
            End::CondBr { cond, .. } => self.add(cond),
            End::Switch { value, .. } => self.add(value),
            End::RetVoid => Ok(()),
            End::Br { .. } => Ok(()),
            End::Unreachable => Ok(()),
        }
    }

    // Adds an operand that is a constant other than 0 and 1, unless it is there.
    fn add(&mut self, operand: &Operand) -> Result<(), NoMemory>
        ensures { OnOk result (self.new ≡ with_operand self.old operand.now) }
    {
        match operand {
            Operand::Name(_) => Ok(()),
            Operand::Const(number) => self.add_number(*number),
            Operand::Poison => Ok(()),
        }
    }

    fn add_number(&mut self, number: u32) -> Result<(), NoMemory>
        ensures { OnOk result (self.new ≡ spec.with_number self.old number) }
    {
        if number > 1 {
            self.numbers.insert(number)?;
        }
        Ok(())
    }

    /// How many there are.
    pub fn len(&self) -> usize
        ensures { result ≡ length self.now }
    {
        self.numbers.len()
    }

    /// The constant at a place, `None` exactly past the end.
    pub fn get(&self, at: usize) -> Option<u32>
        ensures { result ≡ slice_get self.now at }
    {
        self.numbers.get_index(at).copied()
    }

    /// The variable of a constant: those of 0 and 1 are the first two, and the others follow in their order.
    /// It is 0 where the constant has none. It takes no memory and constant time.
    pub fn var_of(&self, number: u32) -> u32
        requires { length self.now < 2 ^ 31 }
        ensures { result ≡ spec.constant_var self.now number }
    {
        if number <= 1 {
            return number;
        }
        match self.numbers.get_index_of(&number) {
            Some(at) => at as u32 + 2,
            None => 0,
        }
    }
}
