ghost use Rattle.std.specs.Prelude.{◌≡◌, IfOk, length};

use mix_system::{Lit, Part, Side, System, Term};
use std::alloc::Global;
use wx_base::NoMemory;

// Three variables in 0 .. 0, 1 .. 1 and 0 .. 1, and two rows of three times the last, the first of
// which is the cost. The last is at least 1, and at most 0 where it is said to be contrary.
pub fn system_of_three(alloc: Global, contrary: bool) -> Result<System, NoMemory>
    ensures { IfOk result (λ system. length system.rows ≡ 2) }
{
    let mut system = System::new(alloc);
    system.add_var(0, 0)?;
    system.add_var(1, 1)?;
    system.add_var(0, 1)?;
    system.add_row(&[Part { coeff: 3, var: 2 }])?;
    system.add_row(&[Part { coeff: 3, var: 2 }])?;
    let last = |side, bound| Lit {
        term: Term::Var(2),
        side,
        bound,
    };
    system.add_clause(&[last(Side::Ge, 1)])?;
    if contrary {
        system.add_clause(&[last(Side::Le, 0)])?;
    }
    Ok(system)
}
