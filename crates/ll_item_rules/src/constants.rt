ghost use Rattle.std.specs.Prelude.{◌≡◌, not};
ghost use Rattle.ll_items.specs.Sites.{item_of};
ghost use Rattle.ll_item_rules.specs.Constants as spec;

use crate::SiteTest;
use ll_items::{ItemRef, PartRef, SiteRef};
use ll_rules::{has_divisor, is_linear};
use std::alloc::Global;
use wx_base::NoMemory;

/// The rule that products, shifts and divisions have constants where they have to stand.
#[derive(Clone, Copy)]
pub struct NotLinear;

impl SiteTest for NotLinear {
    ghost fails = { λ test site. spec.is_not_linear site.what };

    fn fails(&self, _alloc: Global, site: SiteRef, _parts: &[PartRef]) -> Result<bool, NoMemory> {
        match site.what {
            ItemRef::Instr(instr) => Ok(!is_linear(&instr.op)),
            ItemRef::Phi(_) | ItemRef::End(_) => Ok(false),
        }
    }
}

/// The rule that no constant divisor is 0, `poison` or, where it is signed, -1.
#[derive(Clone, Copy)]
pub struct BadDivisor;

impl SiteTest for BadDivisor {
    ghost fails = { λ test site. spec.has_bad_divisor site.what };

    fn fails(&self, _alloc: Global, site: SiteRef, _parts: &[PartRef]) -> Result<bool, NoMemory> {
        match site.what {
            ItemRef::Instr(instr) => Ok(!has_divisor(&instr.op)),
            ItemRef::Phi(_) | ItemRef::End(_) => Ok(false),
        }
    }
}
