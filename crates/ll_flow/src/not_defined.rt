ghost use Rattle.std.specs.Prelude.{◌≡◌, ◌<◌, map, IfOk, MatchOption, is_some};
ghost use Rattle.ll_rules.specs.Items.{labels_of, parts_of, values_of};
ghost use Rattle.ll_rules.specs.Limits.{KeepsLimits};
ghost use Rattle.ll_items.specs.Sites.{sites_of};
ghost use Rattle.name_table.specs.Names.{AreDifferent};
ghost use Rattle.ll_item_rules.specs.First.{NoneFails};
ghost use Rattle.ll_item_rules.specs.Lacking.{lacking_name};
ghost use Rattle.ll_flow.specs.Paths.{IsFlowOf};
ghost use Rattle.ll_flow.specs.Uses.{AllDefined, IsFault, uses_of};
ghost use Rattle.ll_flow.specs.Found.{AreUses, FindsFirst};

use crate::graph::{Labels, labels_at};
use crate::homes::homes_of;
use crate::uses::{Undefined, Uses, first_in_sites};
use flow_rules::Flow;
use ll_item_rules::ValueTable;
use ll_items::{SiteRef, Sites};
use ll_tree::Func;
use name_table::NameTable;
use std::alloc::Global;
use wx_base::{Name, NoMemory};

/// A name that isn't defined on every path to its use.
#[derive(Drop)]
pub struct NotDefined<'a> {
    /// The item that names it.
    pub site: SiteRef<'a>,
    pub name: Name,
    /// The labels of a path to the use on which no definition of the name stands. Which path is given is free.
    pub path: Labels,
}

/// The first use, in the order of the text, whose name isn't defined on every path to it; `None` exactly
/// where all are. A phi uses a value of an entry where the block that the entry names is left.
pub fn first_undefined<'a>(
    alloc: Global,
    func: &Func,
    flow: &Flow,
    sites: &Sites<'a>,
    values: &ValueTable,
    labels: &NameTable,
) -> Result<Option<NotDefined<'a>>, NoMemory>
    requires keeps { KeepsLimits func.now }
    requires flow { IsFlowOf func.now flow.now }
    requires sites { sites.now ≡ sites_of func.now }
    requires values { values.now ≡ values_of func.now }
    requires labels { labels.now ≡ labels_of func.now }
    requires different_values { AreDifferent (map (λ value. value.0) (values_of func.now)) }
    requires different_labels { AreDifferent (labels_of func.now) }
    requires named { NoneFails
        (λ site. is_some (lacking_name values.now labels.now (parts_of site.what))) sites.now }
    ensures { IfOk result (λ found. MatchOption found (AllDefined func.now) (IsFault func.now)) }
{
    let homes = homes_of(alloc, func, sites)?;
    let uses = Uses {
        func,
        flow,
        homes: homes.items(),
        values,
        labels,
    };
    match first_in_sites(alloc, &uses, sites.items())? {
        Some(found) => {
            let fault = with_path(alloc, &uses, &found)?;
            Ok(Some(fault))
        }
        None => Ok(None),
    }
}

fn with_path<'a>(
    alloc: Global,
    uses: &Uses,
    found: &Undefined<'a>,
) -> Result<NotDefined<'a>, NoMemory>
    requires tables { AreUses uses.now }
    requires found { FindsFirst uses.now (uses_of uses.now.func.now) found.now }
    ensures { IfOk result (IsFault uses.now.func.now) }
{
    let places = uses.flow.path_around(alloc, &found.it)?;
    let path = labels_at(alloc, uses.func, places.items())?;
    let name = Name::new(alloc, found.name.bytes())?;
    Ok(NotDefined {
        site: found.site,
        name,
        path,
    })
}
