ghost use Rattle.std.specs.Prelude.{◌≡◌, ◌↔◌, ◌<◌, length, IsTrue, Contains, IfOk, OnOk, All};
ghost use Rattle.mix_system.specs.Calm.{IsCalm};
ghost use Rattle.proof_term.specs.Steps.{NamesTerm, NodeNames};
ghost use Rattle.level_search.specs.Kept.{IsKept};
ghost use Rattle.level_theories.specs.Theory.{IsExact, NodeIsExact, IsCovered, NodeIsCovered, AreExcluded, HasMore};

use level_search::LevelSearch;
use mix_system::{FarkasPart, Lit, Lits};
use proof_term::Node;
use std::alloc::Global;
use wx_base::NoMemory;

/// The negations of the literals that the leaves take from the trail, but for those that the level's
/// bounds say.
pub(crate) fn excluded(
    level: &LevelSearch<'_>,
    alloc: Global,
    nodes: &[Node],
) -> Result<Lits, NoMemory>
    requires kept { IsKept level.now }
    requires calm { IsCalm level.now.system.now }
    requires names { All (NodeNames level.now.system.now) nodes.now }
    requires exact { All (NodeIsExact level.now.search) nodes.now }
    ensures lits { IfOk result (AreExcluded level.now) }
    ensures covered { IfOk result (λ lits. All (NodeIsCovered level.now lits) nodes.now) }
{
    let mut lits = Lits::new(alloc);
    for at in 0..nodes.len() {
        exclude_node(level, &nodes[at], &mut lits)?;
    }
    Ok(lits)
}

// Adds what a leaf takes.
fn exclude_node(level: &LevelSearch<'_>, node: &Node, lits: &mut Lits) -> Result<(), NoMemory>
    requires kept { IsKept level.now }
    requires calm { IsCalm level.now.system.now }
    requires names { NodeNames level.now.system.now node.now }
    requires exact { NodeIsExact level.now.search node.now }
    requires lits { AreExcluded level.now lits.old }
    ensures lits { OnOk result (AreExcluded level.now lits.new) }
    ensures more { OnOk result (HasMore lits.old lits.new) }
    ensures covered { OnOk result (NodeIsCovered level.now lits.new node.now) }
{
    let Node::Leaf(farkas) = node else {
        return Ok(());
    };
    exclude_parts(level, farkas.parts.items(), lits)?;
    Ok(())
}

fn exclude_parts(
    level: &LevelSearch<'_>,
    parts: &[FarkasPart],
    lits: &mut Lits,
) -> Result<(), NoMemory>
    requires kept { IsKept level.now }
    requires calm { IsCalm level.now.system.now }
    requires names { All (λ part. NamesTerm level.now.system.now part.lit) parts.now }
    requires exact { All (λ part. IsExact level.now.search part.lit) parts.now }
    requires lits { AreExcluded level.now lits.old }
    ensures lits { OnOk result (AreExcluded level.now lits.new) }
    ensures more { OnOk result (HasMore lits.old lits.new) }
    ensures covered { OnOk result
        (All (λ part. IsCovered level.now lits.new part.lit) parts.now) }
{
    for at in 0..parts.len() {
        exclude_lit(level, parts[at].lit, lits)?;
    }
    Ok(())
}

// Adds the negation of a literal that is true on the trail, where the level's bounds don't say it.
fn exclude_lit(level: &LevelSearch<'_>, lit: Lit, lits: &mut Lits) -> Result<(), NoMemory>
    requires kept { IsKept level.now }
    requires calm { IsCalm level.now.system.now }
    requires term { NamesTerm level.now.system.now lit }
    requires exact { IsExact level.now.search lit }
    requires lits { AreExcluded level.now lits.old }
    ensures lits { OnOk result (AreExcluded level.now lits.new) }
    ensures more { OnOk result (HasMore lits.old lits.new) }
    ensures covered { OnOk result (IsCovered level.now lits.new lit) }
{
    if !level.search.is_true(&lit) {
        return Ok(());
    }
    if level.says(lit) {
        return Ok(());
    }
    let negation = lit.negation();
    if has(lits.items(), negation) {
        return Ok(());
    }
    lits.push(negation)?;
    Ok(())
}

// Whether a literal is in a list.
fn has(lits: &[Lit], lit: Lit) -> bool
    ensures { IsTrue result ↔ Contains lits.now lit }
{
    lits.contains(&lit)
}
