ghost use Rattle.std.specs.Prelude.{◌≡◌, ◌≢◌, ◌↔◌, ℕ, List};
ghost use Rattle.flow_graph.specs.Paths.{HasEdge};
ghost use Rattle.flow_graph.specs.Sorted.{AreSorted};
ghost use Rattle.ll_tree.specs.declared.func.Func.{Func};
ghost use Rattle.ll_rules.specs.Items.{labels_of};
ghost use Rattle.ll_edges.specs.Graph.{LeadsTo};
ghost use Rattle.ll_verifier.specs.Rules.{Rules};
ghost use Rattle.cost_table.specs.Table.{CostLists};
ghost use Rattle.cost_table.specs.declared.costs.CostFault.{CostFault};
ghost use Rattle.cost_table.specs.declared.costs.CostFault.TheVariants as faults;
ghost use Rattle.sound_costs.specs.Edges.{edges_of};
ghost use Rattle.sound_costs.specs.Costs.{IsTableOf, IsCauseOf};

/// The edges of a function are sorted, each once, and there is one between two places exactly where
/// the block at the first has the label of the block at the second as a target.
pub fn edges_lead()
    ensures sorted { (func : Func) → AreSorted (edges_of func) }
    ensures lead { (func : Func) → Rules func → (from to : ℕ)
        → HasEdge (edges_of func) from to ↔ LeadsTo (labels_of func) func.blocks from to }
{}

/// A text is a table of one list of costs of a function at most, has one fault at most, and not
/// both.
pub fn one_table()
    ensures one { (text : List ℕ) (func : Func) → Rules func → (lists others : CostLists)
        → IsTableOf text func lists → IsTableOf text func others → lists ≡ others }
    ensures one_fault { (text : List ℕ) (func : Func) → Rules func → (cause other : CostFault)
        → cause ≢ faults.NoMemory → other ≢ faults.NoMemory
        → IsCauseOf text func cause → IsCauseOf text func other → cause ≡ other }
    ensures not_both { (text : List ℕ) (func : Func) → Rules func
        → (lists : CostLists) (cause : CostFault)
        → IsTableOf text func lists → IsCauseOf text func cause → cause ≡ faults.NoMemory }
{}
