ghost use Rattle.std.specs.Prelude.{◌≡◌, ◌<◌, ℕ, length, slice_index_or, Some};
ghost use Rattle.ll_tree.specs.declared.func.Func.{Func};
ghost use Rattle.ll_tree.specs.declared.func.Param.{Param};
ghost use Rattle.ll_rules.specs.Items.{values_of};
ghost use Rattle.ll_links.specs.Links.{number_of, value_id};
ghost use Rattle.ll_verifier.specs.declared.fault.VerifyFault.{VerifyFault};
ghost use Rattle.ll_verifier.specs.Answer.{pinned};
ghost use Rattle.ll_verifier.specs.Rules.{Breaks, Rules};

/// A function that keeps all rules has no fault, and one that breaks some has one: two faults of it are the
/// same but for which cycle or path they give.
pub fn one_answer()
    ensures refused { (func : Func) (fault : VerifyFault) → Breaks func fault → ¬ Rules func }
    ensures one { (func : Func) (fault other : VerifyFault)
        → Breaks func fault → Breaks func other → pinned fault ≡ pinned other }
{}

/// Parameters are the first values: the number of one is its place.
pub fn parameters_first()
    ensures { (func : Func) (place : ℕ) (param : Param) → Rules func → place < length func.params
        → number_of (values_of func) (slice_index_or func.params place param).name
        ≡ Some (value_id place) }
{}
