ghost use Rattle.std.specs.Prelude.{◌≡◌, ℕ, List, None};
ghost use Rattle.wx_base.specs.Args.{AreArguments};
ghost use Rattle.ll_tree.specs.declared.func.Func.{Func};
ghost use Rattle.ll_verifier.specs.Rules.{Rules};
ghost use Rattle.ir_runs.specs.declared.run_end.RunEnd.{RunEnd};
ghost use Rattle.ir_runs.specs.Answer.{IsAnswer};
ghost use Rattle.ir_runs.specs.Costs.{LabelCosts};
ghost use Rattle.ir_runs.specs.Fit.{AllFit};
ghost use Rattle.ir_runs.specs.Operands.{HaveOperands};
ghost use Rattle.ir_runs.specs.Run.{EndsOnce};
ghost use Rattle.ir_runs.specs.Values.{Vals};
ghost use Rattle.ir_runs.specs.Walk.{Walk, widths_of};

/// In a walk of a function that keeps all rules no operand lacks its value.
pub fn no_operand_is_missing()
    ensures { (func : Func) (args : List ℕ) (path : List (List ℕ)) (vals : Vals) → Rules func
        → (walk : Walk func args path vals) → HaveOperands vals None walk.blocks }
{}

/// In a walk of a function that keeps all rules each value is poison or a number of its name's width.
pub fn values_fit_their_widths()
    ensures { (func : Func) (args : List ℕ) (path : List (List ℕ)) (vals : Vals) → Rules func
        → Walk func args path vals → AllFit func vals }
{}

/// The law of runs: a function that keeps all rules of its language has, on each list of arguments, exactly
/// one run or exactly one block at which it is stuck, with one cause, and never both.
pub fn each_list_ends_once()
    ensures { (func : Func) (args : List ℕ) → Rules func → AreArguments (widths_of func) args
        → EndsOnce func args }
{}

/// Arguments have one answer, with one path, under given costs: so a call that answers by `IsAnswer` says
/// `Done` exactly where there is a run, with its result and cost, and `Undefined` exactly where there is none.
pub fn arguments_have_one_answer()
    ensures { (func : Func) (costs : LabelCosts) (args : List ℕ) → Rules func
        → (path : List (List ℕ)) (given : RunEnd) → IsAnswer func costs args path given
        → (other : List (List ℕ)) (found : RunEnd) → IsAnswer func costs args other found
        → (other ≡ path) × (found ≡ given) }
{}
