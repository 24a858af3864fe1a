ghost use Rattle.std.specs.Prelude.{ℕ, List};
ghost use Rattle.wx_base.specs.Files.{FilesView};
ghost use Rattle.witness_report.specs.declared.answer.Answer.{Answer};
ghost use Rattle.wcet_core.specs.Promises.{Says, Decides};

use ir_runs::each_list_ends_once;
use sound_costs::one_table;

/// Files that tell their contents and don't fail decide the answer.
pub(crate) fn decides()
    ensures { (words : List (List ℕ)) (old new : FilesView) (answer : Answer)
        → Says words old new answer → Decides words old new answer }
{
    ll_reader::one_answer();
    ll_verifier::one_answer();
    one_table();
    each_list_ends_once();
}
