//! Laws of the definitions. Each is the contract of a function that does nothing, over values that no code holds.
ghost use Rattle.std.specs.Prelude.{◌≡◌, ◌+◌, ◌≤◌, ◌<◌, ◌^◌, ◌++◌, ℕ, List, Some, length, map, slice_get, take};
ghost use Rattle.clause_base.specs.declared.literal.Lit.{Lit};
ghost use Rattle.debug_core.specs.Debugging.{IsListOf};
ghost use Rattle.debug_core.specs.Problems.{IsFormFor};
ghost use Rattle.design_core.specs.declared.trace.Trace.{Trace};
ghost use Rattle.design_core.specs.declared.values.SetWithValues.{SetWithValues};
ghost use Rattle.proof_check.specs.Text.{text_of};
ghost use Rattle.report_sets.specs.Found.{set_of};
ghost use Rattle.set_waves.specs.Names.{wave_name};
ghost use Rattle.set_waves.specs.Scenes.{wave_text};
ghost use Rattle.set_waves.specs.Writes.{scene_of};
ghost use Rattle.list_writer.specs.Asked.{HasOwnNames, most_sets};
ghost use Rattle.list_writer.specs.Found.{found_of, log_of};
ghost use Rattle.list_writer.specs.declared.pair.Pair.TheVariants.{First};
ghost use Rattle.list_writer.specs.CheckpointNames.{log_name, report_name};
ghost use Rattle.list_writer.specs.Checkpoints.{log_text, pair_behind, report_text};
ghost use Rattle.list_writer.specs.Laws.{Listed, WithCheckpoints, WithList};
ghost use Rattle.list_writer.specs.Texts.{report_for, report_of, waved_for};

/// What stands at the statuses 0 and 1: under the log's name the text of the log in one piece, under the report's name the report, and
/// under the name of the wave of each set and each trace that wave.
pub fn listed_texts()
    ghost of: { Listed }
    requires names { HasOwnNames of.asked }
    requires few_sets { most_sets of.asked < 2 ^ 32 }
    requires few_traces { length of.asked.problem.traces < 2 ^ 32 }
    ensures log { of.outputs.now_written of.asked.log
        ≡ Some (text_of (record { inputs = of.asked.inputs; log = log_of of.asked of.is.portions ++ of.is.rest })) }
    ensures report { of.outputs.now_written of.asked.report ≡ Some (report_of of.asked (found_of of.asked of.is.portions) of.is.ending) }
    ensures waves { (prefix : List ℕ) (s j : ℕ) (set : SetWithValues) (trace : Trace) → of.asked.waves ≡ Some prefix
        → slice_get (found_of of.asked of.is.portions) s ≡ Some set → slice_get of.asked.problem.traces j ≡ Some trace
        → of.outputs.now_written (wave_name prefix (s + 1) (j + 1))
        ≡ Some (wave_text (scene_of (waved_for of.asked) set.values j trace) (of.is.runs s j)) }
{}

/// Where the budget is at least 3^V, for the V variables of the problem's form, and more sets are asked for than the list has, a listing
/// that comes to its end is whole: its status is 0.
pub fn enough_is_whole()
    ghost of: { WithList }
    requires list { IsListOf of.asked.problem of.list }
    requires budget { (vars : ℕ) (form : List (List Lit)) → IsFormFor of.asked.problem vars form → 3 ^ vars ≤ of.asked.budget }
    requires sets { length of.list < of.asked.sets }
    ensures { of.status ≡ 0 }
{}

/// Where a listing goes on from a session, its log begins with the steps of the session's log, and its report with the session's sets.
pub fn listed_goes_on()
    ghost of: { Listed }
    ensures log { take (length of.asked.session.log) (log_of of.asked of.is.portions ++ of.is.rest) ≡ of.asked.session.log }
    ensures report { take (length of.asked.session.sets) (report_for of.asked (found_of of.asked of.is.portions) of.is.ending).sets
        ≡ map (set_of of.asked.problem.traces) of.asked.session.sets }
{}

/// However a listing ended, both texts of the last checkpoint that was put whole stand, under the names of its pair: a part of one more, where
/// the listing stopped in it, is under the names of the other.
pub fn last_stands()
    ghost of: { WithCheckpoints }
    ensures log { of.is (log_name of.prefix (pair_behind First of.before)) ≡ Some (log_text of.asked of.last) }
    ensures report { of.is (report_name of.prefix (pair_behind First of.before)) ≡ Some (report_text of.asked of.last) }
{}
