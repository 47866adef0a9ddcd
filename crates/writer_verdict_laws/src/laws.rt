//! The laws. Each is the contract of a function that does nothing.
ghost use Rattle.std.specs.Prelude.{◌≡◌, ◌⊎◌, All, IsSomeAnd, map};
ghost use Rattle.debug_core.specs.Problems.{IsProblem};
ghost use Rattle.report_sets.specs.Found.{suspect_of};
ghost use Rattle.proof_check.specs.Text.{IsLogText, text_of};
ghost use Rattle.report_reading.specs.Reading.{IsKindName, IsReportOf};
ghost use Rattle.list_verdict.specs.Verdicts.{IsFrontShown, IsVerdict, IsWhole};
ghost use Rattle.list_verdict.specs.declared.verdict.Verdict.TheVariants.{Front, Whole};
ghost use Rattle.list_writer.specs.Asked.{HasOwnNames};
ghost use Rattle.list_writer.specs.Checkpoints.{log_text, report_text};
ghost use Rattle.list_writer.specs.Laws.{Listed};
ghost use Rattle.writer_verdict_laws.specs.Listings.{Judged, Kept, claim_at, claim_in, log_at, log_in, report_at, report_in};

/// A listing that ends with status 0 is whole by the sets of its report and by its log: they are in order, none holds another, with the
/// values of each the traces are right, the log is accepted with their blocks, and it closes the list.
pub fn listed_is_whole()
    ghost of: { Listed }
    requires { of.status ≡ 0 }
    ensures { IsWhole (claim_in of) }
{}

/// So that of a problem that can be asked no other answer than `Whole` is one.
pub fn listed_is_judged()
    ghost of: { Judged }
    requires problem { IsProblem of.listed.asked.problem }
    requires status { of.listed.status ≡ 0 }
    requires verdict { IsVerdict (claim_in of.listed) of.verdict }
    ensures { of.verdict ≡ Whole }
{}

/// A listing that ends with status 1 shows by the sets of its report and by its log that they are a front: the first four of these hold, and
/// the log shows that no set is missing before the last one.
pub fn listed_is_shown()
    ghost of: { Listed }
    requires { of.status ≡ 1 }
    ensures { IsFrontShown (claim_in of) }
{}

/// So that of a problem that can be asked no other answer is one than `Front`, and `Whole` where the log closes the list.
pub fn listed_front_is_judged()
    ghost of: { Judged }
    requires problem { IsProblem of.listed.asked.problem }
    requires status { of.listed.status ≡ 1 }
    requires verdict { IsVerdict (claim_in of.listed) of.verdict }
    ensures { (of.verdict ≡ Whole) ⊎ (of.verdict ≡ Front) }
{}

/// A checkpoint shows the same by its two texts, so that a run can go on from it: `list_session` takes up what is so, but for want of memory.
pub fn checkpoint_is_shown()
    ghost of: { Kept }
    ensures { IsFrontShown (claim_at of) }
{}

/// The report of a listing has the top that was asked of and the suspects of the problem, each with its kind, its label and the line of
/// its first place, as whoever judges it asks beside its sets.
pub fn listed_has_table()
    ghost of: { Listed }
    ensures top { (report_in of).top ≡ of.asked.top }
    ensures suspects { (report_in of).suspects ≡ map (suspect_of of.asked.problem.design.places.items) of.asked.problem.groups }
{}

/// What a listing leaves at the statuses 0 and 1 is read back: under the log's name stands a text that is that of its log, and under the
/// report's name one that is that of its report, where the kinds of suspects have names of kinds.
pub fn listed_is_read()
    ghost of: { Listed }
    requires names { HasOwnNames of.asked }
    requires kinds { All IsKindName of.asked.kinds }
    ensures log { IsSomeAnd (of.outputs.now_written of.asked.log) (λ text. IsLogText (log_in of) × (text ≡ text_of (log_in of))) }
    ensures report { IsSomeAnd (of.outputs.now_written of.asked.report) (λ text. IsReportOf text (report_in of)) }
{}

/// And what a checkpoint's two texts stand for is read back: a log, and a report, where the kinds of suspects have names of kinds.
pub fn checkpoint_is_read()
    ghost of: { Kept }
    requires kinds { All IsKindName of.asked.kinds }
    ensures log { IsLogText (log_at of) × (log_text of.asked of.checkpoint ≡ text_of (log_at of)) }
    ensures report { IsReportOf (report_text of.asked of.checkpoint) (report_at of) }
{}
