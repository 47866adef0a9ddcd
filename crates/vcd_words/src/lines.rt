//! Texts of lines of words.
ghost use Rattle.vcd_words.specs.Lines.{LineStands};

/// The words of a text of lines are those of its lines.
#[tactic(auto, using(crate::proofs::LineLaws::line_laws))]
pub fn line_stands()
    ensures { LineStands }
{}
