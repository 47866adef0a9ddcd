//! The laws.

ghost use Rattle.std.specs.Prelude.{All};
ghost use Rattle.proof_check.specs.Text.{CanBeWritten};
ghost use Rattle.log_portions.specs.Portions.{IsWritable, OfForm, PortionsJoin};

/// The text of a log is its head and the lines of its steps, and the lines of two stretches of steps are those of both.
pub fn portions_join()
    ensures { PortionsJoin }
{}

/// Each step of an accepted log can be written, where its blocks can and there are not too many variables and clauses.
pub fn can_be_written()
    ghost of: { OfForm }
    requires { IsWritable of }
    ensures { All CanBeWritten of.log }
{}
