ghost use Rattle.std.specs.Prelude.{◌≡◌};

use aiger_design::AigerErr;
use loc_base::Span;
use thiserror::Error;

/// Why a text means no design.
#[derive(Clone, Copy, Debug, Error)]
pub enum GraphErr {
    /// It breaks a rule of the format, or memory was refused.
    #[error(transparent)]
    Text(AigerErr),
    /// Drivers depend on each other in a circle, the least of which has that span: the line of its row, twice.
    #[error("a combinational loop: a driver that depends on itself, straight away or through others")]
    Circle(Span),
}

impl From<AigerErr> for GraphErr {
    ghost use Rattle.aiger_front_end.specs.declared.error.GraphErr.{GraphErr};

    ghost from_gives = { λ error result. result ≡ GraphErr.Text error };

    fn from(error: AigerErr) -> GraphErr {
        GraphErr::Text(error)
    }
}
