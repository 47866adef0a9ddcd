ghost use Rattle.std.specs.Prelude.{◌≡◌, ℕ, List, Bool, true};
ghost use Rattle.io_ports.specs.Sink.{SinkCause, SinkAppends};

use crate::errors::SinkFault;

/// One text that is written from its beginning to its end.
///
/// Its meaning: `written` is the text so far, and `faults` counts the failures. A sink need not tell its text: what the
/// clauses say of it holds where `tells` is true.
pub trait Sink {
    ghost tells: { Self → Bool };

    ghost written: { Self → List ℕ };

    ghost faults: { Self → ℕ };

    /// Appends a piece. After `Failed` a front of the piece was appended, after `NoMemory` nothing.
    fn put(&mut self, piece: &[u8]) -> Result<(), SinkFault>
        ensures tells { tells self.new ≡ tells self.old }
        ensures text { tells self.old ≡ true → SinkAppends piece.now (written self.old) (written self.new) result }
        ensures cause { SinkCause (faults self.old) (faults self.new) result };
}
