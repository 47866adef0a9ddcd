ghost use Rattle.std.specs.Prelude.{◌≡◌};

use crate::errors::SinkFault;
use crate::sink::Sink;
use crate::transfer::write_piece;
use std::io;

/// Standard output as a sink. It tells no text, and counts its failures from 0.
#[derive(Drop)]
pub struct OutSink<'a, P: Print> {
    rt: &'a P,
    faults: u64,
}

impl<'a, P: Print> OutSink<'a, P> {
    /// The sink of the runtime's standard output. It takes no memory.
    pub fn new(rt: &'a P) -> OutSink<'a, P>
        ensures { ⟦<OutSink<'a, P> as Sink>⟧.faults result ≡ 0 }
    {
        OutSink { rt, faults: 0 }
    }
}

impl<P: Print> Sink for OutSink<'_, P> {
    ghost use Rattle.std.specs.Prelude.{false, []};

    ghost tells = { λ _. false };

    ghost written = { λ _. [] };

    ghost faults = { λ sink. sink.faults };

    fn put(&mut self, piece: &[u8]) -> Result<(), SinkFault> {
        let Err(kind) = write_piece(&mut io::writer(self.rt), piece) else {
            return Ok(());
        };
        self.faults = self.faults.saturating_add(1);
        Err(SinkFault::Failed(kind))
    }
}
