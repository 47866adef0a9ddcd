ghost use Rattle.std.specs.Prelude.{◌≡◌, ◌↔◌, []};
ghost use Rattle.std.specs.List.Sorted.{IsPermutation};
ghost use Rattle.io_ports.specs.Sink.{SinkCause, SinkAppends, IsFailedPut};

use crate::Numbers;
use crate::errors::SinkFault;
use crate::fault_kind::FaultKind;
use crate::fault_plan::FaultPlan;
use crate::sink::Sink;
use loc_base::Bytes;
use std::alloc::Global;

/// A sink in memory. It tells its text, and fails exactly at the calls that it was told to. The kind of each fault is
/// `Other`.
#[derive(Drop)]
pub struct MemSink {
    text: Bytes,
    plan: FaultPlan,
}

impl MemSink {
    ghost use Rattle.io_ports.specs.MemSink.{written_of, faults_of, calls_of, failing_calls};

    /// The empty sink. The numbers name the calls that are to fail, counted from 0, in any order. It takes no memory.
    pub fn new(alloc: Global, fails: Numbers) -> MemSink
        ensures text { written_of result ≡ [] }
        ensures fails { IsPermutation fails (failing_calls result) }
        ensures calls { calls_of result ≡ 0 }
        ensures faults { faults_of result ≡ 0 }
    {
        MemSink {
            text: Bytes::new(alloc),
            plan: FaultPlan::new(fails),
        }
    }

    /// What was written.
    pub fn text(&self) -> &Bytes
        ensures { result.now ≡ written_of self.now }
    {
        &self.text
    }

    /// How many calls failed.
    pub fn faults(&self) -> u64
        ensures { result ≡ faults_of self.now }
    {
        self.plan.faults()
    }
}

impl Sink for MemSink {
    ghost use Rattle.std.specs.Prelude.{true};
    ghost use Rattle.io_ports.specs.MemSink.{written_of, faults_of, IsToFail, CountsCall};

    ghost tells = { λ _. true };

    ghost written = { written_of };

    ghost faults = { faults_of };

    /// A call that is to fail appends a front of the piece.
    fn put(&mut self, piece: &[u8]) -> Result<(), SinkFault>
        ensures text { SinkAppends piece.now (written_of self.old) (written_of self.new) result }
        ensures cause { SinkCause (faults_of self.old) (faults_of self.new) result }

        // It fails exactly where it was told to.
        ensures failed { IsFailedPut result ↔ IsToFail self.old }
        ensures counted { CountsCall self.old self.new }
    {
        if self.plan.call_fails() {
            let _ = self.text.append(&piece[..piece.len() / 2]);
            return Err(SinkFault::Failed(FaultKind::Other));
        }
        self.text.append(piece)?;
        Ok(())
    }
}
