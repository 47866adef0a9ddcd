//! The signals.
ghost use Rattle.std.specs.Prelude.{◌≡◌, All, ◌+◌, ◌-◌, ◌≤◌, ◌++◌, length, map, unwrap_or, IfOk, OnOk};
ghost use Rattle.std.specs.List.{range_with_len};
ghost use Rattle.loc_base.specs.Name.{IsName};
ghost use Rattle.aiger_rules.specs.Literals.{defined};
ghost use Rattle.aiger_rules.specs.Ports.{literal_at};
ghost use Rattle.aiger_design.specs.Numbering.{first_register};
ghost use Rattle.aiger_design.specs.Signals.{signal, row_path, port_signal, row_signal_of, signals_of, latch_signals, and_signals};
ghost use Rattle.aiger_design.specs.Stands.{Stands};

use crate::file::{File, name_of};
use crate::values::bit_word;
use aiger_text::{Counts, Row};
use design_core::{Signal, SignalKind};
use itoa::Buffer;
use loc_base::{Bytes, Name, NoMemory, Rows};

/// Signals of rows of one kind, from one row up to another. Their paths begin with a letter.
#[derive(Clone, Copy)]
struct RowSignals {
    kind: SignalKind,
    letter: u8,
    from: u64,
    to: u64,
}

/// Signals of ports of one kind, by the places of their names.
#[derive(Clone, Copy)]
struct PortSignals {
    kind: SignalKind,
    from: u64,
    to: u64,
}

impl RowSignals {
    /// Those of the latches.
    fn latches(counts: Counts) -> RowSignals
        ensures { result ≡ latch_signals counts }
    {
        RowSignals {
            kind: SignalKind::Reg,
            letter: b'l',
            from: u64::from(counts.inputs),
            to: counts.first_output(),
        }
    }

    /// Those of the ANDs.
    fn ands(counts: Counts) -> RowSignals
        ensures { result ≡ and_signals counts }
    {
        RowSignals {
            kind: SignalKind::Net,
            letter: b'a',
            from: counts.first_and(),
            to: counts.rows(),
        }
    }
}

/// A signal of one bit that begins at 0.
fn signal(kind: SignalKind, path: Name) -> Signal
    ensures { result ≡ signal kind path }
{
    Signal {
        path,
        width: 1,
        signed: false,
        left: 0,
        right: 0,
        kind,
        start: bit_word(false),
    }
}

/// The literal that a row defines; 0 of an output's.
fn literal_of(row: Row) -> u32
    ensures { result ≡ unwrap_or (defined row) 0 }
{
    match row {
        Row::Input { literal } | Row::Latch { literal, .. } | Row::And { literal, .. } => literal,
        Row::Output { .. } => 0,
    }
}

impl File<'_> {
    /// The literal that the row of a number defines.
    fn literal_at(&self, number: u64) -> u32
        ensures { result ≡ literal_at self.now.rows.now number }
    {
        match self.rows.get(number as usize) {
            Some(row) => literal_of(*row),
            None => 0,
        }
    }

    /// The path of the row of a number: a letter and its literal.
    #[tactic(auto, using(aiger_rules::proofs::NameLaws::letter_name))]
    pub(crate) fn row_path(&self, letter: u8, number: u64) -> Result<Name, NoMemory>
        requires low { 33 ≤ letter }
        requires high { letter ≤ 126 }
        ensures { IfOk result (λ path. path ≡ row_path self.now.rows.now letter number) }
    {
        let mut buffer = Buffer::new();
        let mut text = Bytes::new(self.alloc);
        text.push(letter)?;
        text.append(buffer.format(self.literal_at(number)).as_bytes())?;
        name_of(self.alloc, text.as_slice())
    }

    /// Appends the signals of rows.
    #[tactic(auto, using(crate::proofs::Ranges::range_steps))]
    fn push_rows(&self, signals: &mut Vec<Signal>, of: RowSignals) -> Result<(), NoMemory>
        requires low { 33 ≤ of.letter }
        requires high { of.letter ≤ 126 }
        ensures { OnOk result (signals.new.items ≡ signals.old.items
            ++ map (row_signal_of self.now.rows.now of.kind of.letter) (range_with_len of.from (of.to - of.from))) }
    {
        for number in of.from..of.to {
            let path = self.row_path(of.letter, number)?;
            signals.push(signal(of.kind, path))?;
        }
        Ok(())
    }

    /// Appends the signals of ports, by the places of their names.
    #[tactic(auto, using(crate::proofs::Ranges::range_steps))]
    fn push_ports(
        &self,
        signals: &mut Vec<Signal>,
        names: &Rows<u8>,
        of: PortSignals,
    ) -> Result<(), NoMemory>
        requires names { All IsName names.now }
        requires within { of.to ≤ length names.now }
        ensures { OnOk result (signals.new.items ≡ signals.old.items
            ++ map (port_signal names.now of.kind) (range_with_len of.from (of.to - of.from))) }
    {
        for place in of.from..of.to {
            let path = name_of(self.alloc, names.row(place as usize))?;
            signals.push(signal(of.kind, path))?;
        }
        Ok(())
    }

    /// The signals, by the names of the ports.
    pub(crate) fn signals(&self, names: &Rows<u8>) -> Result<Vec<Signal>, NoMemory>
        requires stands { Stands self.now }
        requires names { All IsName names.now }
        requires long { length names.now ≡ first_register self.now.numbering + self.now.numbering.counts.outputs }
        ensures { IfOk result (λ signals. signals.items ≡ signals_of self.now.rows.now self.now.numbering names.now) }
    {
        let counts = self.numbering.counts;
        let outputs = self.numbering.first_register();
        let mut signals = Vec::new(self.alloc);
        self.push_ports(
            &mut signals,
            names,
            PortSignals {
                kind: SignalKind::Input,
                from: 0,
                to: outputs,
            },
        )?;
        self.push_rows(&mut signals, RowSignals::latches(counts))?;
        self.push_rows(&mut signals, RowSignals::ands(counts))?;
        let end = outputs + u64::from(counts.outputs);
        self.push_ports(
            &mut signals,
            names,
            PortSignals {
                kind: SignalKind::Net,
                from: outputs,
                to: end,
            },
        )?;
        Ok(signals)
    }
}
