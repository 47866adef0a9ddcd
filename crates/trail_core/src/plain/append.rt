ghost use Rattle.std.specs.Prelude.{◌≡◌, ◌+◌};
ghost use Rattle.trail_core.specs.Values.{IsVariable, IsUnassignedIn};
ghost use Rattle.trail_core.specs.TrailState.{IsTrail, IsReason, AllRest, values_of, with_decision, with_forced};

use crate::entry::Entry;
use crate::plain::PlainTrail;
use clause_base::Lit;

impl PlainTrail {
    /// Raises the decision level by one, and makes a literal true there as its decision. It takes no memory.
    pub(crate) fn decide(&mut self, l: Lit)
        requires variable { IsVariable self.old.vars l.var }
        requires unassigned { IsUnassignedIn (values_of self.old.entries) l }
        requires rest { AllRest self.old.clauses (values_of self.old.entries) }
        ensures after { self.new ≡ with_decision self.old l }
        ensures trail { IsTrail self.new }
    {
        let start = self.entries.len() as u32;
        self.starts.push(start).unwrap();
        let entry = Entry {
            lit: l,
            decision_level: self.starts.len() as u32,
            reason: None,
        };
        self.assigned[l.var as usize - 1] = Some(entry);
        self.values[l.var as usize - 1] = Some(!l.negated);
        self.entries.push(entry).unwrap();
    }

    /// Makes a literal true at the present level, for the clause of that number.
    pub(crate) fn force(&mut self, l: Lit, number: u32)
        requires variable { IsVariable self.old.vars l.var }
        requires reason { IsReason self.old.clauses (values_of self.old.entries) number l }
        ensures after { self.new ≡ with_forced self.old l number }
        ensures trail { IsTrail self.new }
    {
        let entry = Entry {
            lit: l,
            decision_level: self.starts.len() as u32,
            reason: Some(number),
        };
        self.assigned[l.var as usize - 1] = Some(entry);
        self.values[l.var as usize - 1] = Some(!l.negated);
        self.entries.push(entry).unwrap();
    }
}
