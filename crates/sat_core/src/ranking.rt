ghost use Rattle.std.specs.Prelude.{◌≡◌, ◌<◌, IfSome, IfNone, IsTrue};
ghost use Rattle.trail_core.specs.TrailState.{IsTrail};
ghost use Rattle.sat_core.specs.Choices.{IsFree, AllValued};

use crate::heap::VariableHeap;
use clause_base::Lit;
use loc_base::NoMemory;
use std::alloc::Global;
use trail_core::Trail;

/// By how much the increment grows with each conflict.
const GROWTH: u64 = 1 << 20;

/// An activity that is too great to be added to.
const HIGH: u64 = 1 << 62;

/// The order in which variables are decided, and the values that they are given first. A variable that is met in a conflict takes
/// the mean of its activity and of the increment, which grows with each conflict (Biere, Fröhlich 2015). Most variables are met in
/// none: their activities are 0, of them the greatest comes first, and they need no heap.
#[derive(Drop)]
pub(crate) struct Ranking {
    /// The variables without a value that were met in conflicts, and some with one.
    heap: VariableHeap,
    /// No greater variable that was met in no conflict is without a value.
    unmet: u32,
    /// The last value of each variable, at its number.
    values: Vec<bool>,
    increment: u64,
}

impl Ranking {
    /// All variables from 1 to `vars`, the greatest first, each false at first.
    pub(crate) fn new(alloc: Global, vars: u32) -> Result<Ranking, NoMemory> {
        Ok(Ranking {
            heap: VariableHeap::new(alloc, vars)?,
            unmet: vars,
            values: vec![in alloc; false; vars as usize + 1]?,
            increment: 0,
        })
    }

    /// The literal that is to be decided: of the first variable that has no value, with the value that it had last. None where
    /// each has one.
    pub(crate) fn choose(&mut self, trail: &Trail) -> Option<Lit>
        requires { IsTrail trail.now }
        ensures some { IfSome result (λ l. IsFree trail.now l.var) }
        ensures none { IfNone result (AllValued trail.now) }
    {
        let var = match self.next_met(trail) {
            Some(var) => var,
            None => self.next_unmet(trail)?,
        };
        Some(self.literal_of(var))
    }

    /// The first variable of the heap that has no value.
    fn next_met(&mut self, trail: &Trail) -> Option<u32>
        ensures { IfSome result (IsFree trail.now) }
    {
        while let Some(var) = self.heap.pop() {
            if is_free(trail, var) {
                return Some(var);
            }
        }
        None
    }

    /// The greatest variable that has no value, where the heap has none. None where each has one.
    fn next_unmet(&mut self, trail: &Trail) -> Option<u32>
        ensures some { IfSome result (IsFree trail.now) }
        ensures none { IfNone result (AllValued trail.now) }
    {
        while 0 < self.unmet {
            if is_free(trail, self.unmet) {
                return Some(self.unmet);
            }
            self.unmet -= 1;
        }
        first_free(trail)
    }

    /// Raises the variables that were met in a conflict.
    pub(crate) fn meet(&mut self, vars: &[u32]) {
        self.increment = self.increment.saturating_add(GROWTH);
        for var in vars {
            self.raise(*var);
        }
    }

    /// Takes back the variables whose values go when the trail goes back to a level.
    pub(crate) fn release(&mut self, trail: &Trail, level: u32)
        requires { IsTrail trail.now }
    {
        for place in (0..trail.len()).rev() {
            let Some(l) = later_than(trail, place, level) else {
                return;
            };
            if (l.var as usize) < self.values.len() {
                self.values[l.var as usize] = !l.negated;
            }
            self.take_back(l.var);
        }
    }

    /// Takes back a variable whose value goes.
    fn take_back(&mut self, var: u32) {
        if 0 < self.heap.activity(var) {
            self.heap.insert(var);
        } else {
            self.unmet = self.unmet.max(var);
        }
    }

    /// Raises the variable's activity.
    fn raise(&mut self, var: u32) {
        let activity = self.heap.activity(var).saturating_add(self.increment) / 2;
        self.heap.raise(var, activity);
        if HIGH <= activity {
            self.heap.halve();
            self.increment /= 2;
        }
    }

    /// The variable's literal that was true last.
    fn literal_of(&self, var: u32) -> Lit
        ensures { result.var ≡ var }
    {
        let value = match self.values.get(var as usize) {
            Some(value) => *value,
            None => false,
        };
        Lit {
            var,
            negated: !value,
        }
    }
}

/// Whether it is a variable of the trail that has no value.
fn is_free(trail: &Trail, var: u32) -> bool
    ensures { IsTrue result → IsFree trail.now var }
{
    1 <= var && var <= trail.vars() && trail.value(var).is_none()
}

/// The least variable that has no value.
fn first_free(trail: &Trail) -> Option<u32>
    ensures some { IfSome result (IsFree trail.now) }
    ensures none { IfNone result (AllValued trail.now) }
{
    for place in 0..trail.vars() {
        if trail.value(place + 1).is_none() {
            return Some(place + 1);
        }
    }
    None
}

/// The true literal at a place, where its decision level is above the given one.
fn later_than(trail: &Trail, place: u32, level: u32) -> Option<Lit>
    requires { IsTrail trail.now }
{
    let l = trail.at(place)?;
    if level < trail.level_of(l.var)? {
        Some(l)
    } else {
        None
    }
}
