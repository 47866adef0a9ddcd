ghost use Rattle.std.specs.Prelude.{◌≡◌, ◌<◌, length, IfSome};

use loc_base::NoMemory;
use std::alloc::Global;

/// Variables in the order of their activities, the greatest first, of equals the greatest number: a binary heap.
#[derive(Drop)]
pub(crate) struct VariableHeap {
    /// The activity of each variable, at its number.
    activities: Vec<u64>,
    /// The variables of the heap: the one at a place comes before those at twice the place and one, and two, more.
    heap: Vec<u32>,
    /// Where each variable stands in the heap, at its number.
    places: Vec<Option<u32>>,
}

impl VariableHeap {
    /// No variables, with room for those from 1 to `vars`, each of activity 0.
    pub(crate) fn new(alloc: Global, vars: u32) -> Result<VariableHeap, NoMemory> {
        let size = vars as usize + 1;
        Ok(VariableHeap {
            activities: vec![in alloc; 0; size]?,
            heap: Vec::with_capacity(alloc, size)?,
            places: vec![in alloc; None; size]?,
        })
    }

    /// Puts a variable into the heap, where it isn't there.
    pub(crate) fn insert(&mut self, var: u32) {
        if self.place_of(var).is_some() {
            return;
        }
        let place = self.heap.len();
        if self.heap.push(var).is_ok() {
            self.note(place);
            self.rise(place);
        }
    }

    /// Takes the first variable out; none where there is none.
    pub(crate) fn pop(&mut self) -> Option<u32>
        ensures { IfSome result (λ var. length self.new.heap.items < length self.old.heap.items) }
    {
        let last = self.heap.len().checked_sub(1)?;
        self.exchange(0, last);
        let var = self.heap.pop()?;
        if (var as usize) < self.places.len() {
            self.places[var as usize] = None;
        }
        self.sink(0);
        Some(var)
    }

    /// The variable's activity.
    pub(crate) fn activity(&self, var: u32) -> u64 {
        match self.activities.get(var as usize) {
            Some(activity) => *activity,
            None => 0,
        }
    }

    /// Gives a variable an activity that is at least what it was.
    pub(crate) fn raise(&mut self, var: u32, activity: u64) {
        if (var as usize) < self.activities.len() {
            self.activities[var as usize] = activity;
        }
        if let Some(place) = self.place_of(var) {
            self.rise(place as usize);
        }
    }

    /// Halves all activities. What was less may become equal, and so come first by its number: the heap is made anew.
    pub(crate) fn halve(&mut self) {
        for var in 0..self.activities.len() {
            self.activities[var] /= 2;
        }
        for place in 0..self.heap.len() {
            self.rise(place);
        }
    }

    /// Where the variable stands.
    fn place_of(&self, var: u32) -> Option<u32> {
        *self.places.get(var as usize)?
    }

    /// Whether the variable at a place is to come before the one at another.
    fn is_before(&self, place: usize, other: usize) -> bool
        requires { (place < length self.now.heap.items) × (other < length self.now.heap.items) }
    {
        let (a, b) = (self.heap[place], self.heap[other]);
        let (high, low) = (self.activity(a), self.activity(b));
        low < high || low == high && b < a
    }

    /// Lets the variable at the place `from` rise to where none above it is to come behind it.
    fn rise(&mut self, from: usize)
        ensures { length self.new.heap.items ≡ length self.old.heap.items }
    {
        let mut place = from;
        while 0 < place && place < self.heap.len() {
            let parent = (place - 1) / 2;
            if !self.is_before(place, parent) {
                return;
            }
            self.exchange(place, parent);
            place = parent;
        }
    }

    /// Lets the variable at the place `from` sink to where none below it is to come before it.
    fn sink(&mut self, from: usize)
        ensures { length self.new.heap.items ≡ length self.old.heap.items }
    {
        let mut place = from;
        while let Some(child) = self.first_below(place) {
            self.exchange(place, child);
            place = child;
        }
    }

    /// The place below the given one whose variable comes first, where that is to come before the given one's.
    fn first_below(&self, place: usize) -> Option<usize>
        ensures { IfSome result (λ child. (place < child) × (child < length self.now.heap.items)) }
    {
        let left = place.checked_mul(2)?.checked_add(1)?;
        if self.heap.len() <= left {
            return None;
        }
        let right = left + 1;
        let child = if right < self.heap.len() && self.is_before(right, left) {
            right
        } else {
            left
        };
        if self.is_before(child, place) {
            Some(child)
        } else {
            None
        }
    }

    /// Exchanges the variables at two places.
    fn exchange(&mut self, a: usize, b: usize)
        ensures { length self.new.heap.items ≡ length self.old.heap.items }
    {
        if a < self.heap.len() && b < self.heap.len() {
            self.heap.swap(a, b);
            self.note(a);
            self.note(b);
        }
    }

    /// Notes where the variable at a place stands.
    fn note(&mut self, place: usize)
        requires { place < length self.old.heap.items }
        ensures { self.new.heap ≡ self.old.heap }
    {
        let var = self.heap[place] as usize;
        if var < self.places.len() {
            self.places[var] = u32::try_from(place).ok();
        }
    }
}
