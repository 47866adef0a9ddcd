ghost use Rattle.std.specs.Prelude.{◌≡◌, ◌≤◌, map, take, is_some, count_by, length};
ghost use Rattle.std.specs.Vec.{vec_capacity};
ghost use Rattle.trail_core.specs.TrailState.{IsTrail, back_at};
ghost use Rattle.trail_core.specs.Layout.{IsIndex, AreNew, value_in};

use crate::entry::Entry;
use crate::plain::PlainTrail;

impl PlainTrail {
    /// Makes a level the present one, and leaves exactly the true literals whose level is at most that one, in
    /// their order. It takes no memory.
    pub(crate) fn back_to(&mut self, level: u32)
        requires { level ≤ self.old.level }
        ensures after { self.new ≡ back_at self.old level }
        ensures trail { IsTrail self.new }
    {
        let level = level as usize;
        if level < self.starts.len() {
            let keep = self.starts[level] as usize;
            shorten(
                &mut self.entries,
                &mut self.assigned,
                &mut self.values,
                keep,
            );
            self.starts.truncate(level);
        }
    }
}

/// Takes off the last entries until `keep` are left.
fn shorten(
    entries: &mut Vec<Entry>,
    assigned: &mut Vec<Option<Entry>>,
    values: &mut Vec<Option<bool>>,
    keep: usize,
)
    requires new { AreNew (length assigned.old.items) entries.old.items }
    requires index { IsIndex assigned.old.items entries.old.items }
    requires counted { count_by is_some assigned.old.items ≡ length entries.old.items }
    requires values { values.old.items ≡ map value_in assigned.old.items }
    requires value_size { length values.old.items ≡ length assigned.old.items }
    requires keep { keep ≤ length entries.old.items }
    ensures kept { entries.new.items ≡ take keep entries.old.items }
    ensures capacity { vec_capacity entries.new ≡ vec_capacity entries.old }
    ensures size { length assigned.new.items ≡ length assigned.old.items }
    ensures index { IsIndex assigned.new.items entries.new.items }
    ensures counted { count_by is_some assigned.new.items ≡ length entries.new.items }
    ensures values { values.new.items ≡ map value_in assigned.new.items }
    ensures value_size { length values.new.items ≡ length assigned.new.items }
{
    for _ in keep..entries.len() {
        let entry = entries.pop().unwrap();
        assigned[entry.lit.var as usize - 1] = None;
        values[entry.lit.var as usize - 1] = None;
    }
}
