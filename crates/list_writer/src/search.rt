ghost use Rattle.std.specs.Prelude.{◌≡◌, false, length, IfOk, OnErr, OnOk};
ghost use Rattle.card_counter.specs.Shows.{Shows, last_of};
ghost use Rattle.debug_core.specs.Problems.{suspect_count};
ghost use Rattle.debug_core.specs.Debugging.{DebugState, FindsNothing, FinishedSome, Gives, HasCountedLog, HasRoom, IsDebugger, Searches, with_appended};

use clause_base::{Form, Log};
use debug_core::{Debugger, Found};
use loc_base::NoMemory;
use sat_core::Budget;

/// What finds the sets of a problem, one after another, with a log that shows them.
///
/// Its meaning: `state` is what is known of it between two calls.
pub trait Search {
    ghost state: { Self → DebugState };

    /// The next set of the list with values that make every trace right, or that the list is whole, or that the budget is spent.
    /// After `NoMemory` no set is lost.
    fn next(&mut self, budget: &mut Budget) -> Result<Found, NoMemory>
        requires { HasRoom (state self.old) budget.old }
        ensures holds { IsDebugger (state self.new) }
        ensures searches { Searches (state self.old) (state self.new) budget.old budget.new }
        ensures gives { IfOk result (Gives (state self.old) (state self.new) budget.new) }
        ensures err { OnErr result (FindsNothing (state self.old) (state self.new)) };

    /// Appends the steps by which the log shows that no set is missing before the last one. After `NoMemory` the first of them are
    /// appended, some or none.
    fn finish(&mut self) -> Result<(), NoMemory>
        requires { (state self.old).ended ≡ false }
        ensures holds { IsDebugger (state self.new) }
        ensures ok { OnOk result (state self.new ≡ with_appended (state self.old) (length (state self.old).certificate)) }
        ensures err { OnErr result (FinishedSome (state self.old) (state self.new)) }
        ensures shows { OnOk result (Shows (suspect_count (state self.new).problem) (state self.new).problem.k
            (last_of (state self.new).listed) (state self.new).log) }
        ensures counted { OnOk result ((state self.old).finished ≡ false → HasCountedLog (state self.new)) };

    /// The steps that `finish` would append now.
    fn certificate(&self) -> Result<Log, NoMemory>
        ensures { IfOk result (λ steps. steps ≡ (state self.now).certificate) };

    /// The form, whose first variables are the suspects' selectors.
    fn form(&self) -> &Form
        ensures variables { result.now.vars ≡ (state self.now).vars }
        ensures clauses { result.now.clauses ≡ (state self.now).form };

    /// The steps so far.
    fn log(&self) -> &Log
        ensures { result.now ≡ (state self.now).log };
}

impl Search for Debugger<'_> {
    ghost state = { λ debugger. debugger };

    fn next(&mut self, budget: &mut Budget) -> Result<Found, NoMemory> {
        Debugger::next(self, budget)
    }

    fn finish(&mut self) -> Result<(), NoMemory> {
        Debugger::finish(self)
    }

    fn certificate(&self) -> Result<Log, NoMemory> {
        Debugger::certificate(self)
    }

    fn form(&self) -> &Form {
        Debugger::form(self)
    }

    fn log(&self) -> &Log {
        Debugger::log(self)
    }
}
