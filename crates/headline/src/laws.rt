//! The laws. Each is the contract of a function that does nothing.
ghost use Rattle.std.specs.Prelude.{◌≡◌};
ghost use Rattle.headline.specs.Runs.{CheckRun, FindRun};
ghost use Rattle.headline.specs.Headline.{ListsAll, ListsFront};
ghost use Rattle.headline.specs.Kept.{IsKeptCheck, IsKeptFind};
ghost use Rattle.headline.specs.Yes.{SaysYes};

/// A run of `find` that ends with 0 has listed all: the texts mean a design and traces, what was printed is the lines of sets and
/// `complete N`, and the sets are the whole list, each with values that explain the traces.
pub fn list_is_meant()
    ghost of: { FindRun }
    requires kept { IsKeptFind of }
    requires status { of.of.status ≡ 0 }
    ensures { ListsAll of }
{}

/// One that ends with 1 has listed a front of that list: minimal sets, and none is missing before one that is listed.
pub fn front_is_meant()
    ghost of: { FindRun }
    requires kept { IsKeptFind of }
    requires status { of.of.status ≡ 1 }
    ensures { ListsFront of }
{}

/// A run of `check` that ends with 0 says `yes N` of N sets that are the whole list of what the texts mean: the report's own sets, each
/// with values that explain the traces, and its top and its suspects are those that are asked of.
pub fn yes_is_meant()
    ghost of: { CheckRun }
    requires kept { IsKeptCheck of }
    requires status { of.of.status ≡ 0 }
    ensures { SaysYes of }
{}
