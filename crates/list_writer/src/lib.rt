//! Lists the sets of a problem, and writes what is found as it is found: the log in portions, the lines of each set, the report,
//! the waves, and a last line. What searches for the sets is a trait, so that the listing is proved for every search that keeps its contract.
#![tactic(auto)]

mod checking;
mod job;
mod laws;
mod lines;
mod listing;
mod outcome;
mod pair;
mod progress;
mod report;
mod saves;
mod search;
mod slice;
mod stop;
mod verdict;
mod waving;
mod writes;

pub use job::{Job, Task};
pub use laws::{enough_is_whole, last_stands, listed_goes_on, listed_texts};
pub use listing::list;
pub use outcome::Outcome;
pub use search::Search;
