//! What the commands are asked: the texts that are read, what a list is asked of them, how far it goes and where it is written, and
//! each command's request. The arguments fill these, and the commands take them.
#![tactic(auto)]

mod help;
mod listing;
mod requests;
mod session;
mod sources;
mod texts;
mod wanted;

pub use help::{HelpPage, HelpRequest};
pub use listing::Listing;
pub use requests::{CheckRequest, FindRequest, MakeRequest, Request, SimRequest};
pub use session::SessionNames;
pub use sources::{Reading, Sources};
pub use texts::Texts;
pub use wanted::Wanted;
