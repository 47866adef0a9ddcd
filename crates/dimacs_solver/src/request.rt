//! What the words behind the program's name ask for.
ghost use Rattle.std.specs.Prelude.{◌<◌, ◌^◌, IfSome};

/// The budget where no word gives one.
const UNITS: u32 = 1_000_000;

/// Budgets are smaller.
const UNITS_END: u32 = 1 << 31;

/// The budget of the search, and whether its times are printed.
#[derive(Clone, Copy, Debug, PartialEq, Eq)]
pub struct Request {
    pub units: u32,
    pub times: bool,
}

/// Reads the words `[BUDGET] [--times]`, in this order.
pub fn request_of(words: &[String]) -> Option<Request>
    ensures { IfSome result (λ request. request.units < 2 ^ 31) }
{
    let mut request = Request {
        units: UNITS,
        times: false,
    };
    for (place, word) in words.iter().enumerate() {
        if word.as_str() == "--times" && place + 1 == words.len() {
            request.times = true;
        } else if place == 0 {
            request.units = units_of(word.as_str())?;
        } else {
            return None;
        }
    }
    Some(request)
}

/// The budget that a word is.
fn units_of(word: &str) -> Option<u32>
    ensures { IfSome result (λ units. units < 2 ^ 31) }
{
    let units = word.parse::<u32>().ok()?;
    if units < UNITS_END { Some(units) } else { None }
}
