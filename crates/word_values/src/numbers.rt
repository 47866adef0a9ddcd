//! The numbers that a list of sets is asked with.
ghost use Rattle.std.specs.Prelude.{◌≡◌, IfSome, option_map};
ghost use Rattle.word_values.specs.Numbers.{AreNumbers, IsFrom, numbers_in, workers_in};
ghost use Rattle.word_values.specs.Views.{numbers_view};

use crate::given::Given;
use crate::values::number_from;

/// The numbers of a list's options.
#[derive(Clone, Copy)]
pub struct Numbers {
    /// The most suspects that a set may have.
    pub size: u32,
    /// The most steps that may be learned.
    pub budget: u32,
    /// The most sets that are listed.
    pub sets: u32,
    /// How many threads check the log.
    pub workers: u32,
}

/// The number of workers, 1 where the option isn't given, where it is from 1 to 64.
pub fn workers_in(given: &Given<'_>) -> Option<u32>
    ensures number { result ≡ workers_in given.now }
    ensures range { IfSome result (IsFrom 1 64) }
{
    number_from(given.value_or("workers", "1"), 1, 64)
}

/// The numbers, where each is in its range: a size of 0 to 8 (2 where the option isn't given), a budget of 1 to 10,000,000
/// (200,000), 1 to 100,000 sets (1,000), 1 to 64 workers (1).
pub fn numbers_in(given: &Given<'_>) -> Option<Numbers>
    ensures numbers { option_map numbers_view result ≡ numbers_in given.now }
    ensures ranges { IfSome result (λ numbers. AreNumbers (numbers_view numbers)) }
{
    Some(Numbers {
        size: number_from(given.value_or("size", "2"), 0, 8)?,
        budget: number_from(given.value_or("budget", "200000"), 1, 10_000_000)?,
        sets: number_from(given.value_or("sets", "1000"), 1, 100_000)?,
        workers: workers_in(given)?,
    })
}
