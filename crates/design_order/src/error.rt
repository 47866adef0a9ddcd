ghost use Rattle.std.specs.Prelude.{◌≡◌};

use loc_base::NoMemory;
use thiserror::Error;

/// Why there is no order.
#[derive(Debug, Drop, Error)]
pub enum OrderErr {
    #[error("out of memory")]
    NoMemory,
    /// Drivers that depend on each other in a circle: each on the next one, and the last on the first.
    #[error("a combinational loop of {count} drivers", count = .drivers.len())]
    Circle { drivers: Vec<u32> },
}

impl From<NoMemory> for OrderErr {
    ghost use Rattle.design_order.specs.declared.error.OrderErr.{OrderErr};

    ghost from_gives = { λ error result. result ≡ OrderErr.NoMemory };

    fn from(_error: NoMemory) -> OrderErr {
        OrderErr::NoMemory
    }
}
