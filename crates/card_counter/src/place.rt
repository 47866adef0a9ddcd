//! Where counters stand.
ghost use Rattle.std.specs.Prelude.{◌≡◌, ◌+◌, ◌<◌, ◌≤◌, ◌^◌};
ghost use Rattle.clause_base.specs.Literal.{negative, positive};
ghost use Rattle.card_counter.specs.Places.{starts, width};

use clause_base::Lit;

/// How many counters of that many selectors there are.
pub(crate) fn width_of(k: u32, selectors: usize) -> usize
    ensures { result ≡ width k selectors }
{
    selectors.min(k as usize + 1)
}

/// How many counters stand before those of that many selectors.
pub(crate) fn start_of(k: u32, selectors: usize) -> usize
    requires { selectors ≤ 2 ^ 32 }
    ensures { result ≡ starts k selectors }
{
    let mut start = 0;
    for before in 0..selectors {
        start += width_of(k, before);
    }
    start
}

/// How many counters `n` selectors have, by a counter up to `k + 1`. It takes no memory.
pub fn counters(n: u32, k: u32) -> usize
    ensures { result ≡ starts k (n + 1) }
{
    start_of(k, n as usize + 1)
}

pub(crate) fn positive(var: usize) -> Lit
    requires { var < 2 ^ 32 }
    ensures { result ≡ positive var }
{
    Lit {
        var: var as u32,
        negated: false,
    }
}

pub(crate) fn negative(var: usize) -> Lit
    requires { var < 2 ^ 32 }
    ensures { result ≡ negative var }
{
    Lit {
        var: var as u32,
        negated: true,
    }
}
