//! What a trace has for each cycle.
ghost use Rattle.std.specs.Prelude.{◌≡◌, ◌+◌, ◌*◌, ◌≤◌, length};
ghost use Rattle.design_core.specs.Given.{row};

/// The entries of a cycle among those of a trace, `width` of them in each cycle.
pub fn row<T>(entries: &[T], width: usize, t: usize) -> &[T]
    requires { t * width + width ≤ length entries.now }
    ensures { result.now ≡ row entries.now width t }
{
    &entries[t * width..t * width + width]
}
