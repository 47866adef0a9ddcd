//! What is sized and what is refused, over each kind of names. A scope is made once for many tables, since each test
//! that makes one is proved with it.
use crate::cases::{names, parameters, signals};
use crate::sized::{contexts, deep, named, refusals, sizes, slices};
use std::test::Fail;

#[test]
fn expressions_over_signals_have_their_sizes_and_values(rt: HostRuntime) -> Result<(), Fail> {
    let alloc = rt.alloc();
    let names = names(alloc)?;
    let scope = signals(alloc, names.as_slice())?;
    assert_eq!(rt; sizes::first_wrong(alloc, &scope)?, None);
    assert_eq!(rt; contexts::first_wrong(alloc, &scope)?, None);
    assert_eq!(rt; slices::first_wrong(alloc, &scope)?, None);
    assert_eq!(rt; named::first_wrong(alloc, &scope)?, None);
    assert_eq!(rt; deep::first_wrong(alloc, &scope)?, None);
    assert_eq!(rt; refusals::first_wrong(alloc, &scope)?, None);
    let refused = named::size_of_refused(alloc, &scope)?;
    assert_eq!(rt; (refused.width, refused.signed), (8, true));
    Ok(())
}

#[test]
fn expressions_over_parameters_are_refused_at_the_leftmost_part(
    rt: HostRuntime,
) -> Result<(), Fail> {
    let alloc = rt.alloc();
    let names = names(alloc)?;
    let scope = parameters(alloc, names.as_slice())?;
    assert_eq!(rt; refusals::first_wrong_of_parameters(alloc, &scope)?, None);
    Ok(())
}
