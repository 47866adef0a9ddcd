//! What is a constant and what is none, and what names stand for. A scope is made once for many tables, since each test
//! that makes one is proved with it.
use crate::cases::{names, parameters, signals};
use crate::constants::{deep, refusals, scopes, values};
use std::test::Fail;
use v_widths::Scope;

#[test]
fn constants_have_their_values_and_refusals(rt: HostRuntime) -> Result<(), Fail> {
    let alloc = rt.alloc();
    let names = names(alloc)?;
    let scope = parameters(alloc, names.as_slice())?;
    assert_eq!(rt; values::first_wrong(alloc, &scope)?, None);
    assert_eq!(rt; deep::first_wrong(alloc, &scope)?, None);
    assert_eq!(rt; refusals::first_wrong_of_parameters(alloc, &scope)?, None);
    Ok(())
}

#[test]
fn names_go_on_to_stand_for_signals_which_are_no_constants(rt: HostRuntime) -> Result<(), Fail> {
    let alloc = rt.alloc();
    let names = names(alloc)?;
    let mut scope = signals(alloc, names.as_slice())?;
    for name in &names {
        assert!(rt; scopes::is_kept(&mut scope, name)?);
        assert!(rt; scopes::is_put_back(&mut scope, name)?);
    }
    assert_eq!(rt; refusals::first_wrong_of_signals(alloc, &scope)?, None);
    Ok(())
}

#[test]
fn a_name_that_stands_for_nothing_again_is_added(rt: HostRuntime) -> Result<(), Fail> {
    let names = names(rt.alloc())?;
    let mut scope = Scope::new(rt.alloc());
    for name in &names {
        assert!(rt; scopes::is_added_again(&mut scope, name)?);
    }
    Ok(())
}
