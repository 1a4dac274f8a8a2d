// The tables of runs on one page. A test has a few of them: its proof is paid for every call in it.
use crate::endless::{APART, ENDLESS, LATE};
use crate::limits::{BAD_VALUES, LENGTHS, LIMITS};
use row_runs::{first_untrue, first_wrong};
use std::test::Fail;

#[test]
fn rows_of_rhythms_are_told(rt: HostRuntime) -> Result<(), Fail> {
    assert_eq!(rt; first_wrong(rt.alloc(), &ENDLESS)?, None);
    assert_eq!(rt; first_wrong(rt.alloc(), &APART)?, None);
    assert_eq!(rt; first_untrue(rt.alloc(), &LATE)?, None);
    Ok(())
}

#[test]
fn rows_of_lengths_are_told(rt: HostRuntime) -> Result<(), Fail> {
    assert_eq!(rt; first_wrong(rt.alloc(), &LENGTHS)?, None);
    Ok(())
}

#[test]
fn rows_of_limits_are_told(rt: HostRuntime) -> Result<(), Fail> {
    assert_eq!(rt; first_wrong(rt.alloc(), &LIMITS)?, None);
    Ok(())
}

#[test]
fn rows_of_bad_values_are_told(rt: HostRuntime) -> Result<(), Fail> {
    assert_eq!(rt; first_wrong(rt.alloc(), &BAD_VALUES)?, None);
    Ok(())
}
