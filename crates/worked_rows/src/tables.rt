// The tables of runs on one page. A test has a few of them: its proof is paid for every call in it.
use crate::alpha::{ALPHA, NO_COLOURS};
use crate::boxes::{BODIES, BOXES};
use crate::lamps::LAMPS;
use crate::pages::PAGES;
use crate::rates::{RATE_WITNESSES, RATES};
use crate::red::{RED_WITNESSES, REDS};
use crate::sheets::{SHEETS, STILL};
use crate::tints::TINTS;
use row_runs::{first_untrue, first_wrong};
use std::test::Fail;

#[test]
fn rows_of_lamps_are_told(rt: HostRuntime) -> Result<(), Fail> {
    assert_eq!(rt; first_wrong(rt.alloc(), &LAMPS)?, None);
    assert_eq!(rt; first_wrong(rt.alloc(), &BOXES)?, None);
    assert_eq!(rt; first_wrong(rt.alloc(), &BODIES)?, None);
    assert_eq!(rt; first_wrong(rt.alloc(), &REDS)?, None);
    Ok(())
}

#[test]
fn rows_of_colours_are_told(rt: HostRuntime) -> Result<(), Fail> {
    assert_eq!(rt; first_wrong(rt.alloc(), &TINTS)?, None);
    assert_eq!(rt; first_wrong(rt.alloc(), &ALPHA)?, None);
    assert_eq!(rt; first_wrong(rt.alloc(), &NO_COLOURS)?, None);
    Ok(())
}

#[test]
fn rows_of_texts_are_told(rt: HostRuntime) -> Result<(), Fail> {
    assert_eq!(rt; first_wrong(rt.alloc(), &STILL)?, None);
    assert_eq!(rt; first_wrong(rt.alloc(), &SHEETS)?, None);
    assert_eq!(rt; first_wrong(rt.alloc(), &PAGES)?, None);
    Ok(())
}

#[test]
fn rows_of_rates_are_told(rt: HostRuntime) -> Result<(), Fail> {
    assert_eq!(rt; first_wrong(rt.alloc(), &RATES)?, None);
    Ok(())
}

#[test]
fn rows_of_witnesses_are_told(rt: HostRuntime) -> Result<(), Fail> {
    assert_eq!(rt; first_untrue(rt.alloc(), &RATE_WITNESSES)?, None);
    assert_eq!(rt; first_untrue(rt.alloc(), &RED_WITNESSES)?, None);
    Ok(())
}
