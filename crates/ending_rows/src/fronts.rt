// Pages cut short everywhere.
use flash_top::Status;
use row_runs::{CHECK, is_told, run_on};
use sample_pages::banner;
use std::alloc::Global;
use std::test::Fail;

/// A page without boxes and style.
const SHORT: &[u8] = b"<!DOCTYPE html><html><head><style></style></head><body></body></html>";

/// Where its tokens begin; the style text, which is empty, begins where its closing tag does.
const STARTS: [usize; 9] = [0, 15, 21, 27, 34, 42, 49, 55, 62];

/// Whether these bytes are refused as no page at a place.
fn is_refused(alloc: Global, page: &[u8], place: usize) -> Result<bool, Fail> {
    let text = format!(in alloc; "page: bad text at {place}\n")?;
    let told = run_on(alloc, CHECK, page)?;
    Ok(is_told(&told, Status::Page, text.as_bytes()))
}

#[test]
fn fronts_of_a_page_are_refused(rt: HostRuntime) -> Result<(), Fail> {
    let mut place = 0;
    for front in 0..SHORT.len() {
        if STARTS.contains(&front) {
            place = front;
        }
        assert!(rt; is_refused(rt.alloc(), &SHORT[..front], place)?, "{front}");
    }
    Ok(())
}

/// Whether these bytes are refused as no page, or pass where they are one.
fn is_told_as(alloc: Global, page: &[u8], is_page: bool) -> Result<bool, Fail> {
    let told = run_on(alloc, "check p 1024x768 10", page)?;
    if is_page {
        return Ok(is_told(&told, Status::Pass, b"pass: frames 65\n"));
    }
    let is_text = told.text.as_slice().starts_with(b"page: bad text at ");
    Ok(told.status == Status::Page && is_text)
}

#[test]
fn fronts_of_the_banner_are_refused(rt: HostRuntime) -> Result<(), Fail> {
    let page = banner();
    for front in 0..=page.len() {
        // The last line feed may be missing.
        let is_page = front + 1 >= page.len();
        assert!(rt; is_told_as(rt.alloc(), &page[..front], is_page)?, "{front}");
    }
    Ok(())
}
