// Pages that are read, and the places of those that aren't.
ghost use Rattle.std.specs.Prelude.{◌≤◌, length};

use page_model::{Place, Tag};
use page_reader::{PageFault, read_page};
use std::test::Fail;

#[test]
fn a_page_is_read(rt: HostRuntime) -> Result<(), Fail> {
    let text =
        b"<!DOCTYPE html><html><head><style>a{}</style></head><body><span id=\"i\" class=\"a b\" style=''></span></body></html>";
    let page = read_page(rt.alloc(), text)?;
    assert_eq!(rt; page.sheet, Place { from: 34, to: 37 });
    assert_eq!(rt; page.elements.len(), 2);
    let element = page.elements.get(1).ok_or("no box")?;
    assert_eq!(rt; element.tag, Tag::Span);
    assert_eq!(rt; element.style, Place { from: 90, to: 90 });
    assert_eq!(rt; element.classes.len(), 2);
    Ok(())
}

/// Texts that are no page, with the place where they cease to be one.
const REFUSED: [(&[u8], u32); 15] = [
    (b"", 0),
    (b"<!DOCTYPE ", 0),
    (b"<!DOCTYPE html><html><head><style>", 34),
    (
        b"<!DOCTYPE html><html><head><style></style></head><body></body></html",
        62,
    ),
    (b"<!DOC\xffTYPE html>", 5),
    (b"<!DO\x08CTYPE html>", 4),
    (b"</body>", 0),
    (b"<div title=\"x\"><div/><!-- -- --><!DOCTYPE html>", 21),
    (
        b"<!DOCTYPE html><html><head><!--->--></style></head></span></html>",
        27,
    ),
    (
        b"<!DOCTYPE html><html><head></head><body lang=\"en\"></body></html>",
        34,
    ),
    (
        b"<!DOCTYPE html><html><head><style>.a{left:0px}<!-- b --></style></head><body></body></html>",
        46,
    ),
    (
        b"<!DOCTYPE html><html><head><title>&amp;</title></head><body></body></html>",
        34,
    ),
    (
        b"<!DOCTYPE html><html><head></head><body id='a' ID='b'></body></html>",
        34,
    ),
    (
        b"<!DOCTYPE html><html><head></head><body/></body></html>",
        34,
    ),
    (
        b"<!DOCTYPE html><html><head></head><body><div></span></body></html>",
        45,
    ),
];

#[test]
fn where_texts_cease_to_be_a_page(rt: HostRuntime) {
    for (text, at) in REFUSED.iter() {
        assert!(rt; text.len() <= 1000);
        let fault = read_page(rt.alloc(), text).err();
        assert!(rt; fault == Some(PageFault::BadText { at: *at }), "{at}");
    }
}
