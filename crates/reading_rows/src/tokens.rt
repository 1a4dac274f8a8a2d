// Tokens of short texts.
use page_model::Place;
use std::test::Fail;
use text_scan::{CssKind, CssToken, HtmlKind, ScanFault, scan_css, scan_html, scan_words};

#[test]
fn tokens_of_a_page(rt: HostRuntime) -> Result<(), Fail> {
    let tokens = scan_html(rt.alloc(), b"<!doctype HTML>\n<p a = 'b'/><!-- c --></p>")?;
    assert_eq!(rt; tokens.len(), 3);
    let opening = tokens.get(1).copied().ok_or("no second token")?;
    assert_eq!(rt; opening.kind, HtmlKind::Opening);
    assert_eq!(rt; opening.place, Place { from: 16, to: 28 });
    Ok(())
}

#[test]
fn words_of_a_page(rt: HostRuntime) -> Result<(), Fail> {
    let words = scan_words(rt.alloc(), b"<style>a{}</style>")?;
    assert_eq!(rt; words.len(), 3);
    let raw = words.get(1).ok_or("no second word")?;
    assert_eq!(rt; raw.content.kind, HtmlKind::Raw);
    assert_eq!(rt; raw.content.name, b"a{}".as_slice());
    Ok(())
}

#[test]
fn tokens_of_a_style_text(rt: HostRuntime) -> Result<(), Fail> {
    let text = b"<.a{x:-.5e3 /* ; */}";
    let tokens = scan_css(rt.alloc(), text, Place { from: 1, to: 20 })?;
    assert_eq!(rt; tokens.len(), 7);
    let number = CssToken {
        kind: CssKind::Number,
        place: Place { from: 6, to: 11 },
    };
    assert_eq!(rt; tokens.get(5).copied(), Some(number));
    Ok(())
}

#[test]
fn comments_that_nothing_ends(rt: HostRuntime) {
    let text = b"a /* b */ +- /*/";
    let whole = scan_css(rt.alloc(), text, Place { from: 0, to: 10 });
    assert!(rt; whole.is_ok());
    let sign = scan_css(rt.alloc(), text, Place { from: 0, to: 16 });
    assert!(rt; matches!(sign, Err(ScanFault::BadToken { at: 10 })));
    let open = scan_css(rt.alloc(), text, Place { from: 12, to: 16 });
    assert!(rt; matches!(open, Err(ScanFault::BadToken { at: 13 })));
}
