// Style texts and style attributes, by what they say and by their first fault.
use css_declarations::{SheetFault, read_inline};
use css_reader::{Sheet, read_sheet};
use page_model::{Longhand, Name, Place};
use std::alloc::Global;
use std::test::Fail;

#[test]
fn a_style_attribute_is_read(rt: HostRuntime) -> Result<(), Fail> {
    let text = b"<p style='left:1px;;TOP:-2px ! important /**/'>";
    let decls = read_inline(rt.alloc(), text, Place { from: 10, to: 45 })?;
    assert_eq!(rt; decls.len(), 2);
    let second = decls.get(1).ok_or("no second declaration")?;
    assert_eq!(rt; second.place, 20);
    assert!(rt; matches!(second.longhand, Longhand::Top(-200)));
    assert!(rt; second.important);
    Ok(())
}

#[test]
fn first_fault_of_a_style_attribute(rt: HostRuntime) {
    let text = b"left:1px;top:9000px;width:-1px";
    let part = Place { from: 0, to: 30 };
    let fault = read_inline(rt.alloc(), text, part).err();
    assert_eq!(rt; fault, Some(SheetFault::OverLimit { at: 13 }));
}

/// The sheet that a short text spells.
fn sheet_of(alloc: Global, text: &[u8]) -> Result<Sheet, SheetFault> {
    if text.len() > 1000 {
        return Err(SheetFault::NoMemory);
    }
    let all = Place {
        from: 0,
        to: text.len() as u32,
    };
    read_sheet(alloc, text, all)
}

/// A style text, and how many rules, selectors of the first rule, keyframe sets and keyframes of the first set it has.
const READ: [(&[u8], usize, usize, usize, usize); 4] = [
    (
        b"a.b#c,d{top:0}@KEYFRAMES f{to,0%{top:1px}}@keyframes g{}@keyframes f{50%{left:0}}",
        1,
        2,
        2,
        1,
    ),
    (b"div.a#b , .c{}", 1, 2, 0, 0),
    (b"@keyframes f{to,50%,0%{top:1px}}", 0, 0, 1, 3),
    (
        b"@keyframes f{}@keyframes o{0%{}}@keyframes f{0%{}50%{}to{}}",
        0,
        0,
        2,
        3,
    ),
];

#[test]
fn style_texts_are_read(rt: HostRuntime) -> Result<(), Fail> {
    for (text, rules, selectors, sets, frames) in READ.iter() {
        let sheet = sheet_of(rt.alloc(), text)?;
        let rule = sheet.rules().as_slice().first();
        let set = sheet.keyframe_sets().as_slice().first();
        assert_eq!(rt; sheet.rules().len(), *rules);
        assert_eq!(rt; rule.map_or(0, |rule| rule.selectors.len()), *selectors);
        assert_eq!(rt; sheet.sets(), *sets);
        assert_eq!(rt; set.map_or(0, |set| set.frames.len()), *frames);
        assert_eq!(rt; sheet.into_sets().len(), *sets);
    }
    Ok(())
}

#[test]
fn keyframe_sets_are_found_by_name(rt: HostRuntime) -> Result<(), Fail> {
    let sheet = sheet_of(
        rt.alloc(),
        b"@keyframes first{}@keyframes other{}@keyframes first{0%{}}",
    )?;
    for (name, number) in [
        (b"first" as &[u8], Some(0)),
        (b"other", Some(1)),
        (b"First", None),
    ] {
        assert_eq!(rt; sheet.set(&Name::new(rt.alloc(), name)?), number);
    }
    Ok(())
}

#[test]
fn keyframes_stand_in_order(rt: HostRuntime) -> Result<(), Fail> {
    let sheet = sheet_of(rt.alloc(), b"@keyframes f{to,50%,0%{top:1px}}")?;
    let set = sheet.keyframe_sets().get(0).ok_or("no set")?;
    for (place, offset) in [(0, 0), (1, 5000), (2, 10000)] {
        let frame = set.frames.get(place).ok_or("no keyframe")?;
        assert_eq!(rt; frame.offset, offset);
    }
    Ok(())
}

/// Style texts, and where two keyframes have one offset.
const TWICE: [(&[u8], u32); 2] = [
    (b"@keyframes f{50%{opacity:0}50.0%{opacity:x}}", 27),
    (b"@keyframes f{to,50%{}0%,to{}}", 24),
];

#[test]
fn offsets_that_stand_twice(rt: HostRuntime) {
    for (text, at) in TWICE.iter() {
        let fault = sheet_of(rt.alloc(), text).err();
        assert_eq!(rt; fault, Some(SheetFault::BadKeyframes { at: *at }));
    }
}
