// Texts of witnesses, as another writer and another reader of JSON have them.
ghost use Rattle.witness_text.specs.WitnessForm.{IsToldRate};

use page_model::{Kind, List, Part, Rgb, Tint, Witness};
use std::alloc::Global;
use std::test::Fail;
use witness_text::{TextFault, from_text, to_text};

const BLACK: Rgb = Rgb { r: 0, g: 0, b: 0 };

const WHITE: Rgb = Rgb {
    r: 0xff,
    g: 0xff,
    b: 0xff,
};

const RED: Rgb = Rgb {
    r: 0xff,
    g: 0,
    b: 0,
};

const DARK: Rgb = Rgb {
    r: 0x0a,
    g: 0x1b,
    b: 0x2c,
};

const GREY: Rgb = Rgb {
    r: 0xe3,
    g: 0xe3,
    b: 0xe3,
};

const NEXT_GREY: Rgb = Rgb {
    r: 0xe4,
    g: 0xe4,
    b: 0xe4,
};

fn single(colour: Rgb) -> Tint {
    Tint {
        lo: colour,
        hi: colour,
    }
}

fn alternating(a: Tint, b: Tint) -> [Tint; 9] {
    [a, b, a, b, a, b, a, b, a]
}

fn black_and_white() -> Part {
    Part {
        x: 0,
        y: 0,
        width: 341,
        height: 256,
        kind: Kind::General,
        frames: [0, 8, 15, 23, 30, 38, 45, 53, 60],
        tints: alternating(single(BLACK), single(WHITE)),
    }
}

fn red_and_dark() -> Part {
    Part {
        x: 0,
        y: 0,
        width: 171,
        height: 100,
        kind: Kind::Red,
        frames: [0, 9, 10, 99, 100, 999, 1000, 65535, 4294967295],
        tints: alternating(single(RED), single(DARK)),
    }
}

fn two_greys() -> Part {
    let loose = Tint {
        lo: GREY,
        hi: NEXT_GREY,
    };
    Part {
        x: 4095,
        y: 65535,
        width: 1,
        height: 49,
        kind: Kind::General,
        frames: [1, 2, 3, 4, 5, 6, 7, 8, 9],
        tints: alternating(loose, single(WHITE)),
    }
}

/// The text of a witness.
fn text_of(alloc: Global, witness: &Witness) -> Result<Vec<u8>, Fail>
    requires { IsToldRate witness.now.rate witness.now.per }
{
    Ok(to_text(alloc, witness)?)
}

#[test]
fn black_white_lamp(rt: HostRuntime) -> Result<(), Fail> {
    let alloc = rt.alloc();
    let witness = Witness {
        width: 1024,
        height: 768,
        rate: 60,
        per: 1,
        start: 0,
        x: 0,
        y: 0,
        area: 87296,
        parts: List::from_vec(vec![in alloc; black_and_white()]?),
    };
    let text = text_of(alloc, &witness)?;
    let want =
        br#"{"area":87296,"height":768,"parts":[{"frames":[0,8,15,23,30,38,45,53,60],"height":256,"kind":"general","tints":["000000","ffffff","000000","ffffff","000000","ffffff","000000","ffffff","000000"],"width":341,"x":0,"y":0}],"rate":60,"start":0,"verdict":"fail","version":1,"width":1024,"x":0,"y":0}"#;
    assert_eq!(rt; text.as_slice(), want.as_slice());
    Ok(())
}

// Two parts, a red kind, a tint of two colours, and a rectangle that begins outside the viewport.
#[test]
fn red_and_loose_parts(rt: HostRuntime) -> Result<(), Fail> {
    let alloc = rt.alloc();
    let witness = Witness {
        width: 400,
        height: 300,
        rate: 240,
        per: 1,
        start: 4294967295,
        x: -170,
        y: -1,
        area: 22000,
        parts: List::from_vec(vec![in alloc; red_and_dark(), two_greys()]?),
    };
    let text = text_of(alloc, &witness)?;
    let want =
        br#"{"area":22000,"height":300,"parts":[{"frames":[0,9,10,99,100,999,1000,65535,4294967295],"height":100,"kind":"red","tints":["ff0000","0a1b2c","ff0000","0a1b2c","ff0000","0a1b2c","ff0000","0a1b2c","ff0000"],"width":171,"x":0,"y":0},{"frames":[1,2,3,4,5,6,7,8,9],"height":49,"kind":"general","tints":["e3e3e3-e4e4e4","ffffff","e3e3e3-e4e4e4","ffffff","e3e3e3-e4e4e4","ffffff","e3e3e3-e4e4e4","ffffff","e3e3e3-e4e4e4"],"width":1,"x":4095,"y":65535}],"rate":240,"start":4294967295,"verdict":"fail","version":1,"width":400,"x":-170,"y":-1}"#;
    assert_eq!(rt; text.as_slice(), want.as_slice());
    Ok(())
}

#[test]
fn no_part(rt: HostRuntime) -> Result<(), Fail> {
    let alloc = rt.alloc();
    let witness = Witness {
        width: 1,
        height: 4096,
        rate: 1,
        per: 1,
        start: 0,
        x: 2147483647,
        y: -2147483648,
        area: 0,
        parts: List::new(alloc),
    };
    let text = text_of(alloc, &witness)?;
    let want =
        br#"{"area":0,"height":4096,"parts":[],"rate":1,"start":0,"verdict":"fail","version":1,"width":1,"x":2147483647,"y":-2147483648}"#;
    assert_eq!(rt; text.as_slice(), want.as_slice());
    Ok(())
}

const HEAD: &[u8] =
    br#"{"area":22528,"height":256,"parts":[{"frames":[0,1,3,5,7,9,11,13,15],"height":256,"kind":"general","tints":["02b425","808080","02b425","808080","02b425","808080","02b425","808080","02b425"],"width":88,"x":0,"y":0}],"rate":20,"start":0,"verdict":"fail","version":1,"width":88,"x":0,"y":"#;

// What comes of a text that begins as the head, with what follows it.
fn read_with(alloc: Global, rest: &[u8]) -> Result<bool, Fail> {
    let mut text = Vec::new(alloc);
    text.extend_from_slice(HEAD)?;
    text.extend_from_slice(rest)?;
    match from_text(alloc, text.as_slice()) {
        Ok(witness) => Ok(witness.area == 22528 && witness.parts.len() == 1),
        Err(TextFault::BadWitness) => Ok(false),
        Err(TextFault::NoMemory) => Ok(false),
    }
}

/// What follows the head in texts that are taken.
const TAKEN: [&[u8]; 4] = [b"0}", b"0}\n", b" -7 \r\n\t}", br#"6e1,"\u0079":5}"#];

/// What follows it in texts that are refused.
const REFUSED: [&[u8]; 8] = [
    b"0",
    b"0}}",
    b"-0}",
    b"60.0}",
    b"2147483648}",
    b"0\x0c}",
    br#"0,"z":1}"#,
    br#"0,"parts":[1]}"#,
];

#[test]
fn texts_that_are_read(rt: HostRuntime) -> Result<(), Fail> {
    for (place, rest) in TAKEN.iter().enumerate() {
        assert!(rt; read_with(rt.alloc(), rest)?, "{place}");
    }
    for (place, rest) in REFUSED.iter().enumerate() {
        assert!(rt; !read_with(rt.alloc(), rest)?, "{place}");
    }
    Ok(())
}
