// A run over files and a text in memory, and rows of runs.
use flash_top::{Status, run};
use io_edge::{MemorySink, MemorySource};
use sample_pages::{lamp, page_of};
use std::alloc::Global;
use std::test::Fail;

/// Most rows are of this command.
pub const CHECK: &str = "check p 1024x768 60";

/// The witness of a lamp of black and white whose changes are 125 ms apart, at sixty frames a second.
pub const BLACK_AND_WHITE: &str =
    r#"{"area":87296,"height":768,"parts":[{"frames":[0,8,15,23,30,38,45,53,60],"height":256,"kind":"general","tints":["000000","ffffff","000000","ffffff","000000","ffffff","000000","ffffff","000000"],"width":341,"x":0,"y":0}],"rate":60,"start":0,"verdict":"fail","version":1,"width":1024,"x":0,"y":0}
"#;

/// A page by its bytes, by its style text and its boxes, or as a lamp: two colours, and what its animation does; one of
/// a box, by its colour and what else its style has, with keyframes `f` from `transparent` to red; one of so many boxes
/// that have no place, or have one; the empty page with so many spaces behind it, and spaces alone.
#[derive(Clone, Copy)]
pub enum Page {
    Whole(&'static [u8]),
    Styled(&'static str, &'static str),
    Lamp(&'static str, &'static str, &'static str),
    Coloured(&'static str, &'static str),
    Boxes(usize),
    Placed(usize),
    Followed(usize),
    Spaces(usize),
}

/// What stands between a run and its page and text: the most bytes of a read, the call of the source that fails, the
/// most bytes of a write, each 0 for none, and the room of the sink.
#[derive(Clone, Copy)]
pub struct Ends {
    pub read: u32,
    pub failing: u32,
    pub written: u32,
    pub room: u32,
}

/// Ends at which nothing is cut and nothing fails.
pub const WHOLE: Ends = Ends {
    read: 0,
    failing: 0,
    written: 0,
    room: 4096,
};

/// A page, the words of a run on it, and the status and the text that it must have.
#[derive(Clone, Copy)]
pub struct Row {
    pub shows: &'static str,
    pub page: Page,
    pub words: &'static str,
    pub status: Status,
    pub text: &'static str,
}

/// A page and a witness, the words of a run that tests it, and the status and the text that it must have.
#[derive(Clone, Copy)]
pub struct Verified {
    pub shows: &'static str,
    pub page: Page,
    pub words: &'static str,
    pub witness: &'static str,
    pub status: Status,
    pub text: &'static str,
}

/// The style text of black boxes of one pixel.
const DOT: &str =
    ".b{position:absolute;left:0px;top:0px;width:1px;height:1px;background-color:#000000}";

/// How a run went: its status, and what was written.
#[derive(Drop)]
pub struct Told {
    pub status: Status,
    pub text: Vec<u8>,
}

/// The words of a line, which are parted by single spaces.
pub fn words_of(alloc: Global, line: &str) -> Result<Vec<String>, Fail> {
    let mut words = Vec::new(alloc);
    for word in line.split_whitespace() {
        words.push(String::from_str(alloc, word)?)?;
    }
    Ok(words)
}

/// A source whose file `p` is the page, and whose file `w`, where there is one, the witness.
fn source_of(
    alloc: Global,
    page: &[u8],
    witness: Option<&[u8]>,
    ends: Ends,
) -> Result<MemorySource, Fail> {
    let mut source = MemorySource::new(alloc);
    source.add("p", page)?;
    if let Some(witness) = witness {
        source.add("w", witness)?;
    }
    if ends.read > 0 {
        source.dole(ends.read);
    }
    if ends.failing > 0 {
        source.fail_at(ends.failing)?;
    }
    Ok(source)
}

/// A sink with so much room, which takes so much at a time.
fn sink_of(alloc: Global, ends: Ends) -> Result<MemorySink, Fail> {
    let mut sink = MemorySink::new(alloc, ends.room)?;
    if ends.written > 0 {
        sink.dole(ends.written);
    }
    Ok(sink)
}

/// The run of these words between such ends, where the file `p` is this page, and `w` this witness.
pub fn run_between(
    alloc: Global,
    line: &str,
    page: &[u8],
    witness: Option<&[u8]>,
    ends: Ends,
) -> Result<Told, Fail> {
    let words = words_of(alloc, line)?;
    let mut source = source_of(alloc, page, witness, ends)?;
    let mut sink = sink_of(alloc, ends)?;
    let status = run(alloc, words.as_slice(), &mut source, &mut sink);
    let text = sink.bytes().to_vec(alloc)?;
    Ok(Told { status, text })
}

/// The run of these words where the file `p` has these bytes.
pub fn run_on(alloc: Global, line: &str, page: &[u8]) -> Result<Told, Fail> {
    run_between(alloc, line, page, None, WHOLE)
}

/// The bytes of a page.
pub fn bytes_of(alloc: Global, page: Page) -> Result<Vec<u8>, Fail> {
    let text = match page {
        Page::Whole(bytes) => return Ok(bytes.to_vec(alloc)?),
        Page::Spaces(count) => return Ok(vec![in alloc; b' '; count]?),
        Page::Styled(style, boxes) => page_of(alloc, style, boxes)?,
        Page::Lamp(first, second, animation) => {
            let style = lamp(alloc, first, second, animation)?;
            page_of(alloc, style.as_str(), "")?
        }
        Page::Coloured(colour, more) => {
            let style = format!(in alloc;
                ".b{{position:absolute;left:0px;top:0px;width:10px;height:10px;background-color:{colour};{more}}}@keyframes f{{from{{background-color:transparent}}to{{background-color:#ff0000}}}}"
            )?;
            page_of(alloc, style.as_str(), "<div class=\"b\"></div>")?
        }
        Page::Boxes(count) => {
            let boxes = "<div></div>".repeat(alloc, count)?;
            page_of(alloc, "", boxes.as_str())?
        }
        Page::Placed(count) => {
            let boxes = "<div class=\"b\"></div>".repeat(alloc, count)?;
            page_of(alloc, DOT, boxes.as_str())?
        }
        Page::Followed(count) => {
            let page = page_of(alloc, "", "")?;
            let spaces = " ".repeat(alloc, count)?;
            format!(in alloc; "{page}{spaces}")?
        }
    };
    Ok(text.into_bytes())
}

/// Whether a run was told with this status and this text.
pub fn is_told(told: &Told, status: Status, text: &[u8]) -> bool {
    told.status == status && told.text.as_slice() == text
}

/// What the first row shows that isn't told as it must be.
pub fn first_wrong(alloc: Global, rows: &[Row]) -> Result<Option<&'static str>, Fail> {
    for row in rows {
        let page = bytes_of(alloc, row.page)?;
        let told = run_on(alloc, row.words, page.as_slice())?;
        if !is_told(&told, row.status, row.text.as_bytes()) {
            return Ok(Some(row.shows));
        }
    }
    Ok(None)
}

/// What the first row of a witness shows that isn't told as it must be.
pub fn first_untrue(alloc: Global, rows: &[Verified]) -> Result<Option<&'static str>, Fail> {
    for row in rows {
        let page = bytes_of(alloc, row.page)?;
        let told = run_between(
            alloc,
            row.words,
            page.as_slice(),
            Some(row.witness.as_bytes()),
            WHOLE,
        )?;
        if !is_told(&told, row.status, row.text.as_bytes()) {
            return Ok(Some(row.shows));
        }
    }
    Ok(None)
}
