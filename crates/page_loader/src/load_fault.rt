// Why a page isn't loaded.
use cascade::SceneFault;
use css_reader::SheetFault;
use page_reader::PageFault;
use thiserror::Error;

/// Why the bytes of a page give no scene: the first fault. None of the inner ones is want of memory.
#[derive(Clone, Copy, Debug, PartialEq, Eq, Drop, Error)]
pub enum LoadFault {
    /// The bytes spell no page, or one of too many boxes.
    #[error("{0}")]
    Page(PageFault),
    /// The style text or a style attribute isn't read.
    #[error("{0}")]
    Sheet(SheetFault),
    /// An element has a fault.
    #[error("{0}")]
    Scene(SceneFault),
    /// Memory was refused.
    #[error("no memory")]
    NoMemory,
}
