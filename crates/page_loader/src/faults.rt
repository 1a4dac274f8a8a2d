// A fault of a part as one of the file.
ghost use Rattle.std.specs.Prelude.{◌≡◌};
ghost use Rattle.page_loader.specs.Faults.{of_page, of_scene, of_sheet};

use crate::load_fault::LoadFault;
use cascade::SceneFault;
use css_reader::SheetFault;
use page_reader::PageFault;

/// A fault of the page's text.
pub(crate) fn of_page(fault: PageFault) -> LoadFault
    ensures { result ≡ of_page fault }
{
    match fault {
        PageFault::NoMemory => LoadFault::NoMemory,
        PageFault::BadText { .. } | PageFault::TooMany => LoadFault::Page(fault),
    }
}

/// A fault of style text.
pub(crate) fn of_sheet(fault: SheetFault) -> LoadFault
    ensures { result ≡ of_sheet fault }
{
    match fault {
        SheetFault::NoMemory => LoadFault::NoMemory,
        SheetFault::BadSheet { .. }
        | SheetFault::UnknownProperty { .. }
        | SheetFault::BadValue { .. }
        | SheetFault::BadKeyframes { .. }
        | SheetFault::OverLimit { .. } => LoadFault::Sheet(fault),
    }
}

/// A fault of an element.
pub(crate) fn of_scene(fault: SceneFault) -> LoadFault
    ensures { result ≡ of_scene fault }
{
    match fault {
        SceneFault::NoMemory => LoadFault::NoMemory,
        SceneFault::NotPlaced { .. }
        | SceneFault::BodyProperty
        | SceneFault::TooManyAnimations { .. } => LoadFault::Scene(fault),
    }
}
