// The fault of a page as it is told.
ghost use Rattle.std.specs.Prelude.{◌≡◌};
ghost use Rattle.flash_top.specs.Refusals.{refused};
ghost use Rattle.page_loader.specs.declared.load_fault.LoadFault.TheVariants.{Page, Scene as NoScene, Sheet};

use crate::outcome::Outcome;
use crate::refusal::PageRefusal;
use cascade::SceneFault;
use css_reader::SheetFault;
use page_loader::LoadFault;
use page_reader::PageFault;

/// What a fault of loading comes to.
pub(crate) fn refused(fault: LoadFault) -> Outcome
    ensures { result ≡ refused fault }
{
    match fault {
        LoadFault::Page(fault) => refused_text(fault),
        LoadFault::Sheet(fault) => refused_style(fault),
        LoadFault::Scene(fault) => refused_scene(fault),
        LoadFault::NoMemory => Outcome::NoMemory,
    }
}

/// A fault of the page's text.
fn refused_text(fault: PageFault) -> Outcome
    ensures { result ≡ refused (Page fault) }
{
    match fault {
        PageFault::BadText { at } => Outcome::Refused(PageRefusal::BadText { at }),
        PageFault::TooMany => Outcome::Refused(PageRefusal::TooManyBoxes),
        PageFault::NoMemory => Outcome::NoMemory,
    }
}

/// A fault of style text.
fn refused_style(fault: SheetFault) -> Outcome
    ensures { result ≡ refused (Sheet fault) }
{
    match fault {
        SheetFault::BadSheet { at } => Outcome::Refused(PageRefusal::BadSheet { at }),
        SheetFault::UnknownProperty { at } => Outcome::Refused(PageRefusal::UnknownProperty { at }),
        SheetFault::BadValue { at } => Outcome::Refused(PageRefusal::BadValue { at }),
        SheetFault::BadKeyframes { at } => Outcome::Refused(PageRefusal::BadKeyframes { at }),
        SheetFault::OverLimit { at } => Outcome::Refused(PageRefusal::OverLimit { at }),
        SheetFault::NoMemory => Outcome::NoMemory,
    }
}

/// A fault of an element.
fn refused_scene(fault: SceneFault) -> Outcome
    ensures { result ≡ refused (NoScene fault) }
{
    match fault {
        SceneFault::NotPlaced { index } => Outcome::Refused(PageRefusal::NotPlaced { index }),
        SceneFault::BodyProperty => Outcome::Refused(PageRefusal::BodyProperty),
        SceneFault::TooManyAnimations { index } => {
            Outcome::Refused(PageRefusal::TooManyAnimations { index })
        }
        SceneFault::NoMemory => Outcome::NoMemory,
    }
}
