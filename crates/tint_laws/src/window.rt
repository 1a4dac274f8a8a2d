// Laws of the windows of a scene.
ghost use Rattle.tint_laws.specs.WindowLaws.{BadWindowsLieBetween, KindsOfBadWindowsNest};

/// In a valid scene, a window that is surely bad by the tints of a kind is bad, and one that is bad
/// is possibly bad by them. A tint that leaves out what is behind a box that may be hidden would
/// be refused, and so would a possible change that asks for all colours of its tints.
pub fn bad_windows_lie_between()
    ensures { BadWindowsLieBetween }
{}

/// What is surely bad by the wide kind is so by the own kind, and what is possibly bad by the own
/// kind is so by the wide kind. A wide kind whose values of a curve are fewer than those of the own
/// interval would be refused.
pub fn kinds_of_bad_windows_nest()
    ensures { KindsOfBadWindowsNest }
{}
