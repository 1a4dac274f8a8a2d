// From words to what they come to: the command that they spell is obeyed.
ghost use Rattle.std.specs.Prelude.{◌≡◌, map, string_bytes};
ghost use Rattle.flash_top.specs.Files.{OrUnread};
ghost use Rattle.flash_top.specs.Outcomes.{ComesTo, IsOutcome, MayOpenFiles};
ghost use Rattle.flash_words.specs.Words.{Spells};

use crate::checking::check;
use crate::lighting::light;
use crate::outcome::Outcome;
use crate::showing::demo;
use crate::tinting::{Spot, tint};
use crate::verifying::verify;
use flash_words::{Command, command};
use io_edge::Source;
use std::alloc::Global;

/// What the words come to, where files are those of the source.
pub(crate) fn outcome_of<S: Source>(alloc: Global, words: &[String], source: &mut S) -> Outcome
    requires { MayOpenFiles (map string_bytes words.now) (S.may_open source.old) }
    ensures { IsOutcome (map string_bytes words.now) (S.files source.old) (S.faults source.old) (S.faults source.new) result }
{
    match command(words) {
        Ok(command) => obey(alloc, words, &command, source),
        Err(_) => Outcome::WordsRefused,
    }
}

/// What the command comes to that the words spell.
fn obey<S: Source>(alloc: Global, words: &[String], command: &Command, source: &mut S) -> Outcome
    requires spelled { Spells (map string_bytes words.now) command.now }
    requires may_open { MayOpenFiles (map string_bytes words.now) (S.may_open source.old) }
    ensures { OrUnread (S.faults source.old) (S.faults source.new) result (ComesTo (map string_bytes words.now) (S.files source.old) command.now result) }
{
    match command {
        Command::Check { page, setup } => check(alloc, words[*page].as_str(), *setup, source),
        Command::Verify {
            page,
            witness,
            setup,
        } => verify(
            alloc,
            words[*page].as_str(),
            words[*witness].as_str(),
            *setup,
            source,
        ),
        Command::Tint {
            page,
            setup,
            frame,
            x,
            y,
        } => {
            let spot = Spot {
                frame: *frame,
                column: *x,
                row: *y,
            };
            tint(alloc, words[*page].as_str(), *setup, spot, source)
        }
        Command::Light { colour } => light(*colour),
        Command::Demo { number, setup } => demo(alloc, *number, *setup),
    }
}
