//! The lines of a script, in order.

ghost use Rattle.std.specs.Prelude.{◌≡◌, ◌≢◌, ◌+◌, ◌<◌, ◌≤◌, ◌^◌, ℕ, List, length, map, OnOk};
ghost use Rattle.disk_model.specs.World.{World, Runs, file_and_text};
ghost use Rattle.script_model.specs.Lines as spec;
ghost use Rattle.script_model.specs.Lines.{IsScript};
ghost use Rattle.qback_top.specs.Orders.{order_of};
ghost use Rattle.qback_top.specs.Open.{WhereOpen};
ghost use Rattle.qback_top.specs.Lines.{RanLines, BegunLines};
ghost use Rattle.qback_top.specs.Stops.{StopsFor};

use crate::answers::answer;
use crate::drive::{OK, say};
use crate::image::Image;
use crate::stop::Stop;
use disk_model::{Console, Depot};
use script_codec::{Line, first_line, read_line};
use std::alloc::Global;

/// The answer to a line that ends the run without a closing.
const STOPPED: &[u8] = b"stopped\n";

/// Carries out the lines up to one that ends the run, and closes the image unless that line stops it. Each line is read,
/// carried out and let go.
pub fn run_lines<D: Depot + Console>(
    alloc: Global,
    depot: &mut D,
    mut image: Image,
    text: &[u8],
) -> Result<(), Stop>
    requires given { image.file.0 < (D.world depot.old).given }
    requires l1 { image.l1 ≤ 2 ^ 41 }
    requires end { image.end ≤ 2 ^ 41 }
    requires size { image.size ≤ 2 ^ 21 }
    requires short { length text.now ≤ 2 ^ 28 }
    requires says { (lines : List spec.Line) × IsScript text.now lines }
    ensures ran { OnOk result (WhereOpen (D.world depot.old) image
        ((lines : List spec.Line) → IsScript text.now lines → RanLines (D.world depot.old) (D.world depot.new) image.file.0 (map order_of lines))) }
    ensures begun { WhereOpen (D.world depot.old) image
        ((lines : List spec.Line) → IsScript text.now lines → BegunLines (D.world depot.old) (D.world depot.new) image.file.0 (map order_of lines)) }
    ensures run { Runs (file_and_text image.file.0) (D.world depot.old) (D.world depot.new) }
    ensures cause { StopsFor (D.world depot.old) (D.world depot.new) result }
{
    let mut rest = text;
    while !rest.is_empty() {
        let (text, after) = first_line(rest);
        let Some(line) = read_line(alloc, text)? else {
            unreachable!()
        };
        if let Line::Stop = line {
            return say(depot, STOPPED);
        }
        if let Line::Quit = line {
            break;
        }
        answer(alloc, depot, &mut image, &line)?;
        rest = after;
    }
    depot.sync(image.file)?;
    say(depot, OK)
}
