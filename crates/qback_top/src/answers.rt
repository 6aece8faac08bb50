//! One line of a script, carried out on an image and answered.

ghost use Rattle.std.specs.Prelude.{◌≡◌, ◌+◌, ◌<◌, ◌≤◌, ◌^◌, OnOk};
ghost use Rattle.disk_model.specs.World.{World, Runs, file_and_text};
ghost use Rattle.core_events.specs.Views.{plain_request};
ghost use Rattle.script_codec.specs.Views.{plain_line};
ghost use Rattle.qback_top.specs.Orders.{request_order, order_of};
ghost use Rattle.qback_top.specs.Open.{WhereOpen, Goes};
ghost use Rattle.qback_top.specs.Lines.{Answered, Begun};
ghost use Rattle.qback_top.specs.Stops.{StopsFor};

use crate::drive::{INVALID, OK, answer_drive, say};
use crate::image::Image;
use crate::stop::Stop;
use core_events::{Request, Way};
use disk_model::{Console, Depot};
use script_codec::Line;
use std::alloc::Global;

/// The name of the drive.
const DRIVE: &[u8] = b"drive0";

/// The answer to a command: there is no monitor yet.
const UNBUILT: &[u8] = b"{\"error\":{\"class\":\"CommandNotFound\",\"desc\":\"Unbuilt\"}}\n";

/// Carries out a request, and prints its answer. There is no node but the drive.
fn answer_request<D: Depot + Console>(
    alloc: Global,
    depot: &mut D,
    image: &mut Image,
    request: &Request,
) -> Result<(), Stop>
    requires given { image.old.file.0 < (D.world depot.old).given }
    requires l1 { image.old.l1 ≤ 2 ^ 41 }
    requires end { image.old.end ≤ 2 ^ 53 }
    requires size { image.old.size ≤ 2 ^ 21 }
    ensures image { OnOk result (Goes image.old image.new (2 ^ 22 + 16384)) }
    ensures answered { let r = plain_request request.now in OnOk result (WhereOpen (D.world depot.old) image.old
        (Answered (D.world depot.old) (D.world depot.new) image.new image.old.file.0 (request_order r.way r.work r.offset r.length r.bytes))) }
    ensures begun { let r = plain_request request.now in WhereOpen (D.world depot.old) image.old
        (Begun (D.world depot.old) (D.world depot.new) image.old.file.0 (request_order r.way r.work r.offset r.length r.bytes)) }
    ensures run { Runs (file_and_text image.old.file.0) (D.world depot.old) (D.world depot.new) }
    ensures cause { StopsFor (D.world depot.old) (D.world depot.new) result }
{
    match &request.way {
        Way::Node(name) => {
            if name.items.as_slice() == DRIVE {
                answer_drive(alloc, depot, image, request)
            } else {
                say(depot, INVALID)
            }
        }
        Way::Export(_) => say(depot, INVALID),
    }
}

/// Carries out a line that doesn't end the run, and prints its answer. A tick has no job to serve.
pub fn answer<D: Depot + Console>(
    alloc: Global,
    depot: &mut D,
    image: &mut Image,
    line: &Line,
) -> Result<(), Stop>
    requires given { image.old.file.0 < (D.world depot.old).given }
    requires l1 { image.old.l1 ≤ 2 ^ 41 }
    requires end { image.old.end ≤ 2 ^ 53 }
    requires size { image.old.size ≤ 2 ^ 21 }
    ensures image { OnOk result (Goes image.old image.new (2 ^ 22 + 16384)) }
    ensures answered { OnOk result (WhereOpen (D.world depot.old) image.old
        (Answered (D.world depot.old) (D.world depot.new) image.new image.old.file.0 (order_of (plain_line line.now)))) }
    ensures begun { WhereOpen (D.world depot.old) image.old
        (Begun (D.world depot.old) (D.world depot.new) image.old.file.0 (order_of (plain_line line.now))) }
    ensures run { Runs (file_and_text image.old.file.0) (D.world depot.old) (D.world depot.new) }
    ensures cause { StopsFor (D.world depot.old) (D.world depot.new) result }
{
    match line {
        Line::Ask(request) => answer_request(alloc, depot, image, request),
        Line::Qmp(_) => say(depot, UNBUILT),
        Line::Tick => say(depot, OK),
        Line::Stop | Line::Quit | Line::Nothing => Ok(()),
    }
}
