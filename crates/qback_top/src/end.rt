//! How a run ends, and its report.

ghost use Rattle.std.specs.Prelude.{◌≡◌, ◌++◌, IsTrue, OnOk};
ghost use Rattle.disk_model.specs.World.{World, Runs, PrintCause, PrintsPart, only_text};
ghost use Rattle.qback_top.specs.Endings.{Refused, Says, line_of};
ghost use Rattle.qback_top.specs.Shown.{Reports, status_at};

use crate::stop::Stop;
use disk_model::{Console, Failed};
use itoa::Buffer;

/// How a run ends. Names are the words' own.
#[derive(Debug, Drop)]
pub enum End<'a> {
    /// All was done and printed.
    Done,
    /// The words have no form.
    NoForm,
    /// This file isn't there.
    Missing(&'a str),
    /// This file, which was to be made, is there.
    Exists(&'a str),
    /// This file is refused, for this reason.
    Refused(&'a str, &'a str),
    /// This line of the script, from 1, is the first without a form.
    BadLine(u64),
    /// The run stopped early.
    Stopped(Stop),
}

/// Prints three texts in a row, as far as prints succeed.
pub fn say_parts<D: Console>(
    depot: &mut D,
    front: &[u8],
    middle: &[u8],
    back: &[u8],
) -> Result<(), Failed>
    ensures printed { OnOk result (IsTrue (D.world depot.old).prints → (D.world depot.new).printed ≡ (D.world depot.old).printed ++ (front.now ++ middle.now ++ back.now)) }
    ensures part { PrintsPart (front.now ++ middle.now ++ back.now) (D.world depot.old) (D.world depot.new) }
    ensures run { Runs only_text (D.world depot.old) (D.world depot.new) }
    ensures cause { PrintCause (D.world depot.old) (D.world depot.new) result }
{
    depot.print(front)?;
    depot.print(middle)?;
    depot.print(back)?;
    Ok(())
}

/// Prints a status line of three parts. What can't be printed is left out.
fn say_line<D: Console>(depot: &mut D, front: &[u8], middle: &[u8], back: &[u8])
    ensures { Says (front.now ++ middle.now ++ back.now) (D.world depot.old) (D.world depot.new) }
{
    let _ = say_parts(depot, front, middle, back);
}

/// Prints a name and a reason between two texts, as far as prints succeed.
fn say_reason<D: Console>(depot: &mut D, name: &str, reason: &str) -> Result<(), Failed>
    ensures printed { OnOk result (IsTrue (D.world depot.old).prints → (D.world depot.new).printed ≡ (D.world depot.old).printed ++ line_of (Refused name.now reason.now)) }
    ensures part { PrintsPart (line_of (Refused name.now reason.now)) (D.world depot.old) (D.world depot.new) }
    ensures run { Runs only_text (D.world depot.old) (D.world depot.new) }
    ensures cause { PrintCause (D.world depot.old) (D.world depot.new) result }
{
    say_parts(depot, b"file ", name.as_bytes(), b" ")?;
    say_parts(depot, reason.as_bytes(), b"\n", b"")
}

/// Prints why a file is refused. What can't be printed is left out.
fn say_refused<D: Console>(depot: &mut D, name: &str, reason: &str)
    ensures { Says (line_of (Refused name.now reason.now)) (D.world depot.old) (D.world depot.new) }
{
    let _ = say_reason(depot, name, reason);
}

/// Prints how the run ended, and answers its status. A line that can't be printed doesn't change the status.
pub fn report<D: Console>(depot: &mut D, end: &End) -> u8
    ensures status { result ≡ status_at end.now }
    ensures reports { Reports (D.world depot.old) (D.world depot.new) end.now }
    ensures run { Runs only_text (D.world depot.old) (D.world depot.new) }
{
    match end {
        End::Done => 0,
        End::NoForm => {
            say_line(depot, b"words\n", b"", b"");
            1
        }
        End::Missing(name) => {
            say_line(depot, b"file ", name.as_bytes(), b" Missing\n");
            2
        }
        End::Exists(name) => {
            say_line(depot, b"exists ", name.as_bytes(), b"\n");
            8
        }
        End::Refused(name, reason) => {
            say_refused(depot, name, reason);
            2
        }
        End::BadLine(n) => {
            let mut digits = Buffer::new();
            say_line(depot, b"line ", digits.format(*n).as_bytes(), b"\n");
            5
        }
        End::Stopped(Stop::Fault) => {
            say_line(depot, b"device\n", b"", b"");
            3
        }
        End::Stopped(Stop::Memory) => {
            say_line(depot, b"memory\n", b"", b"");
            4
        }
    }
}
