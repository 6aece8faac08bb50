//! Events carried out one after another, and each answer told.

ghost use Rattle.std.specs.Prelude.{◌≡◌, ◌++◌, ◌∷◌, ◌<◌, ◌≤◌, ℕ, List, [], Bool, Option, Some, IsTrue, IsSome, IfOk, IfErr, OnOk, OnErr, true, false};
ghost use Rattle.disk_model.specs.World.{World, Runs, PrintsPart};
ghost use Rattle.core_events.specs.Answers as answers;
ghost use Rattle.core_events.specs.Events as events;
ghost use Rattle.core_events.specs.Views.{plain_event, plain_answer};
ghost use Rattle.plain_model.specs.Step.{IsWhole};
ghost use Rattle.core_node.specs.Standing.{HasFiles};
ghost use Rattle.core_node.specs.Touches.{SameSource, IsOfTarget};
ghost use Rattle.core_node.specs.Rest.{Files, State};
ghost use Rattle.core_loop.specs.Course.{Given, Heard, Exports, Answered, asked, talk_with, run_parts};
ghost use Rattle.core_loop.specs.Sessions.{Starts, RanEvents, HaltedFor, HaltedOutside, OwesAll, Says, Gives, AreApart, StayApart, IsCalm};

use core_events::{Answer, Event, ExportList};
use core_node::Node;
use disk_model::{Console, Depot};
use std::alloc::Global;

/// Why a run of events stops early.
#[derive(Debug, Drop)]
pub enum Halt {
    /// There was no memory.
    Memory,
    /// A print failed.
    Fault,
    /// Another call of what gives the events failed.
    Lost,
}

/// What gives events one after another, and is told the answer to each: a script, or the clients of a server. It may write files of its own, as
/// a recording.
pub trait Source<D: Depot + Console> {
    /// All that it gave, in order, and what it gave last.
    ghost gave: { Self → List Given };

    ghost held: { Self → Option Given };

    /// The events that it may give yet, and how many at most.
    ghost gives: { Self → events.Event → Type 0 };

    ghost left: { Self → ℕ };

    /// Nothing more comes, after this was printed.
    ghost over: { Self → List ℕ → Type 0 };

    /// The numbers of its own files.
    ghost own: { Self → ℕ → Type 0 };

    /// It went on from the one to the other, and was shown these exports and told these answers meanwhile.
    ghost goes: { Self → List Heard → Self → Type 0 };

    /// What it knows of the outside: of its own files, and of what was printed and sent.
    ghost knows: { Self → World → Type 0 };

    /// Whether the image is to be left as it is, without a closing.
    ghost leaves_open: { Self → Bool };

    /// Looks for the next event, and answers whether there is one. What it prints meanwhile is no answer to an event.
    fn next(&mut self, outside: &mut D, exports: &ExportList) -> Result<bool, Halt>
        requires own_given { (f : ℕ) → own self.old f → f < (D.world outside.old).given }
        ensures gave { IfOk result (λ more. Gives more (gives self.old) (over self.new) (gave self.old) (gave self.new) (held self.new) (left self.old) (left self.new) (D.world outside.old) (D.world outside.new)) }
        ensures kept { OnErr result (gave self.new ≡ gave self.old) }
        ensures said { OnErr result ((t : List ℕ) × Says t (D.world outside.old) (D.world outside.new)) }
        ensures goes { goes self.old (Exports exports.now ∷ []) self.new }
        ensures knows { knows self.old (D.world outside.old) → knows self.new (D.world outside.new) }
        ensures cause { IfErr result (λ why. HaltedFor why (D.world outside.old) (D.world outside.new)) }
        ensures apart { IsTrue (D.world outside.old).tells → knows self.old (D.world outside.old) → StayApart (own self.old) (D.world outside.old) (D.world outside.new) }
        ensures run { Runs (talk_with (own self.old)) (D.world outside.old) (D.world outside.new) };

    /// The event that it gave last.
    fn event(&self) -> &Event
        requires { IsSome (held self.now) }
        ensures { (g : Given) → held self.now ≡ Some g → g.event ≡ plain_event result.now };

    /// Tells the answer to it, by its number, which stays at its last value.
    fn answered(&mut self, outside: &mut D, number: u64, answer: &Answer) -> Result<(), Halt>
        requires held { IsSome (held self.old) }
        requires own_given { (f : ℕ) → own self.old f → f < (D.world outside.old).given }
        ensures told { (g : Given) → held self.old ≡ Some g → OwesAll result → Says (g.tell number (plain_answer answer.now)) (D.world outside.old) (D.world outside.new) }
        ensures part { (g : Given) → held self.old ≡ Some g → PrintsPart (g.tell number (plain_answer answer.now)) (D.world outside.old) (D.world outside.new) }
        ensures gave { gave self.new ≡ gave self.old }
        ensures left { left self.new ≤ left self.old }
        ensures goes { OnOk result (goes self.old (Answered (plain_answer answer.now) true ∷ []) self.new) }
        ensures failed { OnErr result (goes self.old (Answered (plain_answer answer.now) false ∷ []) self.new) }
        ensures knows { knows self.old (D.world outside.old) → knows self.new (D.world outside.new) }
        ensures cause { IfErr result (λ why. HaltedFor why (D.world outside.old) (D.world outside.new)) }
        ensures apart { IsTrue (D.world outside.old).tells → knows self.old (D.world outside.old) → StayApart (own self.old) (D.world outside.old) (D.world outside.new) }
        ensures run { Runs (talk_with (own self.old)) (D.world outside.old) (D.world outside.new) };

    /// Once nothing more comes: whether the session ends without a closing, as a program that stops at once.
    fn leaves_open(&self) -> bool
        ensures { result ≡ leaves_open self.now };

    ghost stays: { (s : Self) → goes s [] s };

    ghost goes_on: { (a b c : Self) (heard more : List Heard) → goes a heard b → goes b more c → goes a (heard ++ more) c };

    /// As it goes on it gives no other events, and has no other files.
    ghost narrows: { (a b : Self) (e : events.Event) (heard : List Heard) → goes a heard b → gives b e → gives a e };

    /// Calls of others leave what it knows.
    ghost calm: { (s : Self) (a b : World) → IsCalm (own s) a b → knows s a → knows s b };

    ghost owns: { (a b : Self) (f : ℕ) (heard : List Heard) → goes a heard b → own b f → own a f };
}

/// Carries out the events that come, up to one that ends the machine, and tells each answer.
pub fn run_events<N: Node, D: Depot + Console, S: Source<D>>(
    alloc: Global,
    depot: &mut D,
    node: &mut N,
    source: &mut S,
    answer: &mut Answer,
) -> Result<(), Halt>
    requires files { HasFiles (N.shown node.old) (D.world depot.old) }
    requires fresh { S.gave source.old ≡ [] }
    requires own_given { (f : ℕ) → S.own source.old f → f < (D.world depot.old).given }
    requires whole { (e : events.Event) → S.gives source.old e → IsWhole e }
    requires takes { (e : events.Event) → S.gives source.old e → N.takes e }
    ensures ran { (files : Files) (s : State) → IsTrue (D.world depot.old).tells → AreApart (S.own source.old) (N.shown node.old).file (D.world depot.old) →
        S.knows source.old (D.world depot.old) →
        Starts files (N.shown node.old) (N.keeps node.old (D.world depot.old)) (asked (S.gave source.new)) s (D.world depot.old) →
        RanEvents N.reading (S.own source.old) files ((D.world depot.old).named (N.shown node.old).file) s (N.shown node.old) (N.keeps node.new (D.world depot.new)) result (N.shown node.new).ended (S.over source.new) (λ heard. S.goes source.old heard source.new) (S.gave source.new) (D.world depot.old) (D.world depot.new) }
    ensures knows { (files : Files) (s : State) → IsTrue (D.world depot.old).tells → AreApart (S.own source.old) (N.shown node.old).file (D.world depot.old) →
        Starts files (N.shown node.old) (N.keeps node.old (D.world depot.old)) (asked (S.gave source.new)) s (D.world depot.old) →
        S.knows source.old (D.world depot.old) → S.knows source.new (D.world depot.new) }
    ensures cause { IfErr result (λ why. HaltedOutside (S.own source.old) why (D.world depot.old) (D.world depot.new)) }
    ensures goes { (heard : List Heard) × S.goes source.old heard source.new }
    ensures same { SameSource (N.shown node.old) (N.shown node.new) }
    ensures given { HasFiles (N.shown node.new) (D.world depot.new) }
    ensures run { Runs (run_parts (N.shown node.old).file (IsOfTarget (N.shown node.old)) (S.own source.old) (asked (S.gave source.new)) (D.world depot.new)) (D.world depot.old) (D.world depot.new) }
{
    let mut number: u64 = 0;
    while !node.ended() {
        let more = match source.next(depot, node.exports()) {
            Ok(more) => more,
            Err(why) => return Err(why),
        };
        if !more {
            break;
        }
        number = number.saturating_add(1);
        let event = source.event();
        let Ok(()) = answer.make_room(alloc, event) else {
            return Err(Halt::Memory);
        };
        let Ok(()) = node.step(depot, event, answer) else {
            return Err(Halt::Memory);
        };
        if let Err(why) = source.answered(depot, number, answer) {
            return Err(why);
        }
    }
    Ok(())
}
