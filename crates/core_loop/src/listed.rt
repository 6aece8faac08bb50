//! Events that lie in memory.

ghost use Rattle.std.specs.Prelude.{◌≡◌, ◌++◌, ◌-◌, ◌≤◌, ℕ, List, [], length, take, map, option_map, Contains, IsTrue, OnOk, false};
ghost use Rattle.std.proofs.Common.{refl, subst, ◌∙◌};
ghost use Rattle.disk_model.specs.World.{World, Runs, only_text, PrintsPart, PrintCause};
ghost use Rattle.core_events.specs.Answers as answers;
ghost use Rattle.core_events.specs.Events as events;
ghost use Rattle.core_events.specs.Views.{plain_event, plain_answer};
ghost use Rattle.core_loop.specs.Course.{given_unsaid, unsaid};
ghost use Rattle.core_loop.specs.Sessions.{Says};

use crate::events::{Halt, Source};
use core_events::{Answer, Event, ExportList};
use disk_model::{Console, Depot, Failed};

/// Tells answers.
pub trait Teller {
    /// The text of the answer to the event of this number.
    ghost text: { ℕ → events.Event → answers.Answer → List ℕ };

    fn tell<D: Console>(
        &self,
        console: &mut D,
        number: u64,
        event: &Event,
        answer: &Answer,
    ) -> Result<(), Failed>
        ensures told { OnOk result (Says (text number (plain_event event.now) (plain_answer answer.now)) (D.world console.old) (D.world console.new)) }
        ensures part { PrintsPart (text number (plain_event event.now) (plain_answer answer.now)) (D.world console.old) (D.world console.new) }
        ensures cause { PrintCause (D.world console.old) (D.world console.new) result }
        ensures run { Runs only_text (D.world console.old) (D.world console.new) };
}

/// Events that lie in memory, each answer to which is told.
#[derive(Drop)]
pub struct Listed<'a, T: Teller> {
    pub all: &'a [Event],
    /// How many of them were given, and the last of these.
    pub given: usize,
    pub held: Option<&'a Event>,
    pub teller: &'a T,
}

impl<'a, D: Depot + Console, T: Teller> Source<D> for Listed<'a, T> {
    ghost gave = { λ s. unsaid T.text (take s.given (map plain_event s.all.now)) };

    ghost held = { λ s. option_map (λ e. given_unsaid T.text (plain_event e.now)) s.held };

    ghost gives = { λ s e. Contains (map plain_event s.all.now) e };

    ghost left = { λ s. length s.all.now - s.given };

    ghost over = { λ s rest. (length s.all.now ≤ s.given) × (rest ≡ []) };

    ghost own = { λ s f. ⊥ };

    ghost knows = { λ s w. Unit {0} };

    ghost leaves_open = { λ s. false };

    ghost goes = { λ a heard b. b.all.now ≡ a.all.now };

    fn next(&mut self, _outside: &mut D, _exports: &ExportList) -> Result<bool, Halt> {
        match self.all.get(self.given) {
            Some(event) => {
                self.held = Some(event);
                self.given += 1;
                Ok(true)
            }
            None => Ok(false),
        }
    }

    fn event(&self) -> &Event {
        self.held.unwrap()
    }

    fn answered(&mut self, outside: &mut D, number: u64, answer: &Answer) -> Result<(), Halt> {
        match self
            .teller
            .tell(outside, number, self.held.unwrap(), answer)
        {
            Ok(()) => Ok(()),
            Err(_) => Err(Halt::Fault),
        }
    }

    fn leaves_open(&self) -> bool {
        false
    }

    ghost stays = { λ s. refl };

    ghost goes_on = { λ a b c heard more first second. second ∙ first };

    ghost narrows = { λ a b e heard goes gives. subst (λ es. Contains (map plain_event es) e) goes gives };

    ghost calm = { λ s a b calm knows. knows };

    ghost owns = { λ a b f heard goes own. own };
}
