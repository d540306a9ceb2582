//! Plans.

ghost use Rattle.std.specs.Prelude.{◌≡◌, ◌∷◌, ◌++◌, OnOk, OnErr};
ghost use Rattle.lg_plan.specs.Plans.{first_plan, with_event, with_mark, with_reply};
ghost use Rattle.lg_plan.specs.Steps.{events_in};

use crate::step::Step;
use crate::stripes::{event_stripes, joined};
use lg_book::FirstVolumes;
use lg_containers::Shared;
use lg_turns::StripeSet;
use lg_types::{Event, Mark, NoMemory};
use lg_views::Reply;
use std::alloc::Global;
use std::marker::Model;
use std::mem;

/// The events that a call adds at a place, with what it is answered then.
#[derive(Drop)]
pub struct Plan {
    pub(crate) alloc: Global,
    pub(crate) place: u64,
    pub(crate) steps: Vec<Step>,
    // The stripes that the events touch.
    pub(crate) stripes: StripeSet,
    reply: Reply,
    mark: Mark,
}

impl Model for Plan {
    ghost use Rattle.lg_plan.specs.Plans.{PlanState};
    ghost use Rattle.lg_plan.specs.Steps.{events_in, volumes_in, IsPlan};

    ghost Value = { PlanState };

    ghost view = { λ p. record { place = p.place; events = events_in p.steps.items; volumes = volumes_in p.steps.items; reply = p.reply; mark = p.mark } };

    ghost invariant = { λ p. IsPlan p.place p.steps.items p.stripes };
}

impl Plan {
    /// A plan without events, to be added after as many events as `place` says.
    pub fn new(alloc: Global, place: u64, reply: Reply) -> Plan
        ensures { result ≡ first_plan place reply }
    {
        Plan {
            alloc,
            place,
            steps: Vec::new(alloc),
            stripes: StripeSet::none(),
            reply,
            mark: Mark { caller: 0, line: 0 },
        }
    }

    /// Adds an event after those that the plan has, with the volumes that its first reply shows.
    pub fn push(&mut self, event: Event, volumes: FirstVolumes) -> Result<(), NoMemory>
        ensures ok { OnOk result (self.new ≡ with_event self.old event volumes) }
        ensures err { OnErr result (self.new ≡ self.old) }
    {
        let stripes = event_stripes(&event);
        let count = self.steps.len() as u64;
        if u64::MAX - self.place <= count {
            return Err(NoMemory);
        }
        let event = Shared::new(self.alloc, event)?;
        let volumes = Shared::new(self.alloc, volumes)?;
        self.steps.push(Step {
            event,
            volumes,
            stripes,
        })?;
        self.stripes = joined(self.stripes, stripes);
        Ok(())
    }

    /// How many events there are before its first.
    pub fn place(&self) -> u64
        ensures { result ≡ self.now.place }
    {
        self.place
    }

    pub fn reply(&self) -> &Reply
        ensures { result.now ≡ self.now.reply }
    {
        &self.reply
    }

    pub fn into_reply(self) -> Reply
        ensures { result ≡ self.reply }
    {
        self.reply
    }

    pub fn set_reply(&mut self, reply: Reply)
        ensures { self.new ≡ with_reply self.old reply }
    {
        self.reply = reply;
    }

    /// The plan with the mark of the call that adds its events.
    pub fn with_mark(self, mark: Mark) -> Plan
        ensures { result ≡ with_mark self mark }
    {
        let mut marked = self;
        marked.mark = mark;
        marked
    }

    /// The events that were planned, which leave the plan.
    pub(crate) fn take_steps(&mut self) -> Vec<Step>
        ensures steps { events_in result.items ≡ self.old.events }
        ensures left { self.new ≡ first_plan self.old.place self.old.reply }
    {
        self.stripes = StripeSet::none();
        self.mark = Mark { caller: 0, line: 0 };
        mem::replace(&mut self.steps, Vec::new(self.alloc))
    }
}
