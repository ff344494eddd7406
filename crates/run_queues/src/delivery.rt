use crate::heard::Mail;
use crossbeam_queue::protocol::{Join, Lesson, Outcome, Protocol, Split};
use crossbeam_queue::{RuledSegQueue, SegPass};
use run_watch::Inp;

/// The queue of the inbox under its rule.
pub type Mailbox = RuledSegQueue<Inp, Mail, Delivery>;

/// What one thread knows of the inbox.
pub type Knowledge = SegPass<Inp, Mail>;

/// The rule of the inbox.
pub struct Delivery;

impl Protocol<Inp, Mail> for Delivery {
    ghost use Rattle.run_queues.specs.Mails.{Delivers, opening};

    ghost holds = { Delivers };

    ghost first = { opening };
}

/// A push.
pub struct Sends;

impl Outcome<Inp, Mail> for Sends {
    ghost use Rattle.run_queues.specs.Deliveries.{Sends};

    ghost then = { Sends };
}

/// A pop, and an empty pop.
pub struct Gets;

impl Outcome<Inp, Mail> for Gets {
    ghost use Rattle.run_queues.specs.Deliveries.{Gets};

    ghost then = { Gets };
}

impl Lesson<Inp, Mail> for Gets {
    ghost use Rattle.run_queues.specs.Deliveries.{HeldBeside};

    ghost fact = { HeldBeside };
}

/// The split that notes an empty pop.
pub struct NotesEmpty;

impl Split<Mail> for NotesEmpty {
    ghost use Rattle.run_queues.specs.Mails.{spent};
    ghost use Rattle.run_queues.specs.Deliveries.{after_empty};

    ghost left = { after_empty };

    ghost right = { λ _. spent };
}

/// The split into the pass that puts and the one that takes, and their join.
pub struct Ends;

impl Split<Mail> for Ends {
    ghost use Rattle.run_queues.specs.Deliveries.{putting, taking};

    ghost left = { putting };

    ghost right = { taking };
}

impl Join<Mail> for Ends {
    ghost use Rattle.run_queues.specs.Mails.{spent};
    ghost use Rattle.run_queues.specs.Deliveries.{met};

    ghost both = { met };

    ghost spent = { spent };
}

/// A look at all that is left once the two passes are one.
pub struct Learns;

impl Lesson<Inp, Mail> for Learns {
    ghost use Rattle.run_queues.specs.Deliveries.{Lies};

    ghost fact = { Lies };
}
