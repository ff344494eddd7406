use crate::delivery::Knowledge;
use run_watch::Inp;
use std::marker::Model;

/// The right to put inputs into an inbox. It has no bytes.
///
/// A contract sees it as the inbox's name and the inputs that were put, in order.
#[derive(Drop)]
pub struct PutPass {
    pub(crate) knowing: Knowledge,
}

impl Model for PutPass {
    ghost use Rattle.std.specs.Prelude.{◌≡◌, true, None};
    ghost use Rattle.run_queues.specs.Hearings.{Sending};

    ghost Value = { Sending };

    ghost view = { λ p. record {
      queue = record { web = p.knowing.web; heap = p.knowing.heap };
      sent = p.knowing.me.view.client.sent;
    } };

    ghost invariant = { λ p. (p.knowing.me.hand ≡ None) × (p.knowing.me.spare ≡ None) × (p.knowing.me.view.client.puts ≡ true) };
}

/// The right to take inputs out of an inbox, and an input that was taken out and not given yet.
///
/// A contract sees it as the inbox's name, what was heard, in order, that input, and the inputs that were put, in order, once
/// the put pass was joined to it.
#[derive(Drop)]
pub struct TakePass {
    pub(crate) knowing: Knowledge,
    pub(crate) kept: Option<Inp>,
}

impl Model for TakePass {
    ghost use Rattle.std.specs.Prelude.{◌≡◌, true, None};
    ghost use Rattle.run_queues.specs.Deliveries.{IsFront};
    ghost use Rattle.run_queues.specs.Hearings.{Hearing, sent_by};

    ghost Value = { Hearing };

    ghost view = { λ p. record {
      queue = record { web = p.knowing.web; heap = p.knowing.heap };
      heard = p.knowing.me.view.client.heard;
      kept = p.kept;
      sent = sent_by p.knowing.me.view.client;
    } };

    ghost invariant = { λ p. (p.knowing.me.hand ≡ None) × (p.knowing.me.spare ≡ None) × (p.knowing.me.view.client.takes ≡ true) × (p.knowing.me.view.client.puts ≡ true → IsFront p.knowing.me.view.client.heard p.knowing.me.view.client.sent) };
}
