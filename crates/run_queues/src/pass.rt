use crate::item::Right;
use crate::rule::Knowing;
use std::marker::Model;

/// What one thread knows of the queue of results. It has no bytes.
///
/// A contract sees it as the queue's name, the view that it shows, the items that it gave and got, in order, and how
/// many puts and takes it may still make.
#[derive(Drop)]
pub struct ResPass<W: Right> {
    pub(crate) knowing: Knowing<W>,
}

impl<W: Right> Model for ResPass<W> {
    ghost use Rattle.std.specs.Prelude.{◌≡◌, []};
    ghost use Rattle.run_queues.specs.Showings.{Showing};
    ghost use Rattle.run_queues.specs.declared.entry.Stage.TheVariants.{Working};

    ghost Value = { Showing W };

    ghost view = { λ p. record {
      queue = p.knowing.table_id;
      view = p.knowing.me.0.client.view;
      gave = p.knowing.me.0.client.gave;
      got = p.knowing.me.0.client.got;
      left = p.knowing.me.0.client.left;
    } };

    ghost invariant = { λ p. (p.knowing.me.1 ≡ []) × (p.knowing.me.0.client.stage ≡ Working) };
}
