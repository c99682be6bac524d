// The operations of a colour attachment: a Clear carries a record of four f64.
ghost use Rattle.std.specs.Prelude.{◌≡◌};
ghost use Rattle.definition.specs.Channel as Ch;
ghost use Rattle.definition.specs.Check.{slot_load};
ghost use Rattle.definition.specs.Pass as Ps;
ghost use Rattle.channel.specs.Operations.{ops_in};

use crate::{LoadOp, Operations, StoreOp};
use definition::{Color, Slot, black};

// What a slot does, by its row's numbers.
pub fn ops_of(c: Slot) -> Operations<Color>
    ensures { ops_in result ≡ Ch.operational (slot_load c) (Ch.keep_of c.store) }
{
    Operations {
        load: LoadOp::of(c.load, c.clear),
        store: StoreOp::from(c.store),
    }
}

impl Operations<Color> {
    // A value that is not cleared is zero.
    pub fn clear_value(self) -> Color
        ensures { result ≡ Ch.clear_value Ps.black (ops_in self).load }
    {
        self.load.clear_value_or(black())
    }
}
