// "The fence tracker of one TVM is lent and moved on": version and awaited set behind a `&mut`, thin over the core by value.
ghost use Rattle.std.specs.Prelude.{◌≡◌, ◌<◌};
ghost use Rattle.fences.specs.Trackers.{begun, struck};

use super::{Tracker, Version};

impl<V: Version> Tracker<V> {
    pub fn begin(&mut self, awaited: u8)
        requires { V.number self.old.version < 65535 }
        ensures { self.new ≡ begun V.number V.numbered self.old awaited }
    {
        *self = self.begun(awaited);
    }

    pub fn strike(&mut self, hart: u8)
        requires { hart < 8 }
        ensures { self.new ≡ struck self.old hart }
    {
        *self = self.struck(hart);
    }
}
