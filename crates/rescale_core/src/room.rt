//! How much waits for the workers, and whether there is room for more. A queue's slices and parts count one each, and
//! so does a place for pieces, until the last of them was handed over.
ghost use Rattle.std.specs.Prelude.{◌≡◌, true};
ghost use Rattle.rescale_core.specs.Moving.{IsDriverOf};
ghost use Rattle.rescale_core.specs.Routing.{IsRouterOf};
ghost use Rattle.rescale_core.specs.Waiting.{HasRoom, waiting_in};
ghost use Rattle.rescale_core.specs.Worlds.{World};

use crate::driver::Driver;
use crate::queue::all_short;
use crate::router::Router;

impl Router {
    /// How much waits for the worker.
    pub fn waiting(&self, worker: u32) -> u64
        ensures { (w : World) → IsRouterOf self.now w → result ≡ waiting_in w worker }
    {
        if worker as usize >= self.queues.len() {
            return 0;
        }
        self.queues[worker as usize].waiting()
    }

    /// Whether fewer than 1,024 wait for each worker.
    pub fn has_room(&self) -> bool
        ensures room { (w : World) → IsRouterOf self.now w → result ≡ true → HasRoom w }
        ensures none { (w : World) → IsRouterOf self.now w → HasRoom w → result ≡ true }
    {
        all_short(&self.queues)
    }
}

impl Driver {
    /// How much waits for the worker.
    pub fn waiting(&self, worker: u32) -> u64
        ensures { (w : World) → IsDriverOf self.now w → result ≡ waiting_in w worker }
    {
        self.router.waiting(worker)
    }

    /// Whether fewer than 1,024 wait for each worker. Where more is read only then, no more than 1,024 wait behind a
    /// time-point, and no more than 1,025 behind a change.
    pub fn has_room(&self) -> bool
        ensures room { (w : World) → IsDriverOf self.now w → result ≡ true → HasRoom w }
        ensures none { (w : World) → IsDriverOf self.now w → HasRoom w → result ≡ true }
    {
        self.router.has_room()
    }
}
