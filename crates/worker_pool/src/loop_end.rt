//! How a loop of main's ends.
ghost use Rattle.std.specs.Prelude.{◌≡◌};
ghost use Rattle.worker_pool.specs.LoopEnds.{end_of};

use lone_worker::Stop;

/// The end of a loop whose body answered whether the loop is over, if it is; at a good end the loop gives this answer.
pub(crate) fn end_of<T: Copy>(over: Result<bool, Stop>, answer: T) -> Option<Result<T, Stop>>
    ensures { result ≡ end_of over answer }
{
    match over {
        Ok(is_over) => { if is_over { Some(Ok(answer)) } else { None } }
        Err(stop) => Some(Err(stop)),
    }
}
