//! The latest of the times that a state of SINCE is resumed with.
ghost use Rattle.std.specs.Prelude.{◌≡◌};
ghost use Rattle.eval_since.specs.SinceData.{newest_of};

/// The last of these times, or the one before them.
pub fn latest(times: &[u64], last: u64) -> u64
    ensures { result ≡ newest_of last times.now }
{
    match times.last() {
        Some(time) => *time,
        None => last,
    }
}
