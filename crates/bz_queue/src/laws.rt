//! Laws of queues. Each function does nothing: its contract is the law.
ghost use Rattle.bz_queue.specs.Solo.{SoloCallsEnd};

/// A worker that has an open call and steps alone ends it, or is told that fewer than three places are left: within 1,024 marks for each worker and for two
/// more, beside those of the words that become durable by themselves meanwhile.
pub fn solo_calls_end()
    ensures { SoloCallsEnd }
{}
