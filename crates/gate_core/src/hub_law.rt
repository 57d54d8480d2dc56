//! The law that the hub follows the gate's order.
ghost use Rattle.gate_core.specs.Follow.{OpenFollows, AppendFollows, RefusalFollows, TakeFollows, WaitFollows, CloseFollows, PostFollows};

/// A law of the hub, with nothing to run, over the records of a plan. A new hub stands at the opening. An append of the
/// plan's next record answers Ok exactly where the core may append, and a take gives a record, the plan's next one for
/// that reader, exactly where the core has one for it; each leads the hub where the event leads the core, and a refusal
/// leaves it where it was. A close after the last record or a failed put is the core's, and so is a post that approves
/// as far as the core does.
pub fn hub_follows_core()
    ensures opens { OpenFollows }
    ensures appends { AppendFollows }
    ensures refuses { RefusalFollows }
    ensures takes { TakeFollows }
    ensures waits { WaitFollows }
    ensures closes { CloseFollows }
    ensures posts { PostFollows }
{}
