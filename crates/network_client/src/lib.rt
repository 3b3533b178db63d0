// Users of networks that know nothing but the trait: what any list of calls does to any network follows from its contracts.

#![tactic(auto)]

ghost use Rattle.std.specs.Prelude.{◌≡◌, ◌≢◌};
ghost use Rattle.network.specs.Traffic.{after_put, put_answer};
ghost use Rattle.network_client.specs.Runs.{after_call, after_calls, call_answer};
ghost use Rattle.network_client.specs.Pairs.{Apart};

use message::{Message, Refusal};
use network::Network;

/// A call that changes a network.
#[derive(Clone, Copy)]
pub enum Call {
    /// Put a message into a lane.
    Put { lane: usize, message: Message },
    /// Drop the oldest message of a lane.
    DropHead { lane: usize },
}

/// Puts two messages, one after the other. In two lanes they do not touch each other.
pub fn put_both<N: Network>(
    net: &mut N,
    first: usize,
    x: Message,
    second: usize,
    y: Message,
) -> (Result<(), Refusal>, Result<(), Refusal>)
    ensures first { result.0 ≡ put_answer (N.traffic net.old) first x }
    ensures second { result.1 ≡ put_answer (after_put (N.traffic net.old) first x) second y }
    ensures after { N.traffic net.new ≡ after_put (after_put (N.traffic net.old) first x) second y }
    ensures apart { (first ≢ second) → Apart (N.traffic net.old) (N.traffic net.new) first x second y result }
{
    (net.put(first, x), net.put(second, y))
}

/// Makes one call.
pub fn apply<N: Network>(net: &mut N, call: Call) -> Result<(), Refusal>
    ensures answer { result ≡ call_answer (N.traffic net.old) call }
    ensures after { N.traffic net.new ≡ after_call (N.traffic net.old) call }
{
    match call {
        Call::Put { lane, message } => net.put(lane, message),
        Call::DropHead { lane } => net.drop_head(lane),
    }
}

/// Makes calls one after another, whatever each of them answers.
pub fn run<N: Network>(net: &mut N, calls: &[Call])
    ensures after { N.traffic net.new ≡ after_calls (N.traffic net.old) calls.now }
{
    for call in calls {
        let _ = apply(net, *call);
    }
}
