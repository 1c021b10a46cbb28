//! What of a call or a word says where a call goes.

ghost use Rattle.std.specs.Prelude.{◌≡◌, ◌≤◌};
ghost use Rattle.dn_hist.specs.Calls.{key_of};
ghost use Rattle.dn_outcomes.specs.Starts.{lane_or_none};

use dn_hist::Call;

/// The key that a call is on.
pub fn key_of(call: &Call) -> u64
    ensures { result ≡ key_of call.now }
{
    match call {
        Call::Get { key } | Call::Put { key, .. } | Call::Delete { key } => *key,
    }
}

/// A route that names a lane, or 0.
pub fn lane_or_none(route: u8) -> u8
    ensures value { result ≡ lane_or_none route }
    ensures lane { result ≤ 63 }
{
    if route < 64 { route } else { 0 }
}
