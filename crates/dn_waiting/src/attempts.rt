//! How the call of a session goes on, on the list of all calls by session.

ghost use Rattle.std.specs.Prelude.{◌≡◌, ◌<◌, None, set, get_or, vec_len};
ghost use Rattle.dn_waiting.specs.Attempts.{at_first, after_load, placed, refused_once, course_refused, settled, course_settled};

use crate::calls::{AttemptEnd, Course, OpenCall, Place};

/// How many attempts of a call may be refused; one more gives it up.
const REFUSALS: u8 = 7;

/// Where a call's first attempt goes, by the lane that its line names and the session's route: nowhere before a load,
/// where no route is known.
pub fn first_lane(named: Option<u8>, route: u8) -> Option<u8>
    ensures { result ≡ at_first named route }
{
    match route {
        0 => None,
        _ => Some(named.unwrap_or(route)),
    }
}

/// Where a call goes after a load, by the lane that is named for it and the route.
pub fn later_lane(named: Option<u8>, route: u8) -> Option<u8>
    ensures { result ≡ after_load named route }
{
    if named.is_some() {
        named
    } else if route == 0 {
        None
    } else {
        Some(route)
    }
}

/// The call of a session, which has one, stands elsewhere.
pub fn move_to(calls: &mut Vec<Option<OpenCall>>, session: u32, place: Place)
    requires { session < vec_len calls.old }
    ensures { calls.new.items ≡ set calls.old.items session
        (placed (get_or calls.old.items session None) place) }
{
    if let Some(call) = &mut calls[session as usize] {
        call.place = place;
    }
}

/// One more attempt of a session's call is refused.
pub fn refuse(calls: &mut Vec<Option<OpenCall>>, session: u32, named: Option<u8>) -> Course
    requires { session < vec_len calls.old }
    ensures after { calls.new.items ≡ set calls.old.items session
        (refused_once (get_or calls.old.items session None) named) }
    ensures course { result ≡ course_refused (get_or calls.old.items session None) }
{
    match &mut calls[session as usize] {
        Some(call) if call.refused < REFUSALS => {
            call.refused += 1;
            call.place = Place::Loading { named };
            Course::Load
        }
        Some(_) => {
            calls[session as usize] = None;
            Course::GivenUp
        }
        None => Course::Load,
    }
}

/// An attempt of a session's call has ended.
pub fn settle(calls: &mut Vec<Option<OpenCall>>, session: u32, end: AttemptEnd) -> Course
    requires { session < vec_len calls.old }
    ensures after { calls.new.items ≡ set calls.old.items session
        (settled end (get_or calls.old.items session None)) }
    ensures course { result ≡ course_settled end (get_or calls.old.items session None) }
{
    match end {
        AttemptEnd::Refused => refuse(calls, session, None),
        AttemptEnd::Made => {
            calls[session as usize] = None;
            Course::Answered
        }
        AttemptEnd::Spent => {
            calls[session as usize] = None;
            Course::GivenUp
        }
    }
}
