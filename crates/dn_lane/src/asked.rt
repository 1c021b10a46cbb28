//! What a lane was asked: a call, a task, or nothing.

ghost use Rattle.std.specs.Prelude.{◌≡◌, ◌≤◌, ◌<◌, ◌^◌};
ghost use Rattle.dn_hist.specs.Calls.{key_of};
ghost use Rattle.dn_lane.specs.Asked.{kind_of, brief_of, view_in, words_in, number_in, MaySeal};

use dn_hist::{Call, SessionView};
use dn_plan::{Brief, Kind};
use dn_services::{TASK_WORDS, call_words};
use dn_word::{Position, ValueRoom};

/// What a lane was asked.
#[derive(Drop)]
pub enum Asked {
    Nothing,
    /// The lane's own copy of the call, what its session showed of itself, and room for the value that a get finds.
    Call {
        call: Call,
        view: SessionView,
        room: ValueRoom,
    },
    /// What the task is stands in its plan.
    Task,
}

/// What is shown of no session.
const NO_VIEW: SessionView = SessionView {
    session: 0,
    number: 0,
    last: Position {
        stamp: 0,
        rank: 0,
        session: 0,
    },
    hint: None,
};

fn kind_of(call: &Call) -> Kind
    ensures { result ≡ kind_of call.now }
{
    match call {
        Call::Get { .. } => Kind::Get,
        Call::Put { .. } => Kind::Put,
        Call::Delete { .. } => Kind::Delete,
    }
}

fn key_of(call: &Call) -> u64
    ensures { result ≡ key_of call.now }
{
    match call {
        Call::Get { key } | Call::Put { key, .. } | Call::Delete { key } => *key,
    }
}

impl Asked {
    /// What the plan knows of what was asked. Of a task it is the lane alone: the key is 0 then, which no call has.
    pub fn brief(&self, lane: u8) -> Brief
        ensures { result ≡ brief_of lane self.now }
    {
        match self {
            Asked::Call { call, view, .. } => Brief {
                lane,
                key: key_of(call),
                kind: kind_of(call),
                view: *view,
            },
            Asked::Nothing | Asked::Task => Brief {
                lane,
                key: 0,
                kind: Kind::Get,
                view: NO_VIEW,
            },
        }
    }

    /// The words of the record that it seals.
    pub fn words(&self) -> u16
        requires { MaySeal self.now }
        ensures value { result ≡ words_in self.now }
        ensures least { 1 ≤ result }
        ensures most { result ≤ 130 }
    {
        match self {
            Asked::Call { call, .. } => call_words(call),
            Asked::Nothing | Asked::Task => TASK_WORDS,
        }
    }

    /// The number of the call's session; 0 where it is no call, which no session has.
    pub fn session(&self) -> u32
        ensures { result ≡ (view_in self.now).session }
    {
        match self {
            Asked::Call { view, .. } => view.session,
            Asked::Nothing | Asked::Task => 0,
        }
    }

    /// The number of the call in its session; 0 of a task.
    pub fn number(&self) -> u32
        ensures { result ≡ number_in self.now }
    {
        match self {
            Asked::Call { view, .. } => view.number,
            Asked::Nothing | Asked::Task => 0,
        }
    }
}
