//! What stands behind the history.

ghost use Rattle.std.specs.Prelude.{◌≡◌, ◌≤◌, ◌++◌, length, OnOk, OnErr};
ghost use Rattle.dn_print.specs.Front.{KeepsFront};
ghost use Rattle.dn_print.specs.SummaryLine.{state_text, labelled_text, lane_head_text, lane_text, calls_text, cached_text, located_text, ways_text, map_text};

use crate::pieces::{byte, bytes, number as digits, whole};
use dn_word::OutOfMemory;

/// Whether a lane takes calls.
#[derive(Clone, Copy, Debug, PartialEq, Eq, Drop)]
pub enum LaneState {
    /// It does.
    Live,
    /// Its gate is fenced.
    Fenced,
    /// Its node stopped.
    Stopped,
}

impl LaneState {
    /// The word that is printed for it.
    fn name(&self) -> &str
        ensures { result.now ≡ state_text self.now }
    {
        match self {
            LaneState::Live => "live",
            LaneState::Fenced => "fenced",
            LaneState::Stopped => "stopped",
        }
    }
}

/// A lane as its line tells it.
#[derive(Clone, Copy)]
pub(crate) struct LaneSummary {
    pub(crate) lane: u8,
    pub(crate) state: LaneState,
    pub(crate) stamp: u32,
    pub(crate) len: u32,
    pub(crate) mark: u64,
}

/// How the calls ended, and how many attempts were refused.
#[derive(Clone, Copy)]
pub(crate) struct CallCounts {
    pub(crate) calls: u64,
    pub(crate) made: u64,
    pub(crate) refused: u64,
    pub(crate) unanswered: u64,
    pub(crate) given: u64,
}

/// How many answered gets found their value in each way.
#[derive(Clone, Copy)]
pub(crate) struct WayCounts {
    pub(crate) value: u64,
    pub(crate) shortcut: u64,
    pub(crate) pending: u64,
    pub(crate) index: u64,
    pub(crate) cell: u64,
}

/// Appends a label and its number.
#[tactic(auto, using(crate::proofs::FrontLemmas::keeps_on))]
fn labelled(out: &mut Vec<u8>, start: usize, label: &[u8], number: u64) -> Result<(), OutOfMemory>
    requires { start ≤ length out.old.items }
    ensures ok { OnOk result (out.new.items ≡ out.old.items ++ labelled_text label.now number) }
    ensures front { KeepsFront start out.old.items out.new.items }
{
    bytes(out, start, label)?;
    digits(out, start, number)
}

/// Appends which lane it is and its state.
#[tactic(auto, using(crate::proofs::FrontLemmas::keeps_on))]
fn lane_head(out: &mut Vec<u8>, start: usize, lane: u8, state: LaneState) -> Result<(), OutOfMemory>
    requires { start ≤ length out.old.items }
    ensures ok { OnOk result (out.new.items ≡ out.old.items ++ lane_head_text lane state) }
    ensures front { KeepsFront start out.old.items out.new.items }
{
    bytes(out, start, b"lane ")?;
    digits(out, start, lane as u64)?;
    byte(out, start, b' ')?;
    bytes(out, start, state.name().as_bytes())
}

/// Appends the line of a lane.
#[tactic(auto, using(crate::proofs::FrontLemmas::keeps_on))]
fn lane_words(out: &mut Vec<u8>, start: usize, of: &LaneSummary) -> Result<(), OutOfMemory>
    requires { start ≤ length out.old.items }
    ensures ok { OnOk result (out.new.items ≡ out.old.items ++ lane_text of.now) }
    ensures front { KeepsFront start out.old.items out.new.items }
{
    lane_head(out, start, of.lane, of.state)?;
    labelled(out, start, b" stamp ", of.stamp as u64)?;
    labelled(out, start, b" len ", of.len as u64)?;
    labelled(out, start, b" mark ", of.mark)?;
    byte(out, start, b'\n')
}

/// Appends the line of a lane: its number, its state, its last stamp, and its log's sealed length and merged mark in words.
/// Where memory is wanting, `out` stays.
#[tactic(auto, using(crate::proofs::FrontLemmas::taken_back))]
pub fn lane_line(
    out: &mut Vec<u8>,
    lane: u8,
    state: LaneState,
    stamp: u32,
    len: u32,
    mark: u64,
) -> Result<(), OutOfMemory>
    ensures ok { OnOk result (out.new.items ≡ out.old.items
        ++ lane_text (record {
          lane = lane;
          state = state;
          stamp = stamp;
          len = len;
          mark = mark;
        })) }
    ensures same { OnErr result (out.new.items ≡ out.old.items) }
{
    let start = out.len();
    let of = LaneSummary {
        lane,
        state,
        stamp,
        len,
        mark,
    };
    let made = lane_words(out, start, &of);
    whole(out, start, made)
}

/// Appends the line of the calls.
#[tactic(auto, using(crate::proofs::FrontLemmas::keeps_on))]
fn calls_words(out: &mut Vec<u8>, start: usize, of: &CallCounts) -> Result<(), OutOfMemory>
    requires { start ≤ length out.old.items }
    ensures ok { OnOk result (out.new.items ≡ out.old.items ++ calls_text of.now) }
    ensures front { KeepsFront start out.old.items out.new.items }
{
    labelled(out, start, b"calls ", of.calls)?;
    labelled(out, start, b" made ", of.made)?;
    labelled(out, start, b" refused ", of.refused)?;
    labelled(out, start, b" unanswered ", of.unanswered)?;
    labelled(out, start, b" given ", of.given)?;
    byte(out, start, b'\n')
}

/// Appends how many calls there were, and of these were made, had no answer and were given up, and how many attempts were
/// refused. Where memory is wanting, `out` stays.
#[tactic(auto, using(crate::proofs::FrontLemmas::taken_back))]
pub fn calls_line(
    out: &mut Vec<u8>,
    calls: u64,
    made: u64,
    refused: u64,
    unanswered: u64,
    given: u64,
) -> Result<(), OutOfMemory>
    ensures ok { OnOk result (out.new.items ≡ out.old.items
        ++ calls_text (record {
          calls = calls;
          made = made;
          refused = refused;
          unanswered = unanswered;
          given = given;
        })) }
    ensures same { OnErr result (out.new.items ≡ out.old.items) }
{
    let start = out.len();
    let of = CallCounts {
        calls,
        made,
        refused,
        unanswered,
        given,
    };
    let made = calls_words(out, start, &of);
    whole(out, start, made)
}

/// Appends the gets that the cache located.
#[tactic(auto, using(crate::proofs::FrontLemmas::keeps_on))]
fn cached(out: &mut Vec<u8>, start: usize, of: &WayCounts) -> Result<(), OutOfMemory>
    requires { start ≤ length out.old.items }
    ensures ok { OnOk result (out.new.items ≡ out.old.items ++ cached_text of.now) }
    ensures front { KeepsFront start out.old.items out.new.items }
{
    labelled(out, start, b"ways value ", of.value)?;
    labelled(out, start, b" shortcut ", of.shortcut)
}

/// Appends those that were located behind it, and the line's end.
#[tactic(auto, using(crate::proofs::FrontLemmas::keeps_on))]
fn located(out: &mut Vec<u8>, start: usize, of: &WayCounts) -> Result<(), OutOfMemory>
    requires { start ≤ length out.old.items }
    ensures ok { OnOk result (out.new.items ≡ out.old.items ++ located_text of.now) }
    ensures front { KeepsFront start out.old.items out.new.items }
{
    labelled(out, start, b" pending ", of.pending)?;
    labelled(out, start, b" index ", of.index)?;
    labelled(out, start, b" cell ", of.cell)?;
    byte(out, start, b'\n')
}

/// Appends the line of the ways.
#[tactic(auto, using(crate::proofs::FrontLemmas::keeps_on))]
fn ways_words(out: &mut Vec<u8>, start: usize, of: &WayCounts) -> Result<(), OutOfMemory>
    requires { start ≤ length out.old.items }
    ensures ok { OnOk result (out.new.items ≡ out.old.items ++ ways_text of.now) }
    ensures front { KeepsFront start out.old.items out.new.items }
{
    cached(out, start, of)?;
    located(out, start, of)
}

/// Appends how many answered gets found their value in each way: a cached value, a shortcut, the lane's own pending records,
/// the index and a cell. Where memory is wanting, `out` stays.
#[tactic(auto, using(crate::proofs::FrontLemmas::taken_back))]
pub fn ways_line(
    out: &mut Vec<u8>,
    value: u64,
    shortcut: u64,
    pending: u64,
    index: u64,
    cell: u64,
) -> Result<(), OutOfMemory>
    ensures ok { OnOk result (out.new.items ≡ out.old.items
        ++ ways_text (record {
          value = value;
          shortcut = shortcut;
          pending = pending;
          index = index;
          cell = cell;
        })) }
    ensures same { OnErr result (out.new.items ≡ out.old.items) }
{
    let start = out.len();
    let of = WayCounts {
        value,
        shortcut,
        pending,
        index,
        cell,
    };
    let made = ways_words(out, start, &of);
    whole(out, start, made)
}

/// Appends the line of the map.
#[tactic(auto, using(crate::proofs::FrontLemmas::keeps_on))]
fn keys_line(out: &mut Vec<u8>, start: usize, keys: u64) -> Result<(), OutOfMemory>
    requires { start ≤ length out.old.items }
    ensures ok { OnOk result (out.new.items ≡ out.old.items ++ map_text keys) }
    ensures front { KeepsFront start out.old.items out.new.items }
{
    labelled(out, start, b"map ", keys)?;
    byte(out, start, b'\n')
}

/// Appends how many keys the history leaves. Where memory is wanting, `out` stays.
#[tactic(auto, using(crate::proofs::FrontLemmas::taken_back))]
pub fn map_line(out: &mut Vec<u8>, keys: u64) -> Result<(), OutOfMemory>
    ensures ok { OnOk result (out.new.items ≡ out.old.items ++ map_text keys) }
    ensures same { OnErr result (out.new.items ≡ out.old.items) }
{
    let start = out.len();
    let made = keys_line(out, start, keys);
    whole(out, start, made)
}
