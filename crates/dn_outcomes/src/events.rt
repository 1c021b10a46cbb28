use dn_hist::Call;
use dn_monitor::Order;
use dn_tend::Task;

/// What a world is given. Sessions are from 1 to 1,000, keys from 1 to 2^64 - 1, slots from 0 to 63. Lanes have the numbers
/// from 1 to 63, in the order in which they were made. What is refused changes nothing, and a call that is refused gets no
/// number.
#[derive(Drop)]
pub enum Event {
    /// A session starts a call, which gets the session's next number. Fewer than 2^32 - 1 of its calls were numbered.
    /// Refused, by the first of these that holds: `NoLane` where a lane is named that wasn't made, `Busy` where the session
    /// has a call, `Closed` where it is closed.
    ///
    /// The first attempt waits at the lane that is named, else at the session's route of the key's slot. Where the session
    /// knows no route for the slot it first loads the deed, also where a lane is named.
    Start {
        session: u32,
        lane: Option<u8>,
        call: Call,
    },
    /// A lane makes its next action. With nothing under way it first takes up what waits there: tasks before calls, each in
    /// the order in which they came. One that has read the bit of a fence takes up without an action, and answers `Fenced`.
    /// `NoLane` where the lane wasn't made; else `Nothing` where it is stopped, or has nothing under way and nothing waits.
    Step {
        lane: u8,
    },
    /// A staged word of a lane flows out of turn: the one at this place from the oldest, which is 0. `NoLane` where the lane
    /// wasn't made; else `Nothing` where it is stopped or no more than `index` words are staged.
    Flow {
        lane: u8,
        index: u32,
    },
    /// The merger of a lane makes its next action, also that of a stopped or fenced lane. `NoLane` where the lane wasn't made.
    Merge {
        lane: u8,
    },
    /// The monitor makes its next action; `Nothing` where no order is under way. Where it asks a lane to leave a slot, and
    /// at each `Held`, the slot's release arrives at that lane as a task, unless it waits there already or the lane is
    /// stopped. A lane that it fences is live no more.
    Monitor,
    /// A session loads the deed that its call waits for, and its route of the slot is by the word. The attempt then waits at
    /// the lane that was named at the start where it is the first one, else at the route. Where there is neither, the load
    /// counts as a refused attempt and is made again. `Nothing` where no call of the session waits for a load.
    Refresh {
        session: u32,
    },
    /// The monitor is given an order, which isn't `Format`. Refused, by the first of these that holds: `NoLane` where the
    /// target of a move isn't live, or the lane of a fence or takeover wasn't made; `MonitorBusy` where an order is under way.
    Give {
        order: Order,
    },
    /// The order under way is given up, if there is one: the monitor does no more of it, and has no order then. What it did
    /// stays.
    DropOrder,
    /// A release or trim arrives at a lane, behind the tasks that wait there. `NoLane` where the lane wasn't made; else
    /// `Nothing` where it is stopped.
    Queue {
        lane: u8,
        task: Task,
    },
    /// A lane is added, with the next number: it is live and has no slot. `LanesFull` where 63 were made.
    Add,
    /// The session `to` is told the last position of the session `from`, and takes it where it is greater than its own last
    /// one. A closed session takes none.
    Tell {
        from: u32,
        to: u32,
    },
}
