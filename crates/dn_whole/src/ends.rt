/// How a play ends that writes its output.
#[derive(Clone, Copy, Debug, PartialEq, Eq)]
pub enum End {
    /// All lines were played, and all lanes were drained.
    Done,
    /// There are more than 2^22 events: the event lines up to there are the output.
    Long,
    /// A merger found the index full in the drain: the event lines and the calls without an answer are the output.
    IndexFull,
}
