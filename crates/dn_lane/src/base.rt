use dn_known::Known;
use dn_locate::Fetch;
use dn_log::Staging;

/// What a lane has beside what it was asked: what it knows, the words on their way to the pool, and the words of the
/// record that was located last.
#[derive(Drop)]
pub struct Base {
    pub known: Known,
    pub staging: Staging,
    pub fetch: Fetch,
}
