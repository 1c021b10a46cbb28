use dn_route::Session;

/// A session, whether it is closed, and the slot whose deed it loads next, if any.
#[derive(Drop)]
pub struct Client {
    pub session: Session,
    pub closed: bool,
    pub load: Option<u8>,
}
