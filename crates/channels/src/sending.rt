//! What one port sends to another.

use crate::outbox::Outbox;
use sdg_base::Port;

/// A receiving port with its send buffer.
#[derive(Drop)]
pub struct Sending {
    pub to: Port,
    pub outbox: Outbox,
}
