//! What steps start.

use crate::call_state::CallState;
use crate::frames::Frames;
use body_run::{FieldState, Machine};

/// A step lets its call run from frames and a machine on, or it makes a part of an access or ends the call at once.
#[derive(Drop)]
pub(crate) enum Started<'a> {
    Goes(Frames<'a>, Machine),
    Stays(CallState<'a>, Vec<FieldState>),
}
