//! What is left to run of a body.

ghost use Rattle.std.specs.Prelude.{◌≡◌, [], ◌∷◌, MatchOption, OnOk};
ghost use Rattle.access_blocks.specs.Source.{left_loop, next_pass};
ghost use Rattle.source_run.specs.Seen.{frame_of, frames_of};

use access_blocks::{Expression, Statement};
use sqlite_items::Boxed;
use std::alloc::{AllocError, Global};

/// A loop behind its start: its condition, its update and its body (JLS 14.12, 14.14.1).
#[derive(Clone, Copy)]
pub(crate) struct Around<'a> {
    pub test: &'a Option<Boxed<Expression>>,
    pub update: &'a [Statement],
    pub body: &'a Statement,
}

/// Statements, one statement, or a loop round them, of which the condition or the update comes next.
#[derive(Clone, Copy)]
pub(crate) enum Frame<'a> {
    Then(&'a [Statement]),
    One(&'a Statement),
    Test(Around<'a>),
    Again(Around<'a>),
}

/// What is left to run of a body: frames in each other, of which the innermost is run first. They are seen as a list, the
/// innermost first.
#[derive(Drop)]
pub(crate) struct Frames<'a> {
    frames: Vec<Frame<'a>>,
}

impl<'a> Frames<'a> {
    /// No frames.
    pub(crate) fn new(alloc: Global) -> Frames<'a>
        ensures { frames_of result ≡ [] }
    {
        Frames {
            frames: Vec::new(alloc),
        }
    }

    /// Enters a frame, which is run before the others.
    pub(crate) fn push(&mut self, frame: Frame<'a>) -> Result<(), AllocError>
        ensures { OnOk result (frames_of self.new ≡ frame_of frame.entry ∷ frames_of self.old) }
    {
        self.frames.push(frame)?;
        Ok(())
    }

    /// Takes the innermost frame, where there is one.
    pub(crate) fn pop(&mut self) -> Option<Frame<'a>>
        ensures { MatchOption result ((frames_of self.old ≡ []) × (frames_of self.new ≡ [])) (λ frame. frames_of self.old ≡ frame_of frame ∷ frames_of self.new) }
    {
        self.frames.pop()
    }

    /// Leaves the innermost loop (JLS 14.15).
    pub(crate) fn leave_loop(&mut self)
        ensures { frames_of self.new ≡ left_loop (frames_of self.old) }
    {
        while let Some(frame) = self.pop() {
            match frame {
                Frame::Then(_) | Frame::One(_) => {}
                Frame::Test(_) | Frame::Again(_) => return,
            }
        }
    }

    /// Goes on with the innermost loop, whose update or condition comes next (JLS 14.16).
    ///
    /// # Errors
    /// For want of memory.
    pub(crate) fn next_pass(&mut self) -> Result<(), AllocError>
        ensures { OnOk result (frames_of self.new ≡ next_pass (frames_of self.old)) }
    {
        while let Some(frame) = self.pop() {
            match frame {
                Frame::Then(_) | Frame::One(_) => {}
                Frame::Test(_) | Frame::Again(_) => return self.push(frame),
            }
        }
        Ok(())
    }
}
