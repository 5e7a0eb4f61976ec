//! Where a test may hold an actor.
use std::sync::Wait;

/// A place on an actor's way.
#[derive(Clone, Copy, Debug, PartialEq, Eq)]
pub enum Point {
    /// Before the pieces of a hop of a query.
    Hop,
    /// Before a lock of a commit.
    Lock,
    /// Behind the draw of a write stamp.
    Drawn,
    /// Before a value of a commit is installed.
    Install,
    /// Before a node is collected.
    Collect,
    /// Before an item is put into the store.
    StorePut,
    /// Behind the reply to a line.
    Answered,
}

/// Holds actors at their points, for tests of what runs beside what.
pub trait Gate {
    /// Returns when this actor may go on from this point. It may wait forever.
    fn at<T: Wait>(&self, rt: &T, actor: u32, point: Point);
}

/// The gate of the program: it holds nobody.
#[derive(Clone, Copy)]
pub struct NoGate;

impl Gate for NoGate {
    fn at<T: Wait>(&self, _rt: &T, _actor: u32, _point: Point) {}
}
