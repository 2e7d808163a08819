//! The maps that a lift keeps.

use fp_rows::Matrix;
use min_res::Stage;
use std::rc::Rc;

/// One map of a lift, by the rows that it takes the basis to, with the stages between which it goes.
#[derive(Drop)]
pub(crate) struct Level {
    pub(crate) source: Rc<Stage>,
    pub(crate) target: Rc<Stage>,
    pub(crate) rows: Matrix,
}
