use crate::Place;
use wx_num::Excess;

/// A place of the tableau in force, and two numbers formed there whose result leaves 128 bits.
#[derive(Clone, Copy, Debug)]
pub(crate) struct Fault {
    pub(crate) place: Place,
    pub(crate) excess: Excess,
}
