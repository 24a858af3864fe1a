use crate::fault::Fault;
use mix_system::Farkas;

/// What pivots come to.
#[derive(Debug, Drop)]
pub(crate) enum Mended {
    /// No basic column is broken.
    Point,
    /// Bounds in force that no point meets, as they add up.
    Refuted(Farkas),
    /// As many pivots were made as one check may make.
    Paused,
    /// Two numbers that the tableau forms leave 128 bits.
    Excess(Fault),
}
