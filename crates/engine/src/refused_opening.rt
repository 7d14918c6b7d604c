//! An error that hands back what was handed in.

ghost use Rattle.std.specs.Prelude.{◌≡◌};

use definitions::Fault;

/// The error of an index that isn't made or opened, with what was handed in.
#[derive(Drop)]
pub struct Refused<D, A> {
    /// The error.
    pub fault: Fault,
    /// The device; after `Device` it may hold a part of the file.
    pub device: D,
    /// The analyzer.
    pub analyzer: A,
}

/// The error alone: device and analyzer are dropped.
impl<D: Drop, A: Drop> From<Refused<D, A>> for Fault {
    ghost from_gives = { λ refused fault. fault ≡ refused.fault };

    fn from(refused: Refused<D, A>) -> Fault {
        let Refused {
            fault,
            device: _device,
            analyzer: _analyzer,
        } = refused;
        fault
    }
}
