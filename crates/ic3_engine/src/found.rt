//! What the engine finds of a property.

use crate::proved::ProvedList;
use local_stim::LocalFailure;

#[derive(Drop)]
pub enum Found {
    Proved(ProvedList),
    /// A failure of the property, or of an assumed one that is broken first on the way.
    Fails(LocalFailure),
}
