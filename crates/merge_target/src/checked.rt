// A call that no row refuses.
ghost use Rattle.std.specs.Prelude.{◌≡◌, ◌<◌, All};
ghost use Rattle.merge_choice.specs.Named.{reads};
ghost use Rattle.merge_target.specs.Roles.{numbers};
ghost use Rattle.merge_target.specs.Sound.{Sound, Roled};

use crate::roles::Role;
use crate::{Bundle, Candidate};

// What a call is lent, where no row refuses it, and the role of each chunk that a bit can name, also in a table with a place for each chunk.
#[derive(Clone, Copy)]
pub(crate) struct Checked<'c> {
    pub(crate) bundle: &'c Bundle<'c>,
    pub(crate) candidate: &'c Candidate<'c>,
    pub(crate) roles: &'c [Role],
    pub(crate) table: &'c [Role; 1024],
    ghost sound: { Sound bundle.now },
    ghost own: { All (λ m. m < bundle.now.modules) candidate.now.modules.now },
    ghost roled: { Roled bundle.now roles.now },
    ghost whole: { reads (numbers table.now) ≡ reads (numbers roles.now) },
}
