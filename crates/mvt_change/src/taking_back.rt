//! The steps that were made, taken back without growth if memory runs out.

ghost use Rattle.std.specs.Prelude.{◌≡◌, map, reverse};
ghost use Rattle.mvt_document.specs.Stands.{document_of};
ghost use Rattle.mvt_change.specs.ChangeStands.{step_of};
ghost use Rattle.mvt_change.specs.Changes.{go, turn};
ghost use Rattle.mvt_change.specs.HeldChanges.{HaveRoom};

use crate::change::Step;
use crate::steps::flip_step;
use mvt_document::Document;

/// Takes the steps back, from the last to the first. Each is turned in place.
pub(crate) fn take_back(document: &mut Document, steps: &mut [Step])
    requires { HaveRoom (reverse steps.old) document.old }
    ensures document { document_of document.new ≡ go (map step_of (reverse steps.old)) (document_of document.old) }
    ensures steps { map step_of steps.new ≡ turn (map step_of (reverse steps.old)) (document_of document.old) }
{
    for at in (0..steps.len()).rev() {
        flip_step(document, &mut steps[at]).unwrap();
    }
}
