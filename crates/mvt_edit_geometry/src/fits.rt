//! Whether a file can hold a tile once one feature changes.

ghost use Rattle.std.specs.Prelude.{◌≡◌, Some, List, length, nat_lt, not, slice_get};
ghost use Rattle.std.specs.List.{flat_map};
ghost use Rattle.mvt_document.specs.declared.TheConstants.{MAX_FILE};
ghost use Rattle.mvt_document.specs.Places.{change_fields};
ghost use Rattle.mvt_document.specs.Plain as plain;
ghost use Rattle.mvt_document.specs.Stands.{document_of, feature_of, layer_of};
ghost use Rattle.mvt_document.specs.Wire.{bytes_of, field_bytes};
ghost use Rattle.mvt_change.specs.FileSizes.{IsFileSize};

use mvt_change::{fits_with_items, size_with_fields};
use mvt_document::Document;
use mvt_select::{FoundFeature, FoundLayer};

/// A file can hold the tile once this feature has fields of this size, whichever they are. `None`
/// stands for a size that no file can hold.
pub(crate) fn fits_with_fields(
    document: &Document,
    holder: FoundLayer<'_>,
    found: FoundFeature<'_>,
    fields: Option<usize>,
) -> bool
    requires layer { slice_get (document_of document.now) holder.position ≡ Some (plain.OfLayer (layer_of holder.layer.now)) }
    requires feature { slice_get (layer_of holder.layer.now).items found.position ≡ Some (plain.OfFeature (feature_of found.feature.now)) }
    ensures { (change : List plain.Field → List plain.Field) → IsFileSize fields (length (flat_map field_bytes (change (feature_of found.entry.feature.now).fields))) →
        result ≡ not (nat_lt MAX_FILE (length (bytes_of (change_fields change holder.entry.position found.entry.position (document_of document.now))))) }
{
    let items = size_with_fields(holder.layer, found.position, fields, Some(0));
    fits_with_items(document, holder.position, items)
}
