//! Laws of listings. Each function does nothing: its contract is the law.

ghost use Rattle.tile_listing.specs.Laws.{ListingsAreLines, NoListingIsOutOfMemory, SelectedFeatureIsThere, SelectedLayerIsThere};

/// A listing is whole lines, none of which is `ok` or begins as a refusal does.
pub fn listings_are_lines()
    ensures { ListingsAreLines }
{}

/// With all memory no listing is refused as out of memory.
pub fn no_listing_is_out_of_memory()
    ensures { NoListingIsOutOfMemory }
{}

/// A layer or a feature that is selected is there, so a listing is refused only as the selection
/// is.
pub fn selected_are_there()
    ensures layers { SelectedLayerIsThere }
    ensures features { SelectedFeatureIsThere }
{}
