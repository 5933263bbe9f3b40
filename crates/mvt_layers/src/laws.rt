//! Laws of a feature's attributes. Each is the contract of a function that does nothing.

ghost use Rattle.mvt_layers.specs.Laws.{PairsName, TagsArePairs};

/// Each pair that the tags of a feature make names a key and a value of the layer.
pub fn pairs_name()
    ensures { PairsName }
{}

/// The tags of a feature taken pair by pair are the pairs that they make.
pub fn tags_are_pairs()
    ensures { TagsArePairs }
{}
