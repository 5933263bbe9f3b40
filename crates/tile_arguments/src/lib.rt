//! What a line of a script can ask for, as types, and what its single arguments say: texts, numbers, layers,
//! features, values, geometries.
//!
//! - A number, a coordinate, and a feature are read as the definition says, or refused as it says:
//!   `number`, `number_argument`, `distance`, `feature_choice`. So are a text, a layer, all layers,
//!   a value by its type, and a geometry, except that out of memory, and nothing else, may be
//!   answered instead (`answer`), and only where the words say a text, or a kind and points
//!   (`no_memory`): `text_argument`, `text_arguments`, `layer_choice`, `layers_choice`,
//!   `new_value`, `new_geometry`. The kind of a geometry is read and written as one word:
//!   `kind_word`.
#![tactic(auto)]

mod choices;
mod geometries;
mod marks;
mod numbers;
mod request;
mod texts;
mod values;

pub use choices::{feature_choice, layer_choice, layers_choice};
pub use geometries::{kind_word, new_geometry};
pub use numbers::{distance, number, number_argument};
pub use request::{Request, What};
pub use texts::{text_argument, text_arguments};
pub use values::new_value;
