//! Where the last item that passes is, or the end of the list if none does.

ghost use Rattle.std.specs.Prelude.{◌≡◌};
ghost use Rattle.std.specs.Option.{option_map_or, unwrap_or};

/// Where an item is put, and how many it takes the place of.
#[derive(Clone, Copy)]
pub struct Spot {
    pub index: usize,
    pub take: usize,
}

impl Spot {
    /// That of the last item that passes, or the end of the list.
    pub fn of(last: Option<usize>, length: usize) -> Spot
        ensures index { result.index ≡ unwrap_or last length }
        ensures take { result.take ≡ option_map_or (λ position. 1) last 0 }
    {
        match last {
            Some(index) => Spot { index, take: 1 },
            None => Spot {
                index: length,
                take: 0,
            },
        }
    }
}
