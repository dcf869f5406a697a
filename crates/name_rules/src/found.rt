//! The first of some items, and whether there are more.

ghost use Rattle.std.specs.Prelude.{◌≡◌, length, nat_lt, slice_get};
ghost use Rattle.name_rules.specs.Found.{listed, with_item};

/// What was found on the way: the first item, and whether there were more.
#[derive(Clone, Copy, Drop, Debug)]
pub(crate) enum Found<T> {
    Nothing,
    One(T),
    More(T),
}

impl<T: Copy> Found<T> {
    /// With one item more, behind these.
    pub(crate) fn and(self, item: T) -> Found<T>
        ensures { result ≡ with_item self item }
    {
        match self {
            Found::Nothing => Found::One(item),
            Found::One(first) | Found::More(first) => Found::More(first),
        }
    }

    /// The first item.
    pub(crate) fn first(&self) -> Option<T>
        ensures { result ≡ slice_get (listed self.now) 0 }
    {
        match self {
            Found::Nothing => None,
            Found::One(first) | Found::More(first) => Some(*first),
        }
    }

    /// Whether there is an item.
    pub(crate) fn some(&self) -> bool
        ensures { result ≡ nat_lt 0 (length (listed self.now)) }
    {
        match self {
            Found::Nothing => false,
            Found::One(_) | Found::More(_) => true,
        }
    }

    /// Whether there are two or more.
    pub(crate) fn many(&self) -> bool
        ensures { result ≡ nat_lt 1 (length (listed self.now)) }
    {
        match self {
            Found::Nothing | Found::One(_) => false,
            Found::More(_) => true,
        }
    }
}
