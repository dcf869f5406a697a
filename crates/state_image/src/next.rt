//! What of an image comes next.

/// What of an image comes next, and how many of them are left.
#[derive(Clone, Copy)]
pub enum Next {
    Head,
    /// The records.
    Undos { undos: u32 },
    /// The operations of a record.
    Ops { ops: u32, undos: u32 },
    /// The number of a record's expired coins.
    ExpiredCount { undos: u32 },
    /// The expired coins of a record.
    Expired { expired: u32, undos: u32 },
    /// The number of coins.
    CoinCount,
    Coins { coins: u32 },
    /// The number of names.
    NameCount,
    Names { names: u32 },
    /// The items of a name.
    Items { items: u32, names: u32 },
}
